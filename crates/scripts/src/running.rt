// Scripts are run from files and from standard input.
ghost use Rattle.std.specs.Prelude.{◌≡◌};

use crate::Session;
use anyhow::ensure;
use std::env::Env;
use std::io::{Input, Read};
use std::rt::Files;
use std::{env, fs, io};

// Runs one script, and says whether each of its lines was understood. Bytes that are no text are read as U+FFFD.
fn run_script<R: Print + AllocGlobal>(
    rt: &R,
    session: &mut Session,
    bytes: &[u8],
) -> anyhow::Result<bool>
    ensures { session.new.vocabulary ≡ session.old.vocabulary }
{
    let heap = rt.alloc();
    let script = String::from_utf8_lossy(heap, bytes)?;
    let mut understood = true;
    for (index, line) in script.lines().enumerate() {
        let mut out = String::new(heap);
        understood &= session.obey(index.saturating_add(1), line, &mut out)?;
        rt.print(out.as_str())?;
    }
    Ok(understood)
}

// Runs the script in a file, and says whether it could be read and each of its lines was understood.
fn run_file<R: Files + Print + Eprint + AllocGlobal>(
    rt: &R,
    session: &mut Session,
    path: &str,
) -> anyhow::Result<bool>
    ensures { session.new.vocabulary ≡ session.old.vocabulary }
{
    match fs::read(rt, path) {
        Ok(bytes) => run_script(rt, session, bytes.as_slice()),
        Err(error) => {
            eprintln!(rt; "hollquman: cannot read {path}: {error}")?;
            Ok(false)
        }
    }
}

// Runs the script on standard input, and says whether each of its lines was understood.
fn run_input<R: Input + Print + AllocGlobal>(rt: &R, session: &mut Session) -> anyhow::Result<bool>
    ensures { session.new.vocabulary ≡ session.old.vocabulary }
{
    let mut bytes = Vec::new(rt.alloc());
    rt.reader().read_to_end(&mut bytes)?;
    run_script(rt, session, bytes.as_slice())
}

// Runs the scripts in the files that the program is given, one after another, or the script on standard input if it is given none.
// An error at the end says that a file could not be read or a line was not understood.
pub fn run<R: Env + Files + Input + Print + Eprint + AllocGlobal>(
    rt: &R,
    session: &mut Session,
) -> anyhow::Result<()>
    ensures { session.new.vocabulary ≡ session.old.vocabulary }
{
    let mut paths = env::args(rt)?.skip(1).peekable();
    let mut fine = true;
    if paths.peek().is_none() {
        fine = run_input(rt, session)?;
    }
    for path in paths {
        fine &= run_file(rt, session, path.as_str())?;
    }
    ensure!(
        fine,
        "a file could not be read or a line was not understood"
    );
    Ok(())
}
