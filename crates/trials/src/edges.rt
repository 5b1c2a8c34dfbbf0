// The rules at their edges: the last number that is taken, and the next that is not.
use crate::buffers::Buffers;
use crate::histories::TWO_FORMATS;
use crate::report::Report;
use algebras::Phase;
use network::Draft;
use refusals::Refusal;
use std::fmt;

// What a call that was taken came to.
#[derive(Clone, Copy, PartialEq, Eq)]
enum Taken {
    Plainly,
    Step(usize),
    Records(usize),
}

type Came = Result<Taken, Refusal>;

#[derive(Drop)]
struct Shown(pub Came);

impl fmt::Display for Shown {
    fn fmt<W: fmt::Write>(&self, f: &mut fmt::Formatter<W>) -> fmt::Result {
        match self.0 {
            Ok(Taken::Plainly) => f.write_str("taken"),
            Ok(Taken::Step(number)) => write!(f, "step {number}"),
            Ok(Taken::Records(count)) => write!(f, "{count} records"),
            Err(refusal) => {
                let number = refusal.number();
                match refusal.value() {
                    Some(value) => write!(f, "refused {number} with {value}"),
                    None => write!(f, "refused {number}"),
                }
            }
        }
    }
}

fn open(formats: usize) -> Came {
    Draft::open(formats)?;
    Ok(Taken::Plainly)
}

// The last of so many adds.
fn add(buffers: &mut Buffers, times: usize) -> Came {
    let mut draft = Draft::open(2)?;
    let mut last = Taken::Plainly;
    for _ in 0..times {
        last = Taken::Step(draft.add(buffers.steps.as_mut_slice(), 0, 1)?);
    }
    Ok(last)
}

// Sealing the two formats.
fn seal(mut buffers: Buffers) -> Came {
    let draft = buffers.draw(&TWO_FORMATS)?;
    let sealed = buffers.seal(draft)?;
    Ok(Taken::Records(sealed.size().1))
}

// Sealing them, and tracing them from format 0.
fn trace(mut buffers: Buffers) -> Came {
    let draft = buffers.draw(&TWO_FORMATS)?;
    let mut sealed = buffers.seal(draft)?;
    buffers.trace(&mut sealed, 0)?;
    Ok(Taken::Records(sealed.size().1))
}

fn modulus(m: u64) -> Came {
    Phase::new(m)?;
    Ok(Taken::Plainly)
}

// Each call beside what is expected of it.
pub(crate) fn compare(report: &mut Report) -> anyhow::Result<()> {
    report.heading("edges")?;
    let heap = report.heap();
    let room = |records| Buffers::new(heap, records);
    let mut drawn = room(2)?;
    let calls = [
        ("open with 0 formats", open(0), Err(Refusal::FormatCount)),
        ("open with 32 formats", open(32), Ok(Taken::Plainly)),
        ("open with 33 formats", open(33), Err(Refusal::FormatCount)),
        ("256 adds", add(&mut drawn, 256), Ok(Taken::Step(255))),
        ("257 adds", add(&mut drawn, 257), Err(Refusal::StepsFull)),
        (
            "seal with room for 8 records",
            seal(room(8)?),
            Ok(Taken::Records(8)),
        ),
        (
            "seal with room for 7 records",
            seal(room(7)?),
            Err(Refusal::StoreFull(7)),
        ),
        (
            "seal and trace with room for 11 records",
            trace(room(11)?),
            Ok(Taken::Records(11)),
        ),
        (
            "seal and trace with room for 10 records",
            trace(room(10)?),
            Err(Refusal::StoreFull(10)),
        ),
        ("modulus 60", modulus(60), Ok(Taken::Plainly)),
        ("modulus 61", modulus(61), Err(Refusal::ModulusRange)),
    ];
    for (what, came, expected) in calls {
        let same = came == expected;
        let came = Shown(came);
        let expected = Shown(expected);
        report.verdict(format_args!("{what}: {came}, expected {expected}"), same)?;
    }
    Ok(())
}
