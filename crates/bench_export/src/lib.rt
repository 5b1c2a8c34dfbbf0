// Rounds of the calls that take time, for a program in another language to measure: a network of 32 formats with 256 steps that are
// drawn by chance is sealed, traced or queried again and again.
#![tactic(auto)]

mod buffers;
mod checksum;
mod noise;

use buffers::Buffers;
use refusals::Refusal;

// What is measured.
#[derive(Clone, Copy)]
enum Kind {
    Seal,
    Trace,
    Query,
}

#[derive(Drop)]
struct NoSuchKind;

impl TryFrom<u32> for Kind {
    type Error = NoSuchKind;

    fn try_from(number: u32) -> Result<Kind, NoSuchKind> {
        match number {
            0 => Ok(Kind::Seal),
            1 => Ok(Kind::Trace),
            2 => Ok(Kind::Query),
            _ => Err(NoSuchKind),
        }
    }
}

// Runs rounds of what is measured on the network of a seed.
fn measure(kind: Kind, rounds: u64, seed: u64) -> Result<u64, Refusal> {
    let mut buffers = Buffers::new();
    match kind {
        Kind::Seal => buffers.measure(rounds, seed, |buffers, sealed, _, sum| {
            let sealed = buffers.seal(sealed.reopen())?;
            sum.add(sealed.size().1 as u64);
            Ok(sealed)
        }),
        Kind::Trace => buffers.measure(rounds, seed, |buffers, mut sealed, source, sum| {
            buffers.trace(&mut sealed, source)?;
            sum.add_all(&buffers.row);
            Ok(sealed)
        }),
        Kind::Query => buffers.measure(rounds, seed, |buffers, mut sealed, source, sum| {
            buffers.query(&mut sealed, source)?;
            sum.add_all(&buffers.answers);
            Ok(sealed)
        }),
    }
}

// Runs so many rounds of sealing (kind 0), tracing (1) or querying (2) on the network of a seed, and answers a checksum, 0 where the
// kind is none of these or a call was refused. A caller in C may pass any number, so that the kind comes as one, which is
// tested once and then is a `Kind`; a refusal is answered by 0, since the C interface gives one number.
#[unsafe(no_mangle)]
pub extern "C" fn hollquman_rounds(kind: u32, rounds: u64, seed: u64) -> u64 {
    match Kind::try_from(kind) {
        Ok(kind) => measure(kind, rounds, seed).unwrap_or(0),
        Err(NoSuchKind) => 0,
    }
}
