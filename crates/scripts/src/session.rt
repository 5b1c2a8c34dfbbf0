// A session, which carries out scripts a line at a time.
ghost use Rattle.std.specs.Prelude.{◌≡◌, IfOk, false};

use crate::house::House;
use crate::{Vocabulary, command};
use std::alloc::{AllocError, Global};
use std::fmt::Write;

// The vocabulary of the scripts, which stays, and what they have set so far.
#[derive(Drop)]
pub struct Session {
    heap: Global,
    vocabulary: Vocabulary,
    house: House,
}

// What is said of a line that is no command.
fn not_understood(out: &mut String, number: usize, words: &[&str]) -> Result<(), AllocError> {
    write!(out, "line {number}: not understood:")?;
    for word in words {
        write!(out, " {word}")?;
    }
    writeln!(out)
}

impl Session {
    // A session for scripts in a vocabulary, in which nothing is set yet.
    pub fn new(heap: Global, vocabulary: Vocabulary) -> Session
        ensures { result.vocabulary ≡ vocabulary }
    {
        Session {
            heap,
            vocabulary,
            house: House::new(heap, vocabulary.rooms()),
        }
    }

    // Carries out one line, writes what there is to print into `out`, and says whether the line was understood.
    pub fn obey(&mut self, number: usize, line: &str, out: &mut String) -> Result<bool, AllocError>
        ensures vocabulary { self.new.vocabulary ≡ self.old.vocabulary }
        ensures unchanged { IfOk result (λ understood. understood ≡ false → self.new ≡ self.old) }
    {
        let words = command::words(self.heap, line)?;
        let [name, ..] = words.as_slice() else {
            return Ok(true);
        };
        let Some(command) = command::read(self.heap, self.vocabulary, words.as_slice())? else {
            not_understood(out, number, words.as_slice())?;
            return Ok(false);
        };
        if let Err(fault) = self.house.carry_out(out, command) {
            fault.tell(out, name)?;
        }
        Ok(true)
    }
}
