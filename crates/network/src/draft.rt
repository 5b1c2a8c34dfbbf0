// Drawing a network.
ghost use Rattle.std.specs.Prelude.{◌≡◌, ◌≤◌, true, false};
ghost use Rattle.refusals.specs.Refused.{outcome};
ghost use Rattle.network.specs.Drafts.{opened, After, added, turned};
ghost use Rattle.network.specs.States.{recounted};

use crate::{Draft, Sealed};
use expressions::{MOST_RECORDS, Step};
use refusals::{Buffer, Refusal};

// The most steps in a network's life.
const MOST_STEPS: usize = 256;

impl Draft {
    // A network of so many formats, 1 to 32, and no steps.
    pub fn open(formats: usize) -> Result<Draft, Refusal>
        ensures { outcome (λ d. d) result ≡ opened formats }
    {
        match formats {
            1..=32 => Ok(Draft {
                formats: formats as u32,
                steps: 0,
            }),
            _ => Err(Refusal::FormatCount),
        }
    }

    // Adds a step in force from one format to another, or to the same, and answers its number.
    pub fn add(&mut self, steps: &mut [Step], from: usize, to: usize) -> Result<usize, Refusal>
        ensures { record { answer = outcome (λ j. j) result; draft = self.new; buffer = steps.new } ≡ added self.old steps.old from to }
    {
        let formats = self.formats as usize;
        let new = self.steps;
        if steps.len() < new {
            Err(Refusal::TooShort(Buffer::Steps))
        } else if formats <= from || formats <= to {
            Err(Refusal::NoSuchFormat)
        } else if MOST_STEPS <= new || steps.len() <= new {
            Err(Refusal::StepsFull)
        } else {
            steps[new] = Step {
                from: from as u32,
                to: to as u32,
                in_force: true,
            };
            self.steps += 1;
            Ok(new)
        }
    }

    // Puts step j in force, or out of it.
    fn turn(&self, steps: &mut [Step], j: usize, on: bool) -> Result<(), Refusal>
        ensures { record { answer = outcome (λ u. u) result; draft = self.now; buffer = steps.new } ≡ turned on self.now steps.old j }
    {
        if steps.len() < self.steps {
            Err(Refusal::TooShort(Buffer::Steps))
        } else if self.steps <= j {
            Err(Refusal::NoSuchStep)
        } else if steps[j].in_force == on {
            Err(Refusal::AlreadySo)
        } else {
            steps[j].in_force = on;
            Ok(())
        }
    }

    // Retires step j, which keeps its number.
    pub fn retire(&self, steps: &mut [Step], j: usize) -> Result<(), Refusal>
        ensures { record { answer = outcome (λ u. u) result; draft = self.now; buffer = steps.new } ≡ turned false self.now steps.old j }
    {
        self.turn(steps, j, false)
    }

    // Puts step j in force again.
    pub fn restore(&self, steps: &mut [Step], j: usize) -> Result<(), Refusal>
        ensures { record { answer = outcome (λ u. u) result; draft = self.now; buffer = steps.new } ≡ turned true self.now steps.old j }
    {
        self.turn(steps, j, true)
    }
}

impl Sealed {
    // How many formats there are.
    pub fn formats(&self) -> usize
        ensures { result ≡ self.now.formats }
    {
        self.formats as usize
    }

    // How many steps were added, in force or retired.
    pub fn step_count(&self) -> usize
        ensures value { result ≡ self.now.steps }
        ensures held { self.now.steps ≤ 256 }
    {
        self.steps
    }

    // Counts the records that were made in the network's store, if so many can be in use there.
    pub fn count_records(&mut self, records: usize)
        ensures { self.new ≡ recounted self.old records }
    {
        if 2 <= records && records <= MOST_RECORDS {
            self.records = records;
        }
    }

    // The draft that was sealed.
    pub fn reopen(self) -> Draft
        ensures { result ≡ record { formats = self.formats; steps = self.steps } }
    {
        Draft {
            formats: self.formats,
            steps: self.steps,
        }
    }

    // The components, and the records.
    pub fn size(&self) -> (usize, usize)
        ensures value { result ≡ (self.now.components, self.now.records) }
        ensures begun { 2 ≤ self.now.records }
        ensures within { self.now.records ≤ 131072 }
    {
        (self.components, self.records)
    }
}
