// A number that tells what a run made.
use expressions::Record;

#[derive(Drop)]
pub(crate) struct Checksum {
    sum: u64,
}

impl Checksum {
    pub(crate) fn new() -> Checksum {
        Checksum { sum: 1 }
    }

    pub(crate) fn value(&self) -> u64 {
        self.sum
    }

    pub(crate) fn add(&mut self, number: u64) {
        self.sum = self.sum.wrapping_mul(31).wrapping_add(number);
    }

    pub(crate) fn add_all(&mut self, numbers: &[u32]) {
        for number in numbers {
            self.add(*number as u64);
        }
    }

    pub(crate) fn add_records(&mut self, records: &[Record]) {
        for record in records {
            self.add_all(&[record.kind, record.left, record.right, record.next]);
        }
    }
}
