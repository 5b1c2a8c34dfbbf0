// How long the buffers are made that are lent to the engine.
use expressions::{CHAINS, MOST_RECORDS};
use refusals::Buffer;

// The buffers of steps, records and heads are made when a network is opened, the others at each call.
#[derive(Clone, Copy, Default)]
pub(crate) struct Rooms {
    pub steps: usize,
    pub records: usize,
    pub heads: usize,
    pub row: usize,
    pub weights: usize,
    pub memo: usize,
    pub answers: usize,
}

impl Rooms {
    // As long as any network needs that is only drawn.
    pub(crate) fn for_steps() -> Rooms {
        Rooms {
            steps: 256,
            ..Rooms::default()
        }
    }

    // As long as any network needs.
    pub(crate) fn ample() -> Rooms {
        Rooms {
            steps: 256,
            records: MOST_RECORDS,
            heads: CHAINS,
            row: 32,
            weights: 256,
            memo: MOST_RECORDS,
            answers: 32,
        }
    }

    // Chooses the length of a buffer. A plan has one length.
    pub(crate) fn set(&mut self, buffer: Buffer, length: usize) {
        match buffer {
            Buffer::Steps => self.steps = length,
            Buffer::Records => self.records = length,
            Buffer::Heads => self.heads = length,
            Buffer::Row => self.row = length,
            Buffer::Weights => self.weights = length,
            Buffer::Memo => self.memo = length,
            Buffer::Answers => self.answers = length,
            Buffer::Plan => {}
        }
    }
}
