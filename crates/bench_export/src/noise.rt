// Numbers drawn by chance.

// A linear congruential generator, of whose 64 bits the high ones are used.
#[derive(Drop)]
pub(crate) struct Noise {
    state: u64,
}

impl Noise {
    pub(crate) fn new(seed: u64) -> Noise {
        Noise { state: seed }
    }

    // A number below 65,536. There is always another, so that this is no iterator's `next`.
    pub(crate) fn draw(&mut self) -> u32 {
        self.state = self
            .state
            .wrapping_mul(6364136223846793005)
            .wrapping_add(1442695040888963407);
        (self.state >> 48) as u32
    }
}
