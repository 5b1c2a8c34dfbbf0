// Numbers as sets of the places where their binary digits are 1.
#![tactic(auto)]

ghost use Rattle.std.specs.Iterator.{YieldsFirst, item_count};
ghost use Rattle.bits.specs.Bits.{places};

// The places of the bits of this number that are 1, rising.
#[derive(Clone, Copy, Debug)]
pub struct Ones(pub u64);

impl Iterator for Ones {
    type Item = u32;

    ghost next_gives = { YieldsFirst (λ s. places 64 s.0) };

    ghost remaining = { item_count (λ s. places 64 s.0) };

    fn next(&mut self) -> Option<u32> {
        if self.0 == 0 {
            return None;
        }
        let lowest = self.0.trailing_zeros();
        self.0 &= self.0 - 1;
        Some(lowest)
    }
}
