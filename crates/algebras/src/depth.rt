// The bit depth that survives.
ghost use Rattle.algebras.specs.Formulas.{depth_meaning};
ghost use Rattle.std.proofs.Common.{rules};

use kleene::Algebra;

#[derive(Clone, Copy)]
pub struct Depth;

impl Algebra for Depth {
    type Value = u8;

    ghost meaning = { λ _. depth_meaning };

    ghost kleene = { Prim.search rules };

    fn is_member(&self, _a: u8) -> bool {
        true
    }

    fn zero(&self) -> u8 {
        0
    }

    fn one(&self) -> u8 {
        u8::MAX
    }

    fn sum(&self, a: u8, b: u8) -> u8 {
        a.max(b)
    }

    fn product(&self, a: u8, b: u8) -> u8 {
        a.min(b)
    }

    fn star(&self, _a: u8) -> u8 {
        self.one()
    }
}
