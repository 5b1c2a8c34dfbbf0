// The cheapest route, in render seconds.
ghost use Rattle.algebras.specs.Formulas.{cost_meaning};
ghost use Rattle.std.proofs.Common.{rules};

use kleene::Algebra;

#[derive(Clone, Copy)]
pub struct Cost;

impl Algebra for Cost {
    type Value = u32;

    ghost meaning = { λ _. cost_meaning };

    ghost kleene = { Prim.search rules };

    fn is_member(&self, _a: u32) -> bool {
        true
    }

    fn zero(&self) -> u32 {
        u32::MAX
    }

    fn one(&self) -> u32 {
        0
    }

    fn sum(&self, a: u32, b: u32) -> u32 {
        a.min(b)
    }

    fn product(&self, a: u32, b: u32) -> u32 {
        a.saturating_add(b)
    }

    fn star(&self, _a: u32) -> u32 {
        self.one()
    }
}
