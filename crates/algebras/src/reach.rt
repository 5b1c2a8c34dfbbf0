// Whether there is a route at all.
ghost use Rattle.algebras.specs.Formulas.{reach_meaning};
ghost use Rattle.std.proofs.Common.{rules};

use kleene::Algebra;

#[derive(Clone, Copy)]
pub struct Reach;

impl Algebra for Reach {
    type Value = bool;

    ghost meaning = { λ _. reach_meaning };

    ghost kleene = { Prim.search rules };

    fn is_member(&self, _a: bool) -> bool {
        true
    }

    fn zero(&self) -> bool {
        false
    }

    fn one(&self) -> bool {
        true
    }

    fn sum(&self, a: bool, b: bool) -> bool {
        a | b
    }

    fn product(&self, a: bool, b: bool) -> bool {
        a & b
    }

    fn star(&self, _a: bool) -> bool {
        self.one()
    }
}
