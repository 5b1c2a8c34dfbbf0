// The algebra of cadence phases.
ghost use Rattle.std.specs.Prelude.{◌≡◌, ◌≤◌};
ghost use Rattle.refusals.specs.Refused.{outcome};
ghost use Rattle.algebras.specs.Phases.{phase_meaning, modulus_outcome};
ghost use Rattle.algebras.specs.PhasesLemmas.{phase_laws};

use bits::Ones;
use kleene::Algebra;
use refusals::Refusal;

mod sets;

// Sets of cadence phases below a modulus, a set being a number with bit i for phase i.
#[derive(Clone, Copy)]
pub struct Phase {
    modulus: u32,
    ghost low: { 1 ≤ modulus },
    ghost high: { modulus ≤ 60 },
}

impl Phase {
    // The algebra of phases to this modulus, which is 1 to 60.
    pub fn new(modulus: u64) -> Result<Phase, Refusal>
        ensures { outcome (λ p. p.modulus) result ≡ modulus_outcome modulus }
    {
        match modulus {
            1..=60 => Ok(Phase {
                modulus: modulus as u32,
            }),
            _ => Err(Refusal::ModulusRange),
        }
    }

    // The modulus that it was made with.
    pub fn modulus(&self) -> u32
        ensures { result ≡ self.now.modulus }
    {
        self.modulus
    }
}

impl Algebra for Phase {
    type Value = u64;

    ghost meaning = { λ s. phase_meaning s.modulus };

    ghost kleene = { λ s. phase_laws s.modulus s.low };

    fn is_member(&self, a: u64) -> bool {
        a <= self.mask()
    }

    fn zero(&self) -> u64 {
        0
    }

    fn one(&self) -> u64 {
        1
    }

    fn sum(&self, a: u64, b: u64) -> u64 {
        self.operand(a) | self.operand(b)
    }

    fn product(&self, a: u64, b: u64) -> u64 {
        let second = self.operand(b);
        let mut out = 0;
        for i in Ones(self.operand(a)) {
            out |= self.turned(second, i);
        }
        out
    }

    fn star(&self, a: u64) -> u64 {
        self.multiples(self.gcd_with(a))
    }
}
