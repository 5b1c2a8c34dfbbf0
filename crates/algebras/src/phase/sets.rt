// What becomes of sets of phases, as numbers with bit i for phase i.
ghost use Rattle.std.specs.Prelude.{◌≡◌, ◌-◌, ◌^◌, ◌<◌, ◌≤◌};
ghost use Rattle.std.specs.Int.{IsGcd};
ghost use Rattle.kleene.specs.Algebras.{taken};
ghost use Rattle.bits.specs.Bits.{set_of};
ghost use Rattle.algebras.specs.Phases.{phase_meaning, divides, gcd_with, later};

use super::Phase;
use bits::Ones;
use kleene::Algebra;

// The greatest common divisor, by Euclid. The loop counts nothing by hand: each turn is the next remainder.
fn gcd(a: u32, b: u32) -> u32
    ensures { IsGcd a b result }
{
    let (mut x, mut y) = (a, b);
    while y != 0 {
        (x, y) = (y, x % y);
    }
    x
}

impl Phase {
    // Every phase below the modulus.
    pub(super) fn mask(&self) -> u64
        ensures { result ≡ 2 ^ self.now.modulus - 1 }
    {
        (1 << self.modulus) - 1
    }

    // The phases of b, each later by i, which wraps at the modulus.
    pub(super) fn turned(&self, b: u64, i: u32) -> u64
        requires { (b < 2 ^ self.now.modulus) × (i < self.now.modulus) }
        ensures { result ≡ later self.now.modulus b i }
    {
        ((b << i) | (b >> (self.modulus - i))) & self.mask()
    }

    // The greatest common divisor of the modulus and all phases of a, where it is a member.
    pub(super) fn gcd_with(&self, a: u64) -> u32
        ensures value { result ≡ gcd_with self.now.modulus (taken (phase_meaning self.now.modulus) a) }
        ensures low { 1 ≤ result }
        ensures high { result ≤ self.now.modulus }
    {
        Ones(self.operand(a)).fold(self.modulus, gcd)
    }

    // The multiples of g below the modulus: those below a multiple of g, and the same again from there on.
    pub(super) fn multiples(&self, g: u32) -> u64
        requires { 1 ≤ g }
        ensures { result ≡ set_of self.now.modulus (divides g) }
    {
        let mut out = 1;
        let mut span = g;
        while span < self.modulus {
            out |= out << span;
            span *= 2;
        }
        out & self.mask()
    }
}
