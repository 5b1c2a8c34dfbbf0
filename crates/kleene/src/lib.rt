// The interface through which path expressions are read, and what follows from its laws.
#![tactic(auto)]

ghost use Rattle.std.specs.Prelude.{◌≡◌};
ghost use Rattle.kleene.specs.Algebras.{Meaning, Kleene, taken, everywhere};
ghost use Rattle.kleene.specs.Chains.{comes_to, Joins};

// A Kleene algebra. An implementation is a value, so that it can hold a parameter such as a modulus.
//
// Its meaning is a set of members with five operations that keep the laws of a Kleene algebra. The functions give these
// operations, refuse nothing, and take an operand that is no member as zero.
pub trait Algebra {
    type Value: Copy;

    ghost meaning: { Self → Meaning Self.Value };

    fn is_member(&self, a: Self::Value) -> bool
        ensures { result ≡ (meaning self.now).member a };

    fn zero(&self) -> Self::Value
        ensures { result ≡ (everywhere (meaning self.now)).zero };

    fn one(&self) -> Self::Value
        ensures { result ≡ (everywhere (meaning self.now)).one };

    fn sum(&self, a: Self::Value, b: Self::Value) -> Self::Value
        ensures { result ≡ (everywhere (meaning self.now)).sum a b };

    fn product(&self, a: Self::Value, b: Self::Value) -> Self::Value
        ensures { result ≡ (everywhere (meaning self.now)).product a b };

    fn star(&self, a: Self::Value) -> Self::Value
        ensures { result ≡ (everywhere (meaning self.now)).star a };

    // The operand that this value counts as: zero where it is no member.
    fn operand(&self, a: Self::Value) -> Self::Value
        ensures { result ≡ taken (meaning self.now) a }
    {
        if self.is_member(a) { a } else { self.zero() }
    }

    ghost kleene: { (s : Self) → Kleene (meaning s) };
}

// What a chain of steps with these weights, taken in this order, comes to: the product of the weights, one for the
// empty chain.
pub fn chain<A: Algebra>(algebra: &A, weights: &[A::Value]) -> A::Value
    ensures value { result ≡ comes_to (everywhere (A.meaning algebra.now)) weights.now }
    ensures joins { Joins (everywhere (A.meaning algebra.now)) weights.now result }
{
    weights
        .iter()
        .fold(algebra.one(), |so_far, w| algebra.product(so_far, *w))
}
