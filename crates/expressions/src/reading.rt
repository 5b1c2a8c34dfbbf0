// Expressions read in an algebra.
ghost use Rattle.std.specs.Prelude.{◌≡◌, ◌<◌, ◌≤◌, true, ◌++◌, length, drop, slice_index_or};
ghost use Rattle.kleene.specs.Algebras.{everywhere};
ghost use Rattle.expressions.specs.Layout.{each, well_formed};
ghost use Rattle.expressions.specs.Meanings.{value_of, values, Readable, names_below};

use crate::{Kind, Record};
use kleene::Algebra;

// The value of one record, from the values of the records before it.
fn value<A: Algebra>(
    algebra: &A,
    weights: &[A::Value],
    entry: Record,
    memo: &[A::Value],
) -> A::Value
    requires { Readable (length weights.now) (length memo.now) entry }
    ensures { result ≡ value_of (everywhere (A.meaning algebra.now)) (λ j. slice_index_or weights.now j (everywhere (A.meaning algebra.now)).zero) memo.now entry }
{
    let (left, right) = (entry.left as usize, entry.right as usize);
    match Kind::try_from(entry.kind) {
        Ok(Kind::Stay) => algebra.one(),
        Ok(Kind::Step) => weights[left],
        Ok(Kind::Sum) => algebra.sum(memo[left], memo[right]),
        Ok(Kind::Then) => algebra.product(memo[left], memo[right]),
        Ok(Kind::Repeat) => algebra.star(memo[left]),
        Ok(Kind::Nothing) | Err(_) => algebra.zero(),
    }
}

// Writes the reading of each record into the memo at the record's number.
pub fn read<A: Algebra>(
    algebra: &A,
    weights: &[A::Value],
    records: &[Record],
    memo: &mut [A::Value],
)
    requires formed { each well_formed 0 records.now ≡ true }
    requires named { each (names_below (length weights.now)) 0 records.now ≡ true }
    requires room { length records.now ≤ length memo.old }
    ensures { memo.new ≡ values (everywhere (A.meaning algebra.now)) (λ j. slice_index_or weights.now j (everywhere (A.meaning algebra.now)).zero) records.now ++ drop (length records.now) memo.old }
{
    for (i, entry) in records.iter().enumerate() {
        memo[i] = value(algebra, weights, *entry, memo);
    }
}
