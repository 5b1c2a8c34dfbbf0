// What making an expression means. There is nothing to run here: each function carries a theorem in its contract.
ghost use Rattle.expressions.specs.Laws.{ReadingMeans, WaysMean};

use kleene::Algebra;

// In every Kleene algebra: making a sum, a then or a repeat means the sum, product or star of what the parts mean, and no
// meaning changes as the store grows.
pub fn readings_mean<A: Algebra>(algebra: &A)
    ensures { ReadingMeans (A.meaning algebra.now) }
{}

// The same in counts of ways, where an expression that is added to itself spells nothing.
pub fn ways_mean()
    ensures { WaysMean }
{}
