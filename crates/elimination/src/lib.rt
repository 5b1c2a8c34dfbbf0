// Elimination on networks of formats: what it answers in every Kleene algebra, and in counts of routes.
//
// There is nothing to run here. Each function carries a theorem in its contract, so that the crates above can rest on it;
// docs/ELIMINATION.md tells the argument.
#![tactic(auto)]

ghost use Rattle.elimination.specs.Series.{counting};
ghost use Rattle.elimination.specs.Theorems.{SolvesAndLeast, LikeAgree, OnlyInForce, CountsInWords, EveryRouteOnce, AtMostOnce};

use kleene::Algebra;

// In every Kleene algebra: for every network and every order of its components, the row that elimination gives from a
// source solves the network's equations, and is at each format below every solution.
pub fn solves_and_least<A: Algebra>(algebra: &A)
    ensures { SolvesAndLeast (A.meaning algebra.now) }
{}

// In every Kleene algebra: like networks under equal weights give the same row.
pub fn like_networks_agree<A: Algebra>(algebra: &A)
    ensures { LikeAgree (A.meaning algebra.now) }
{}

// In every Kleene algebra: the row depends on the weights of the steps in force alone.
pub fn only_steps_in_force<A: Algebra>(algebra: &A)
    ensures { OnlyInForce (A.meaning algebra.now).on }
{}

// Counts of ways: a product and a star are the sums over cuts that their words say.
pub fn counts_in_words()
    ensures { CountsInWords }
{}

// The row at a format spells every route from the source to it in exactly one way, and no other list of steps.
pub fn every_route_once()
    ensures { EveryRouteOnce }
{}

// No value of the table or of the row, at any stage of the run, spells a list of steps in more than one way.
pub fn at_most_once()
    ensures { AtMostOnce }
{}
