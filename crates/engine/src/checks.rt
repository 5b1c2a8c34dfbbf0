// The checks of the calls on a sealed network.
ghost use Rattle.std.specs.Prelude.{◌≡◌, ℕ, ◌<◌, ◌≤◌, not, ◌&&◌, length, take, OnOk};
ghost use Rattle.refusals.specs.Refused.{outcome};
ghost use Rattle.network.specs.Plans.{planned};
ghost use Rattle.engine.specs.Checks.{long_enough, long_too, undamaged, known, first_unweighed, weighed};
ghost use Rattle.engine.specs.Passing.{Long, LongToo, Undamaged};
ghost use Rattle.engine.specs.Querying.{member_in};

use expressions::{CHAINS, MOST_RECORDS, Record, Step};
use kleene::Algebra;
use network::{Plan, Sealed};
use refusals::{Buffer, Refusal};

// The checks take the buffers one by one, as they come to the calls: a struct for them would be made only to be taken apart here.

// Whether the buffers of a trace are long enough.
pub(crate) fn long_enough(
    sealed: &Sealed,
    steps: &[Step],
    records: &[Record],
    heads: &[u32],
    row: &[u32],
) -> Result<(), Refusal>
    ensures value { outcome (λ u. u) result ≡ long_enough sealed.now (length steps.now) (length records.now) (length heads.now) (length row.now) }
    ensures begun { 2 ≤ sealed.now.records }
    ensures within { sealed.now.records ≤ 131072 }
    ensures passed { OnOk result (Long sealed.now (length steps.now) (length records.now) (length heads.now) (length row.now)) }
{
    let (_, count) = sealed.size();
    if steps.len() < sealed.step_count() {
        Err(Refusal::TooShort(Buffer::Steps))
    } else if records.len() < count {
        Err(Refusal::TooShort(Buffer::Records))
    } else if heads.len() < CHAINS {
        Err(Refusal::TooShort(Buffer::Heads))
    } else if row.len() < sealed.formats() {
        Err(Refusal::TooShort(Buffer::Row))
    } else {
        Ok(())
    }
}

// Whether the buffers that a query brings besides, of these lengths, are long enough; the memo has a place for every record that
// the store may use.
pub(crate) fn long_too(
    sealed: &Sealed,
    records: usize,
    weights: usize,
    memo: usize,
    answers: usize,
) -> Result<(), Refusal>
    ensures value { outcome (λ u. u) result ≡ long_too sealed.now records weights memo answers }
    ensures passed { OnOk result (LongToo sealed.now records weights memo answers) }
{
    if weights < sealed.step_count() {
        Err(Refusal::TooShort(Buffer::Weights))
    } else if memo < records.min(MOST_RECORDS) {
        Err(Refusal::TooShort(Buffer::Memo))
    } else if answers < sealed.formats() {
        Err(Refusal::TooShort(Buffer::Answers))
    } else {
        Ok(())
    }
}

// Whether the steps, the records, the heads and the plan are undamaged.
pub(crate) fn undamaged(
    sealed: &Sealed,
    steps: &[Step],
    records: &[Record],
    heads: &[u32],
    plan: &Plan,
) -> Result<(), Refusal>
    requires steps { sealed.now.steps ≤ length steps.now }
    requires records { sealed.now.records ≤ length records.now }
    requires heads { 1024 ≤ length heads.now }
    ensures value { outcome (λ u. u) result ≡ undamaged sealed.now steps.now records.now heads.now (planned plan.now) }
    ensures passed { OnOk result (Undamaged sealed.now (take sealed.now.steps steps.now) records.now heads.now (planned plan.now)) }
{
    let (_, count) = sealed.size();
    let formats = sealed.formats();
    let added = &steps[..sealed.step_count()];
    if !network::steps_sound(formats, added) {
        Err(Refusal::Damaged(Buffer::Steps))
    } else if !expressions::records_sound(added, &records[..count]) {
        Err(Refusal::Damaged(Buffer::Records))
    } else if !expressions::heads_sound(count, &heads[..CHAINS]) {
        Err(Refusal::Damaged(Buffer::Heads))
    } else if !plan.is_sound(formats, count) {
        Err(Refusal::Damaged(Buffer::Plan))
    } else {
        Ok(())
    }
}

// Whether the source is a format.
pub(crate) fn known(sealed: &Sealed, source: usize) -> Result<(), Refusal>
    ensures value { outcome (λ u. u) result ≡ known sealed.now source }
    ensures passed { OnOk result (source < sealed.now.formats) }
{
    if source < sealed.formats() {
        Ok(())
    } else {
        Err(Refusal::NoSuchFormat)
    }
}

// Whether a step is in force and its weight is no member of the algebra.
fn unweighed<A: Algebra>(algebra: &A, step: Step, weight: A::Value) -> bool
    ensures { result ≡ (step.in_force && not ((A.meaning algebra.now).member weight)) }
{
    step.in_force && !algebra.is_member(weight)
}

// The first such step.
fn first_unweighed<A: Algebra>(algebra: &A, added: &[Step], weights: &[A::Value]) -> Option<usize>
    requires { length added.now ≤ length weights.now }
    ensures { result ≡ first_unweighed added.now (member_in (A.meaning algebra.now) weights.now) }
{
    added
        .iter()
        .zip(weights)
        .position(|(step, weight)| unweighed(algebra, *step, *weight))
}

// Whether the weight of each step in force is a member of the algebra.
pub(crate) fn weighed<A: Algebra>(
    algebra: &A,
    added: &[Step],
    weights: &[A::Value],
) -> Result<(), Refusal>
    requires { length added.now ≤ length weights.now }
    ensures { outcome (λ u. u) result ≡ weighed added.now (member_in (A.meaning algebra.now) weights.now) }
{
    match first_unweighed(algebra, added, weights) {
        Some(j) => Err(Refusal::NotAMember(j)),
        None => Ok(()),
    }
}
