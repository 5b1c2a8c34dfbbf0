// The calls on a sealed network: tracing it from a format, and querying it in an algebra.
ghost use Rattle.std.specs.Prelude.{◌≡◌, ◌≤◌, length, OnOk};
ghost use Rattle.refusals.specs.Refused.{outcome};
ghost use Rattle.network.specs.Plans.{planned};
ghost use Rattle.engine.specs.Tracking.{TraceAfter, traces};
ghost use Rattle.engine.specs.Promises.{sealed_world, RoutesInEveryHistory, InEveryHistory, RetiredUnseen};
ghost use Rattle.engine.specs.Querying.{QueryAfter, queries};

use crate::checks::{known, long_enough, long_too, undamaged, weighed};
use crate::tracks::{answer, track, write_row};
use expressions::{Record, Step};
use kleene::Algebra;
use network::{Plan, Sealed};
use refusals::Refusal;

// Both take the buffers one by one, and not in a struct, so that a contract names what each holds at exit.

// Traces the network from a source: the row then holds, for each format, the expression of the routes from the source to it.
pub fn trace(
    sealed: &mut Sealed,
    steps: &[Step],
    records: &mut [Record],
    heads: &mut [u32],
    row: &mut [u32],
    plan: &Plan,
    source: usize,
) -> Result<(), Refusal>
    ensures after { record { answer = outcome (λ u. u) result; state = sealed.new; records = records.new; heads = heads.new; row = row.new } ≡ traces sealed.old steps.now records.old heads.old row.old (planned plan.now) source }
    ensures routes { OnOk result (RoutesInEveryHistory (sealed_world sealed.old steps.now records.old heads.old (planned plan.now)) source (record { records = records.new; heads = heads.new; count = sealed.new.records }) row.new) }
{
    long_enough(sealed, steps, records, heads, row)?;
    undamaged(sealed, steps, records, heads, plan)?;
    known(sealed, source)?;
    let formats = sealed.formats();
    let traced = track(
        sealed,
        &steps[..sealed.step_count()],
        records,
        heads,
        plan,
        source,
    )?;
    write_row(&traced, &mut row[..formats]);
    Ok(())
}

// Queries the network in an algebra: traces it from a source, reads every expression of the store into the memo, and answers for each
// format what the routes from the source to it come to.
pub fn query<A: Algebra>(
    algebra: &A,
    sealed: &mut Sealed,
    steps: &[Step],
    records: &mut [Record],
    heads: &mut [u32],
    row: &mut [u32],
    weights: &[A::Value],
    memo: &mut [A::Value],
    answers: &mut [A::Value],
    plan: &Plan,
    source: usize,
) -> Result<(), Refusal>
    ensures after { record { answer = outcome (λ u. u) result; state = sealed.new; records = records.new; heads = heads.new; row = row.new; memo = memo.new; answers = answers.new } ≡ queries (A.meaning algebra.now) sealed.old steps.now records.old heads.old row.old weights.now memo.old answers.old (planned plan.now) source }
    ensures promises { OnOk result (InEveryHistory (A.meaning algebra.now) (sealed_world sealed.old steps.now records.old heads.old (planned plan.now)) source weights.now (record { records = records.new; heads = heads.new; count = sealed.new.records }) row.new answers.new) }
    ensures unseen { OnOk result (RetiredUnseen (A.meaning algebra.now) sealed.old steps.now records.old heads.old row.old weights.now memo.old answers.old (planned plan.now) source) }
{
    long_enough(sealed, steps, records, heads, row)?;
    long_too(
        sealed,
        records.len(),
        weights.len(),
        memo.len(),
        answers.len(),
    )?;
    undamaged(sealed, steps, records, heads, plan)?;
    known(sealed, source)?;
    let formats = sealed.formats();
    let added = &steps[..sealed.step_count()];
    weighed(algebra, added, weights)?;
    let traced = track(sealed, added, records, heads, plan, source)?;
    write_row(&traced, &mut row[..formats]);
    let (_, count) = sealed.size();
    answer(
        algebra,
        weights,
        &records[..count],
        &traced,
        memo,
        &mut answers[..formats],
    );
    Ok(())
}
