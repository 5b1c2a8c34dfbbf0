// A row is traced in the buffers of a network, and what was made is counted.
ghost use Rattle.std.specs.Prelude.{◌≡◌, ℕ, ◌^◌, ◌<◌, ◌≤◌, true, ◌++◌, map, length, drop, slice_index_or};
ghost use Rattle.kleene.specs.Algebras.{everywhere};
ghost use Rattle.refusals.specs.Refused.{outcome};
ghost use Rattle.elimination.specs.Moves.{below, put, tracing};
ghost use Rattle.expressions.specs.Stores.{contents, Lent, Extends};
ghost use Rattle.expressions.specs.Layout.{each, well_formed};
ghost use Rattle.expressions.specs.Meanings.{values, names_below};
ghost use Rattle.network.specs.Plans.{planned};
ghost use Rattle.network.specs.Seals.{steps_sound};
ghost use Rattle.planning.specs.Drawn.{drawn};
ghost use Rattle.planning.specs.Running.{Ran, run_moves};
ghost use Rattle.planning.specs.Tables.{row_of};
ghost use Rattle.engine.specs.Passing.{Undamaged};
ghost use Rattle.engine.specs.Querying.{weight_in};
ghost use Rattle.engine.specs.Rows.{NamesInUse, row_seen};
ghost use Rattle.engine.specs.Tracking.{tracked_by, ran_from};

use crate::tracer::Tracer;
use expressions::{Record, Step, Store};
use kleene::Algebra;
use network::{Plan, Sealed};
use planning::Row;
use refusals::Refusal;

// What a tracer will hold comes one by one, as the call's own buffers: a struct for these three would only be taken apart again.

// The row of a source, traced in a store.
fn trace_in(store: &mut Store, plan: &Plan, steps: &[Step], source: usize) -> Result<Row, Refusal>
    requires named { NamesInUse (planned plan.now) store.old.count }
    requires held { length steps.now < 2 ^ 32 }
    requires joined { steps_sound (planned plan.now).formats steps.now ≡ true }
    requires source { source < (planned plan.now).formats }
    ensures run { ◌≡◌ {A = Ran (ℕ → ℕ)} (row_seen result (contents store.new)) (run_moves (planned plan.now).table (contents store.old) (put source 1 (λ _. 0)) (tracing (drawn (planned plan.now).formats steps.now) (planned plan.now).components (planned plan.now).component)) }
    ensures kept { Extends store.old store.new }
{
    let row = Row::from_source(source);
    let mut tracer = Tracer {
        store,
        row,
        plan,
        steps,
    };
    tracer.trace()?;
    Ok(tracer.row)
}

// The same in a network's store; the network counts the records that were made, also where the store is full.
fn track_in(
    store: &mut Store,
    sealed: &mut Sealed,
    plan: &Plan,
    steps: &[Step],
    source: usize,
) -> Result<Row, Refusal>
    requires counted { store.old.count ≡ sealed.old.records }
    requires held { length steps.now < 2 ^ 32 }
    requires undamaged { Undamaged sealed.old steps.now store.old.records.now store.old.heads.now (planned plan.now) }
    requires source { source < sealed.old.formats }
    ensures tracked { record { answer = outcome row_of result; state = sealed.new; records = store.new.records.now; heads = store.new.heads.now } ≡ tracked_by sealed.old (ran_from sealed.old steps.now store.old.records.now store.old.heads.now (planned plan.now) source) }
    ensures lent { Lent store.new store.old }
{
    let traced = trace_in(store, plan, steps, source);
    sealed.count_records(store.count);
    traced
}

// The same in the buffers that are lent for it.
pub(crate) fn track<'b>(
    sealed: &mut Sealed,
    steps: &[Step],
    records: &'b mut [Record],
    heads: &'b mut [u32],
    plan: &Plan,
    source: usize,
) -> Result<Row, Refusal>
    requires held { length steps.now < 2 ^ 32 }
    requires records { sealed.old.records ≤ length records.old }
    requires heads { 1024 ≤ length heads.old }
    requires undamaged { Undamaged sealed.old steps.now records.old heads.old (planned plan.now) }
    requires source { source < sealed.old.formats }
    ensures { record { answer = outcome row_of result; state = sealed.new; records = records.new; heads = heads.new } ≡ tracked_by sealed.old (ran_from sealed.old steps.now records.old heads.old (planned plan.now) source) }
{
    let (_, count) = sealed.size();
    let mut store = Store {
        records,
        heads,
        count,
    };
    track_in(&mut store, sealed, plan, steps, source)
}

// Writes what f gives of each place.
fn fill<V: Copy, F: Fn(usize) -> V>(places: &mut [V], f: F)
    requires callable { (t : ℕ) → t < length places.old → F.pre f t }
    ensures { (g : ℕ → V) → ((t : ℕ) (x : V) → t < length places.old → F.post f t x → x ≡ g t) → places.new ≡ map g (below (length places.old)) }
{
    for (t, place) in places.iter_mut().enumerate() {
        *place = f(t);
    }
}

// Writes the first entries of a traced row, one in each place.
pub(crate) fn write_row(traced: &Row, row: &mut [u32])
    ensures { row.new ≡ map (row_of traced.now) (below (length row.old)) }
{
    fill(row, |t| traced.get(t));
}

// Writes what the first entries of a traced row are read as, one in each place.
fn write_answers<V: Copy>(traced: &Row, memo: &[V], answers: &mut [V])
    requires { (t : ℕ) → row_of traced.now t < length memo.now }
    ensures { (d : V) → answers.new ≡ map (λ t. slice_index_or memo.now (row_of traced.now t) d) (below (length answers.old)) }
{
    fill(answers, |t| memo[traced.get(t) as usize]);
}

// Reads the records into the memo, and the first entries of a traced row into the answers.
pub(crate) fn answer<A: Algebra>(
    algebra: &A,
    weights: &[A::Value],
    records: &[Record],
    traced: &Row,
    memo: &mut [A::Value],
    answers: &mut [A::Value],
)
    requires formed { each well_formed 0 records.now ≡ true }
    requires named { each (names_below (length weights.now)) 0 records.now ≡ true }
    requires row { (t : ℕ) → row_of traced.now t < length records.now }
    requires memo { length records.now ≤ length memo.old }
    ensures memo { memo.new ≡ values (everywhere (A.meaning algebra.now)) (weight_in (A.meaning algebra.now) weights.now) records.now ++ drop (length records.now) memo.old }
    ensures answers { answers.new ≡ map (λ t. slice_index_or memo.new (row_of traced.now t) (A.meaning algebra.now).on.zero) (below (length answers.old)) }
{
    expressions::read(algebra, weights, records, memo);
    write_answers(traced, memo, answers);
}
