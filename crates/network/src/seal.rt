// Sealing a network: its components are listed, and the expressions inside each are worked out.
ghost use Rattle.std.specs.Prelude.{◌≡◌, ℕ, ◌≤◌, true, length, take, IfOk, OnOk};
ghost use Rattle.refusals.specs.Refused.{Outcome, outcome};
ghost use Rattle.expressions.specs.Stores.{contents, Lent};
ghost use Rattle.planning.specs.Drawn.{drawn};
ghost use Rattle.network.specs.Plans.{planned};
ghost use Rattle.network.specs.Seals.{steps_sound, sealable, Worked, worked_from, worked_out, works, seals, sealed_to, PlannedFor};

use crate::{Draft, NotSealed, Plan, Sealed};
use expressions::{CHAINS, Record, Step, Store};
use planning::{Row, Table};
use refusals::{Buffer, Refusal};

// Buffers travel one by one here, as a call is lent them: a struct for them would only be taken apart again.

// The fewest records that a store has: nothing and stay.
const FEWEST_RECORDS: usize = 2;

// Whether each step ends at formats.
pub fn steps_sound(formats: usize, steps: &[Step]) -> bool
    ensures { result ≡ steps_sound formats steps.now }
{
    steps.iter().all(|step| (step.from as usize) < formats && (step.to as usize) < formats)
}

// Works out the plan of a network in a store that is clear, and answers the components and the records.
fn plan_in(
    store: &mut Store,
    formats: u32,
    steps: &[Step],
    plan: &mut Plan,
) -> Result<(usize, usize), Refusal>
    requires few { formats ≤ 32 }
    requires held { length steps.now ≤ 256 }
    requires sound { steps_sound formats steps.now ≡ true }
    ensures worked { record { answer = outcome (λ size. size) result; records = store.new.records.now; heads = store.new.heads.now; plan = planned plan.new } ≡ worked_from (contents store.old) (drawn formats steps.now) (planned plan.old) }
    ensures planned { OnOk result (PlannedFor (drawn formats steps.now) (planned plan.new)) }
    ensures counts { IfOk result (λ size. (2 ≤ size.1) × (size.1 ≤ 131072)) }
    ensures lent { Lent store.new store.old }
{
    let n = formats as usize;
    let components = planning::list(n, steps);
    let order = planning::order(n, &components);
    let mut table = Table {
        store,
        rows: [Row::empty(); 32],
    };
    table.tabulate(steps, &components, &order[..n])?;
    let records = table.store.count;
    *plan = Plan {
        formats,
        components: components.count,
        records,
        order,
        component: components.of,
        rows: table.rows,
    };
    Ok((components.count, records))
}

impl Draft {
    // The steps that were added, or why this draft cannot be sealed in these buffers.
    fn checked<'a>(
        &self,
        steps: &'a [Step],
        records: &[Record],
        heads: &[u32],
    ) -> Result<&'a [Step], Refusal>
        ensures value { outcome (λ x. x.now) result ≡ sealable self.now steps.now records.now heads.now }
        ensures taken { IfOk result (λ added. added.now ≡ take self.now.steps steps.now) }
    {
        if steps.len() < self.steps {
            return Err(Refusal::TooShort(Buffer::Steps));
        }
        if records.len() < FEWEST_RECORDS {
            return Err(Refusal::TooShort(Buffer::Records));
        }
        if heads.len() < CHAINS {
            return Err(Refusal::TooShort(Buffer::Heads));
        }
        let added = &steps[..self.steps];
        if steps_sound(self.formats as usize, added) {
            Ok(added)
        } else {
            Err(Refusal::Damaged(Buffer::Steps))
        }
    }

    // The components and the records of the plan that is worked out for this draft, or why it cannot be sealed.
    fn sized(
        &self,
        steps: &[Step],
        records: &mut [Record],
        heads: &mut [u32],
        plan: &mut Plan,
    ) -> Result<(usize, usize), Refusal>
        ensures worked { record { answer = outcome (λ size. size) result; records = records.new; heads = heads.new; plan = planned plan.new } ≡ works self.now steps.now records.old heads.old (planned plan.old) }
        ensures planned { OnOk result (PlannedFor (drawn self.now.formats (take self.now.steps steps.now)) (planned plan.new)) }
        ensures counts { IfOk result (λ size. (2 ≤ size.1) × (size.1 ≤ 131072)) }
    {
        let added = self.checked(steps, records, heads)?;
        let mut store = Store::cleared(records, heads);
        plan_in(&mut store, self.formats, added, plan)
    }

    // Turns the draft into a sealed network whose plan is worked out, or gives it back.
    pub fn seal(
        self,
        steps: &[Step],
        records: &mut [Record],
        heads: &mut [u32],
        plan: &mut Plan,
    ) -> Result<Sealed, NotSealed>
        ensures settled { sealed_to result records.new heads.new (planned plan.new) ≡ seals self steps.now records.old heads.old (planned plan.old) }
        ensures planned { OnOk result (PlannedFor (drawn self.formats (take self.steps steps.now)) (planned plan.new)) }
    {
        match self.sized(steps, records, heads, plan) {
            Ok((components, records)) => Ok(Sealed {
                formats: self.formats,
                steps: self.steps,
                components,
                records,
            }),
            Err(refusal) => Err(NotSealed {
                draft: self,
                refusal,
            }),
        }
    }
}
