// A row that is traced through a network, in a store with a plan and steps.
ghost use Rattle.std.specs.Prelude.{◌≡◌, ℕ, ◌^◌, ◌<◌, true, length};
ghost use Rattle.network.specs.Plans.{planned};
ghost use Rattle.network.specs.Seals.{steps_sound};
ghost use Rattle.planning.specs.Tables.{row_of};

use expressions::{Step, Store};
use network::Plan;
use planning::Row;

// The row, the store in which its expressions are made, the plan by which it is traced, and the steps that were added. The row
// and the plan name records in use, and the steps join formats of the plan.
#[derive(Drop)]
pub(crate) struct Tracer<'t, 's, 'a> {
    pub(crate) store: &'t mut Store<'s>,
    pub(crate) row: Row,
    pub(crate) plan: &'a Plan,
    pub(crate) steps: &'a [Step],
    ghost places: { length row.at ≡ 32 },
    ghost in_use: { (w : ℕ) → row_of row w < store.now.count },
    ghost named: { (u w : ℕ) → u < (planned plan.now).formats → w < (planned plan.now).formats → (planned plan.now).table u w < store.now.count },
    ghost held: { length steps.now < 2 ^ 32 },
    ghost joined: { steps_sound (planned plan.now).formats steps.now ≡ true },
}
