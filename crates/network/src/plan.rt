// What sealing works out once: the components of a network and their order, and the expressions inside each component.
ghost use Rattle.std.specs.Prelude.{◌≡◌, ℕ, ◌<◌, ◌≤◌, slice_index};
ghost use Rattle.planning.specs.Orders.{in_order, padded};
ghost use Rattle.planning.specs.Tables.{table_of};

use planning::Row;

// A plan for a network of so many formats, which names records of a store that has so many. A new plan has no formats.
//
// The order lists the formats of each component in turn, rising inside each: so each format stands there once, and those of a
// component together. Places past the formats hold 0. The rows have, for each two formats of a component, the
// expression from the one to the other, and all name records below the count that the plan carries.
#[derive(Drop)]
pub struct Plan {
    pub(crate) formats: u32,
    pub(crate) components: usize,
    pub(crate) records: usize,
    pub(crate) order: [u32; 32],
    pub(crate) component: [u32; 32],
    pub(crate) rows: [Row; 32],
    ghost few: { formats ≤ 32 },
    ghost bounded: { components ≤ 32 },
    ghost counted: { (v : ℕ) → v < formats → slice_index component v < components },
    ghost listed: { order ≡ padded (in_order formats components (λ v. slice_index component v)) },
    ghost in_use: { (u w : ℕ) → u < formats → w < formats → table_of rows u w < records },
}
