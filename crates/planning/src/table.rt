// The table of a plan while it is worked out: for each two formats of a component the expression from one to the other.
ghost use Rattle.std.specs.Prelude.{◌≡◌, ℕ, ◌<◌, length, slice_index_or};
ghost use Rattle.planning.specs.Tables.{no_row, table_of};

use crate::rows::Row;
use expressions::Store;

// A store of expressions, and a row for each of 32 formats, whose every entry is in use there.
#[derive(Drop)]
pub struct Table<'t, 'a> {
    pub store: &'t mut Store<'a>,
    pub rows: [Row; 32],
    pub ghost places: { length rows ≡ 32 },
    pub ghost wide: { (u : ℕ) → u < 32 → length (slice_index_or rows u no_row).at ≡ 32 },
    pub ghost in_use: { (u w : ℕ) → u < 32 → table_of rows u w < store.now.count },
}
