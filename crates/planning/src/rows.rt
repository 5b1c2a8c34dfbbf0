// A row of the table, and the moves that change it.
ghost use Rattle.std.specs.Prelude.{◌≡◌, ℕ, ◌<◌, ◌≤◌, length, replicate};
ghost use Rattle.elimination.specs.Moves.{put, scale, pass};
ghost use Rattle.expressions.specs.Stores.{contents, Extends};
ghost use Rattle.planning.specs.Running.{Ran, seen, move_in};
ghost use Rattle.planning.specs.Tables.{row_of, written, RowFits};

use expressions::{STAY, Store};
use refusals::Refusal;

// The expressions from one format to each of the 32.
#[derive(Clone, Copy)]
pub struct Row {
    at: [u32; 32],
}

impl Row {
    // Nothing at every place.
    pub fn empty() -> Row
        ensures { result ≡ record { at = replicate 32 0 } }
    {
        Row { at: [0; 32] }
    }

    // Stay at the source, nothing elsewhere.
    pub fn from_source(source: usize) -> Row
        requires { source < 32 }
        ensures row { row_of result ≡ put source 1 (λ _. 0) }
        ensures fits { RowFits 2 result }
    {
        let mut row = Row::empty();
        row.write(source, STAY);
        row
    }

    // The entry at w, past the 32 places nothing: no route leads there.
    pub fn get(&self, w: usize) -> u32
        ensures { result ≡ row_of self.now w }
    {
        self.at.get(w).copied().unwrap_or(0)
    }

    // The entry at w becomes x.
    pub(crate) fn write(&mut self, w: usize, x: u32)
        requires { w < length self.old.at }
        ensures { self.new ≡ written self.old w x }
    {
        self.at[w] = x;
    }

    // R(v) becomes R(v) and then what is closed at v.
    pub fn scale(&mut self, store: &mut Store, v: usize, closed: u32) -> Result<(), Refusal>
        requires fits { RowFits store.old.count self.old }
        requires place { v < 32 }
        requires part { closed < store.old.count }
        ensures moved { ◌≡◌ {A = Ran (ℕ → ℕ)} (seen result (contents store.new) (row_of self.new)) (move_in (λ _ _. closed) (contents store.old) (row_of self.old) (scale v)) }
        ensures fits { RowFits store.new.count self.new }
        ensures kept { Extends store.old store.new }
    {
        self.at[v] = store.then(self.at[v], closed)?;
        Ok(())
    }

    // R(w) becomes R(w), or R(v) and then what leads from v to w.
    pub fn pass(&mut self, store: &mut Store, v: usize, w: usize, leads: u32) -> Result<(), Refusal>
        requires fits { RowFits store.old.count self.old }
        requires from { v < 32 }
        requires to { w < 32 }
        requires part { leads < store.old.count }
        ensures moved { ◌≡◌ {A = Ran (ℕ → ℕ)} (seen result (contents store.new) (row_of self.new)) (move_in (λ _ _. leads) (contents store.old) (row_of self.old) (pass v w)) }
        ensures fits { RowFits store.new.count self.new }
        ensures kept { Extends store.old store.new }
    {
        let carried = store.then(self.at[v], leads)?;
        self.at[w] = store.sum(self.at[w], carried)?;
        Ok(())
    }
}
