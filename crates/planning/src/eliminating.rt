// Elimination of the formats of one component from the table, whose steps are loaded first.
ghost use Rattle.std.specs.Prelude.{◌≡◌, ℕ, ◌^◌, ◌<◌, ◌≤◌, length, slice_index};
ghost use Rattle.elimination.specs.Moves.{put, load, close, at, scale, pass, for_each, below, eliminate, loads, sealing};
ghost use Rattle.elimination.specs.Networks.{Joined};
ghost use Rattle.planning.specs.Drawn.{drawn};
ghost use Rattle.planning.specs.Orders.{members_of, in_order};
ghost use Rattle.planning.specs.Eliminating.{Kept, came, by_act, by_acts};
ghost use Rattle.planning.specs.Running.{freeing};
ghost use Rattle.planning.specs.Tables.{table_of, Places};

use crate::components::Components;
use crate::listing::group;
use crate::table::Table;
use expressions::Step;
use refusals::Refusal;

// Formats are plain numbers here, as the lists of a plan hold them: so a method bounds those that it is given, as for an index.
impl Table<'_, '_> {
    // What leads from u to w.
    fn entry(&self, u: usize, w: usize) -> u32
        requires { u < 32 }
        ensures { result ≡ table_of self.now.rows u w }
    {
        self.rows[u].get(w)
    }

    // What leads from u to w becomes x.
    fn write(&mut self, u: usize, w: usize, x: u32)
        requires row { u < 32 }
        requires place { w < 32 }
        requires part { x < self.old.store.now.count }
        ensures rows { table_of self.new.rows ≡ put u (put w x (table_of self.old.rows u)) (table_of self.old.rows) }
        ensures store { self.new.store.now ≡ self.old.store.now }
        ensures same { self.new.store.ghost_name ≡ self.old.store.ghost_name }
    {
        self.rows[u].write(w, x);
    }

    // What leads from v to v becomes itself any number of times.
    fn close(&mut self, v: usize) -> Result<(), Refusal>
        requires { v < 32 }
        ensures run { came result self.new ≡ by_act self.old (close v) }
        ensures kept { Kept self.old self.new }
    {
        let leads = self.entry(v, v);
        let closed = self.store.repeat(leads)?;
        self.write(v, v, closed);
        Ok(())
    }

    // Row u is scaled by v.
    fn scale(&mut self, u: usize, v: usize) -> Result<(), Refusal>
        requires row { u < 32 }
        requires from { v < 32 }
        ensures run { came result self.new ≡ by_act self.old (at u (scale v)) }
        ensures kept { Kept self.old self.new }
    {
        let closed = self.entry(v, v);
        self.rows[u].scale(self.store, v, closed)
    }

    // In row u, v is passed to w.
    fn pass(&mut self, u: usize, v: usize, w: usize) -> Result<(), Refusal>
        requires row { u < 32 }
        requires from { v < 32 }
        requires to { w < 32 }
        ensures run { came result self.new ≡ by_act self.old (at u (pass v w)) }
        ensures kept { Kept self.old self.new }
    {
        let leads = self.entry(v, w);
        self.rows[u].pass(self.store, v, w, leads)
    }

    // The format v is eliminated from row u: what leads there is carried on to each later format.
    fn free(&mut self, v: usize, later: &[u32], u: usize) -> Result<(), Refusal>
        requires from { v < 32 }
        requires row { u < 32 }
        requires places { Places later.now }
        ensures run { came result self.new ≡ by_acts self.old (freeing v later.now u) }
        ensures kept { Kept self.old self.new }
    {
        self.scale(u, v)?;
        for w in later {
            self.pass(u, v, *w as usize)?;
        }
        Ok(())
    }

    // The format v is eliminated from each later row.
    fn free_all(&mut self, v: usize, later: &[u32]) -> Result<(), Refusal>
        requires from { v < 32 }
        requires places { Places later.now }
        ensures run { came result self.new ≡ by_acts self.old (for_each (freeing v later.now) later.now) }
        ensures kept { Kept self.old self.new }
    {
        for u in later {
            self.free(v, later, *u as usize)?;
        }
        Ok(())
    }

    // Each format is closed, and then eliminated from the rows of those after it.
    pub fn eliminate(&mut self, formats: &[u32]) -> Result<(), Refusal>
        requires { Places formats.now }
        ensures run { came result self.new ≡ by_acts self.old (eliminate formats.now) }
        ensures kept { Kept self.old self.new }
    {
        let mut rest = formats;
        while let Some((first, later)) = rest.split_first() {
            let v = *first as usize;
            self.close(v)?;
            self.free_all(v, later)?;
            rest = later;
        }
        Ok(())
    }

    // The formats of each component in turn are eliminated, as they are listed.
    fn eliminate_all(&mut self, order: &[u32], components: &Components) -> Result<(), Refusal>
        requires few { length order.now ≤ 32 }
        requires listed { order.now ≡ in_order (length order.now) components.now.count (λ v. slice_index components.now.of v) }
        ensures run { came result self.new ≡ by_acts self.old (for_each (λ c. eliminate (members_of (length order.now) (λ v. slice_index components.now.of v) c)) (below components.now.count)) }
        ensures kept { Kept self.old self.new }
    {
        // The counter is the component itself, whose formats begin in the order where those of the one before end.
        let mut start = 0;
        for c in 0..components.count {
            let formats = group(order, &components.of, c as u32, start);
            self.eliminate(formats)?;
            start += formats.len();
        }
        Ok(())
    }

    // Step j is made, and added to what leads from its one end to the other where they share a component.
    fn load_step(&mut self, j: u32, from: usize, to: usize, shared: bool) -> Result<(), Refusal>
        requires from { from < 32 }
        requires to { to < 32 }
        ensures run { came result self.new ≡ by_act self.old (load j from to shared) }
        ensures kept { Kept self.old self.new }
    {
        let step = self.store.step(j)?;
        if shared {
            let leads = self.entry(from, to);
            let sum = self.store.sum(leads, step)?;
            self.write(from, to, sum);
        }
        Ok(())
    }

    // Each step in force is loaded, rising. The moves do not ask how many formats there are: any number up to 32 serves.
    pub fn load(&mut self, steps: &[Step], component: &[u32; 32]) -> Result<(), Refusal>
        requires few { length steps.now < 2 ^ 32 }
        requires joined { Joined (drawn 32 steps.now) }
        ensures run { came result self.new ≡ by_acts self.old (loads (drawn 32 steps.now) (λ v. slice_index component.now v)) }
        ensures kept { Kept self.old self.new }
    {
        for (j, step) in steps.iter().enumerate() {
            if !step.in_force {
                continue;
            }
            let (from, to) = (step.from as usize, step.to as usize);
            self.load_step(j as u32, from, to, component[from] == component[to])?;
        }
        Ok(())
    }

    // The table of a network whose formats are listed: its steps are loaded, and its components eliminated.
    pub fn tabulate(
        &mut self,
        steps: &[Step],
        components: &Components,
        order: &[u32],
    ) -> Result<(), Refusal>
        requires few { length order.now ≤ 32 }
        requires listed { order.now ≡ in_order (length order.now) components.now.count (λ v. slice_index components.now.of v) }
        requires held { length steps.now < 2 ^ 32 }
        requires joined { Joined (drawn (length order.now) steps.now) }
        ensures run { came result self.new ≡ by_acts self.old (sealing (drawn (length order.now) steps.now) components.now.count (λ v. slice_index components.now.of v)) }
        ensures kept { Kept self.old self.new }
    {
        self.load(steps, &components.of)?;
        self.eliminate_all(order, components)
    }
}
