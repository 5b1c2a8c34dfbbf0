// A plan can be looked at, and is made new with no formats.
ghost use Rattle.std.specs.Prelude.{◌≡◌, take, nat_lt};
ghost use Rattle.planning.specs.Components.{every};
ghost use Rattle.network.specs.Plans.{planned, unplanned, members_in, plan_sound, InTurn};

use crate::Plan;
use planning::Row;

impl Default for Plan {
    ghost is_default = { λ plan. planned plan ≡ unplanned };

    fn default() -> Plan {
        Plan::new()
    }
}

impl Plan {
    // A plan for no formats.
    pub fn new() -> Plan
        ensures { planned result ≡ unplanned }
    {
        Plan {
            formats: 0,
            components: 0,
            records: 0,
            order: [0; 32],
            component: [0; 32],
            rows: [Row::empty(); 32],
        }
    }

    // The formats that the plan is for, in their order.
    pub fn order(&self) -> &[u32]
        ensures value { result.now ≡ take (planned self.now).formats self.now.order }
        ensures turns { InTurn (planned self.now) }
    {
        &self.order[..self.formats as usize]
    }

    // The component of each format.
    pub fn component(&self) -> &[u32]
        ensures { result.now ≡ take (planned self.now).formats self.now.component }
    {
        &self.component[..self.formats as usize]
    }

    // The component of format v, 0 past the formats: as in the definition, which every number has a component in.
    pub fn component_of(&self, v: usize) -> u32
        ensures { result ≡ (planned self.now).component v }
    {
        self.component.get(v).copied().unwrap_or(0)
    }

    // How many components there are.
    pub fn components(&self) -> usize
        ensures { result ≡ (planned self.now).components }
    {
        self.components
    }

    // The formats of component c, rising.
    pub fn members(&self, c: usize) -> &[u32]
        ensures { result.now ≡ members_in (planned self.now) c }
    {
        let order = &self.order[..self.formats as usize];
        if c >= self.components {
            return &order[..0];
        }
        // A loop, since each start is where the group before it ends: as a fold this reads no plainer.
        let mut start = 0;
        for d in 0..c {
            start += planning::group(order, &self.component, d as u32, start).len();
        }
        planning::group(order, &self.component, c as u32, start)
    }

    // The expression from u to w, past the formats 0, which is nothing: no route leads there.
    pub fn entry(&self, u: usize, w: usize) -> u32
        ensures { result ≡ (planned self.now).table u w }
    {
        self.rows.get(u).map_or(0, |row| row.get(w))
    }

    // Whether each of the first entries of a row names a record below the count.
    fn row_sound(&self, u: usize, formats: usize, records: usize) -> bool
        ensures { result ≡ every formats (λ w. nat_lt ((planned self.now).table u w) records) }
    {
        (0..formats).all(|w| (self.entry(u, w) as usize) < records)
    }

    // Whether the plan is for so many formats, and names only records below the count.
    pub fn is_sound(&self, formats: usize, records: usize) -> bool
        ensures { result ≡ plan_sound formats records (planned self.now) }
    {
        self.formats as usize == formats
            && (self.records <= records
                || (0..formats).all(|u| self.row_sound(u, formats, records)))
    }
}
