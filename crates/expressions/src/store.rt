// The store, in which an expression is made once and then found again.
ghost use Rattle.std.specs.Prelude.{◌≡◌, ℕ, ◌<◌, ◌≤◌, true, ◌++◌, min, length, take, drop, replicate, IfSome, IfOk};
ghost use Rattle.expressions.specs.Contents.{limit, cleared, chain_of};
ghost use Rattle.expressions.specs.Kinds.{number_of};
ghost use Rattle.expressions.specs.Layout.{each, well_formed, linked, heads_sound};
ghost use Rattle.expressions.specs.Making.{find, on_chain, Fits, appended, made, step_made, sum_made, then_made, repeat_made, Is, RuledIs, sum_rule, then_rule, repeat_rule};

use crate::{CHAINS, Kind, MOST_RECORDS, NOTHING, Record, STAY};
use refusals::Refusal;

// A store in lent buffers, of whose records so many are in use: the lent slice is longer, and the store grows in it. What is in
// use, and every head, is laid out as it should be. An expression is the number of its record, and is asked to be in use, as an
// index is asked to be inside.
#[derive(Drop)]
pub struct Store<'a> {
    pub records: &'a mut [Record],
    pub heads: &'a mut [u32],
    pub count: usize,
    pub ghost begun: { 2 ≤ count },
    pub ghost room: { count ≤ min (length records.now) 131072 },
    pub ghost chains: { 1024 ≤ length heads.now },
    pub ghost formed: { each well_formed 0 (take count records.now) ≡ true },
    pub ghost chained: { each linked 0 (take count records.now) ≡ true },
    pub ghost headed: { heads_sound count (take 1024 heads.now) ≡ true },
}

// The chain on which a record of this kind, left and right is found.
fn chain(kind: Kind, left: u32, right: u32) -> usize
    ensures { result ≡ chain_of (number_of kind) left right }
{
    (31 * left as usize + 17 * right as usize + kind.number() as usize) % CHAINS
}

// What the simplifying rules say of a sum.
fn sum_rule(x: u32, y: u32) -> Option<u32>
    ensures value { result ≡ sum_rule x y }
    ensures part { IfSome result (λ z. (n : ℕ) → x < n → y < n → z < n) }
{
    if x == NOTHING {
        Some(y)
    } else if y == NOTHING {
        Some(x)
    } else if x == y {
        Some(x)
    } else {
        None
    }
}

// What the simplifying rules say of a then.
fn then_rule(x: u32, y: u32) -> Option<u32>
    ensures value { result ≡ then_rule x y }
    ensures part { IfSome result (λ z. (n : ℕ) → x < n → y < n → z < n) }
{
    if x == NOTHING {
        Some(NOTHING)
    } else if y == NOTHING {
        Some(NOTHING)
    } else if x == STAY {
        Some(y)
    } else if y == STAY {
        Some(x)
    } else {
        None
    }
}

// What the simplifying rules say of a repeat.
fn repeat_rule(x: u32) -> Option<u32>
    ensures value { result ≡ repeat_rule x }
    ensures part { IfSome result (λ z. z < 2) }
{
    match x {
        NOTHING => Some(STAY),
        STAY => Some(STAY),
        _ => None,
    }
}

// Empties every chain.
fn empty(heads: &mut [u32])
    requires { 1024 ≤ length heads.old }
    ensures { heads.new ≡ replicate 1024 0 ++ drop 1024 heads.old }
{
    heads[..CHAINS].fill(0);
}

// Writes nothing and stay, and empties every chain.
fn clear(records: &mut [Record], heads: &mut [u32])
    requires records { 2 ≤ length records.old }
    requires heads { 1024 ≤ length heads.old }
    ensures { record { records = records.new; heads = heads.new; count = 2 } ≡ cleared (record { records = records.old; heads = heads.old; count = 0 }) }
{
    records[0] = Record {
        kind: Kind::Nothing.number(),
        ..Record::default()
    };
    records[1] = Record {
        kind: Kind::Stay.number(),
        ..Record::default()
    };
    empty(heads);
}

impl<'a> Store<'a> {
    ghost use Rattle.expressions.specs.Stores.{contents, came_of, Lent, Extends};

    // A store with nothing and stay alone, in buffers that may hold anything.
    pub fn cleared(records: &'a mut [Record], heads: &'a mut [u32]) -> Store<'a>
        requires records { 2 ≤ length records.old }
        requires heads { 1024 ≤ length heads.old }
        ensures cleared { contents result ≡ cleared (record { records = records.old; heads = heads.old; count = 0 }) }
        ensures records { result.records.ghost_name ≡ records.entry.ghost_name }
        ensures heads { result.heads.ghost_name ≡ heads.entry.ghost_name }
    {
        clear(records, heads);
        Store {
            records,
            heads,
            count: 2,
        }
    }

    // Leaves nothing and stay alone, which are the first two records of every store, in the buffers that were lent.
    pub fn clear(&mut self)
        ensures cleared { contents self.new ≡ cleared (contents self.old) }
        ensures lent { Lent self.new self.old }
    {
        empty(self.heads);
        self.count = 2;
    }

    // The records that the store may use.
    fn limit(&self) -> usize
        ensures { result ≡ limit (contents self.now) }
    {
        self.records.len().min(MOST_RECORDS)
    }

    // The first record of its chain with this kind, left and right. Chains are numbers in lent records: that is their layout.
    fn find(&self, kind: Kind, left: u32, right: u32) -> Option<u32>
        ensures { result ≡ on_chain (find (contents self.now) (number_of kind) left right) }
    {
        let mut at = self.heads[chain(kind, left, right)];
        while at != 0 {
            let record = self.records[at as usize];
            if record.kind == kind.number() && record.left == left && record.right == right {
                return Some(at);
            }
            at = record.next;
        }
        None
    }

    // A new record, which becomes the head of its chain.
    fn append(&mut self, kind: Kind, left: u32, right: u32) -> u32
        requires fitting { Fits (contents self.old) (number_of kind) left right }
        requires room { self.old.count < limit (contents self.old) }
        ensures value { result ≡ self.old.count }
        ensures after { contents self.new ≡ appended (contents self.old) (number_of kind) left right }
        ensures lent { Lent self.new self.old }
    {
        let at = chain(kind, left, right);
        let new = self.count as u32;
        self.records[self.count] = Record {
            kind: kind.number(),
            left,
            right,
            next: self.heads[at],
        };
        self.count += 1;
        self.heads[at] = new;
        new
    }

    // The record that is there already, or a new one.
    fn make(&mut self, kind: Kind, left: u32, right: u32) -> Result<u32, Refusal>
        requires { Fits (contents self.old) (number_of kind) left right }
        ensures made { came_of result self.new ≡ made (contents self.old) (number_of kind) left right }
        ensures answer { IfOk result (λ z. Is (contents self.new) (number_of kind) left right z) }
        ensures kept { Extends self.old self.new }
    {
        if let Some(found) = self.find(kind, left, right) {
            return Ok(found);
        }
        let limit = self.limit();
        if self.count < limit {
            Ok(self.append(kind, left, right))
        } else {
            Err(Refusal::StoreFull(limit))
        }
    }

    // Step j.
    pub fn step(&mut self, j: u32) -> Result<u32, Refusal>
        ensures made { came_of result self.new ≡ step_made (contents self.old) j }
        ensures answer { IfOk result (λ z. Is (contents self.new) 2 j 0 z) }
        ensures used { IfOk result (λ z. z < self.new.count) }
        ensures kept { Extends self.old self.new }
    {
        self.make(Kind::Step, j, 0)
    }

    // x or y.
    pub fn sum(&mut self, x: u32, y: u32) -> Result<u32, Refusal>
        requires left { x < self.old.count }
        requires right { y < self.old.count }
        ensures made { came_of result self.new ≡ sum_made (contents self.old) x y }
        ensures answer { IfOk result (λ z. RuledIs (contents self.new) (sum_rule x y) 3 x y z) }
        ensures used { IfOk result (λ z. z < self.new.count) }
        ensures kept { Extends self.old self.new }
    {
        match sum_rule(x, y) {
            Some(simpler) => Ok(simpler),
            None => self.make(Kind::Sum, x, y),
        }
    }

    // x, and then y.
    pub fn then(&mut self, x: u32, y: u32) -> Result<u32, Refusal>
        requires left { x < self.old.count }
        requires right { y < self.old.count }
        ensures made { came_of result self.new ≡ then_made (contents self.old) x y }
        ensures answer { IfOk result (λ z. RuledIs (contents self.new) (then_rule x y) 4 x y z) }
        ensures used { IfOk result (λ z. z < self.new.count) }
        ensures kept { Extends self.old self.new }
    {
        match then_rule(x, y) {
            Some(simpler) => Ok(simpler),
            None => self.make(Kind::Then, x, y),
        }
    }

    // x any number of times, also none.
    pub fn repeat(&mut self, x: u32) -> Result<u32, Refusal>
        requires part { x < self.old.count }
        ensures made { came_of result self.new ≡ repeat_made (contents self.old) x }
        ensures answer { IfOk result (λ z. RuledIs (contents self.new) (repeat_rule x) 5 x 0 z) }
        ensures used { IfOk result (λ z. z < self.new.count) }
        ensures kept { Extends self.old self.new }
    {
        match repeat_rule(x) {
            Some(simpler) => Ok(simpler),
            None => self.make(Kind::Repeat, x, 0),
        }
    }
}
