// Sets of numbers below 32 as the bits of a number, and relations of such numbers as a set for each.
ghost use Rattle.std.specs.Prelude.{◌≡◌, ℕ, ◌<◌, ◌≤◌, true, false, ◌&&◌, ◌||◌, ◌==◌, nat_lt};
ghost use Rattle.planning.specs.Bits.{has as is-in, within as is_Within, goes};
ghost use Rattle.planning.specs.Components.{through};

pub(super) fn has(set: u32, i: usize) -> bool
    requires { i < 32 }
    ensures { result ≡ is-in set i }
{
    set >> i & 1 == 1
}

// Whether each member of the set, all of which are below some n, is one of the other.
pub(super) fn within(set: u32, other: u32) -> bool
    ensures { (n : ℕ) → ((i : ℕ) → n ≤ i → is-in set i ≡ false) → result ≡ is_Within n set other }
{
    other | set == other
}

// A relation of the numbers below some size: for each the set of those to which it goes.
#[derive(Drop)]
pub(super) struct Relation {
    pub(super) size: usize,
    pub(super) sets: [u32; 32],
    ghost few: { size ≤ 32 },
    ghost inside: { (u v : ℕ) → goes sets u v ≡ true → (u < size) × (v < size) },
}

impl Relation {
    // No number goes anywhere.
    fn empty(size: usize) -> Relation
        requires { size ≤ 32 }
        ensures size { result.size ≡ size }
        ensures goes { (u v : ℕ) → goes result.sets u v ≡ false }
    {
        Relation {
            size,
            sets: [0; 32],
        }
    }

    // Every number goes to itself.
    pub(super) fn identity(size: usize) -> Relation
        requires { size ≤ 32 }
        ensures size { result.size ≡ size }
        ensures goes { (u v : ℕ) → goes result.sets u v ≡ (nat_lt u size && u == v) }
    {
        let mut identity = Relation::empty(size);
        // The counter is the number itself.
        for u in 0..size {
            identity.join(u, u);
        }
        identity
    }

    // Makes u go to v too.
    pub(super) fn join(&mut self, u: usize, v: usize)
        requires from { u < self.old.size }
        requires to { v < self.old.size }
        ensures size { self.new.size ≡ self.old.size }
        ensures goes { (w x : ℕ) → goes self.new.sets w x ≡ (goes self.old.sets w x || (u == w && v == x)) }
    {
        self.sets[u] |= 1 << v;
    }

    // What goes to k goes where k goes.
    fn widen(&mut self, k: usize)
        requires { k < self.old.size }
        ensures size { self.new.size ≡ self.old.size }
        ensures goes { (u v : ℕ) → goes self.new.sets u v ≡ (goes self.old.sets u v || (goes self.old.sets u k && goes self.old.sets k v)) }
    {
        let onward = self.sets[k];
        // In a copy, since a part of a struct that has facts cannot be lent.
        let mut sets = self.sets;
        for set in sets[..self.size].iter_mut() {
            if has(*set, k) {
                *set |= onward;
            }
        }
        self.sets = sets;
    }

    // Each number goes where ways through others lead.
    pub(super) fn close(&mut self)
        ensures size { self.new.size ≡ self.old.size }
        ensures goes { (u v : ℕ) → goes self.new.sets u v ≡ through (goes self.old.sets) self.old.size u v }
    {
        // The counter is the number itself.
        for k in 0..self.size {
            self.widen(k);
        }
    }

    // The relation the other way round.
    pub(super) fn converse(&self) -> Relation
        ensures size { result.size ≡ self.now.size }
        ensures goes { (v u : ℕ) → goes result.sets v u ≡ goes self.now.sets u v }
    {
        let mut converse = Relation::empty(self.size);
        // The counters are the numbers themselves.
        for u in 0..self.size {
            for v in 0..self.size {
                if has(self.sets[u], v) {
                    converse.join(v, u);
                }
            }
        }
        converse
    }
}
