// The components of a network: sets of formats from each of which routes lead to the others.
ghost use Rattle.std.specs.Prelude.{◌≡◌, ℕ, ◌+◌, ◌<◌, ◌≤◌, if◌then◌else◌, MatchOption, slice_index};
ghost use Rattle.elimination.specs.Networks.{Joined};
ghost use Rattle.planning.specs.Bits.{has, goes, unentered};
ghost use Rattle.planning.specs.Components.{Listing, lowest, direct as is-direct, component_count, component_of};
ghost use Rattle.planning.specs.Drawn.{drawn};

use bits::Ones;
use expressions::Step;
use relations::Relation;

mod relations;

// How many components there are, and the component of each format, counted from 0 as they are listed. Places past the
// formats hold 0: an array as long as that of a plan, which takes it as it is, with no heap.
#[derive(Clone, Copy)]
pub struct Components {
    pub count: usize,
    pub of: [u32; 32],
    pub ghost few: { count ≤ 32 },
}

impl Components {
    // A set of formats is the next component.
    fn push(&mut self, component: u32)
        requires { self.old.count < 32 }
        ensures count { self.new.count ≡ self.old.count + 1 }
        ensures of { (u : ℕ) → slice_index self.new.of u ≡ (if has component u then self.old.count else slice_index self.old.of u) }
    {
        let number = self.count as u32;
        for v in Ones(u64::from(component)) {
            self.of[v as usize] = number;
        }
        self.count += 1;
    }
}

// Each format goes to itself and to where a step in force leads from it.
fn direct(formats: usize, steps: &[Step]) -> Relation
    requires few { formats ≤ 32 }
    requires joined { Joined (drawn formats steps.now) }
    ensures size { result.size ≡ formats }
    ensures goes { (u v : ℕ) → u < formats → goes result.sets u v ≡ is-direct (drawn formats steps.now) u v }
{
    let mut reach = Relation::identity(formats);
    for s in steps {
        if s.in_force {
            reach.join(s.from as usize, s.to as usize);
        }
    }
    reach
}

// Whether format v is not listed, and only those lead to it that are listed or to which it leads.
fn ready(reach: &Relation, into: &Relation, listed: u32, v: usize) -> bool
    requires same { into.now.size ≡ reach.now.size }
    requires format { v < reach.now.size }
    ensures { result ≡ unentered reach.now.size reach.now.sets into.now.sets listed v }
{
    !relations::has(listed, v) && relations::within(into.sets[v], reach.sets[v] | listed)
}

// The lowest format that is ready to be listed.
fn next(reach: &Relation, into: &Relation, listed: u32) -> Option<usize>
    requires { into.now.size ≡ reach.now.size }
    ensures { MatchOption result (lowest reach.now.size (unentered reach.now.size reach.now.sets into.now.sets listed) ≡ reach.now.size) (λ w. (w < reach.now.size) × (w ≡ lowest reach.now.size (unentered reach.now.size reach.now.sets into.now.sets listed))) }
{
    (0..reach.size).find(|&v| ready(reach, into, listed, v))
}

// The components of a network of at most 32 formats whose steps end at its formats.
pub fn list(formats: usize, steps: &[Step]) -> Components
    requires few { formats ≤ 32 }
    requires joined { Joined (drawn formats steps.now) }
    ensures count { result.count ≡ component_count (drawn formats steps.now) }
    ensures of { (v : ℕ) → v < formats → slice_index result.of v ≡ component_of (drawn formats steps.now) v }
    ensures past { (v : ℕ) → formats ≤ v → slice_index result.of v ≡ 0 }
    ensures listing { Listing (drawn formats steps.now) result.count (λ v. slice_index result.of v) }
{
    let mut reach = direct(formats, steps);
    reach.close();
    let into = reach.converse();
    let mut components = Components {
        count: 0,
        of: [0; 32],
    };
    let mut listed = 0;
    while let Some(v) = next(&reach, &into, listed) {
        let component = reach.sets[v] & into.sets[v];
        components.push(component);
        listed |= component;
    }
    components
}
