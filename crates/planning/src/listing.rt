// The order of the formats: by component, and rising inside each.
ghost use Rattle.std.specs.Prelude.{◌≡◌, ◌+◌, ◌<◌, ◌≤◌, ◌==◌, ◌++◌, All, length, drop, slice_index};
ghost use Rattle.std.specs.List.{prefix_len};
ghost use Rattle.arrayvec.specs.ArrayVec.{array_vec_len};
ghost use Rattle.planning.specs.Orders.{members_of, in_order, padded, front};
ghost use Rattle.planning.specs.Tables.{Places};

use crate::components::Components;
use arrayvec::ArrayVec;

// Lists the formats of component c, rising, after those that are listed.
fn gather(formats: usize, of: &[u32; 32], c: u32, listed: &mut ArrayVec<u32, 32>)
    requires few { formats ≤ 32 }
    requires room { array_vec_len listed.old + length (members_of formats (λ v. slice_index of.now v) c) ≤ 32 }
    ensures { listed.new.items ≡ listed.old.items ++ members_of formats (λ v. slice_index of.now v) c }
{
    // The counter is the format itself.
    for v in 0..formats {
        if of[v] == c {
            listed.push(v as u32);
        }
    }
}

// The formats of each component in turn, rising inside each. Places past the formats hold 0.
pub fn order(formats: usize, components: &Components) -> [u32; 32]
    requires { formats ≤ 32 }
    ensures { result ≡ padded (in_order formats components.now.count (λ v. slice_index components.now.of v)) }
{
    let mut listed = ArrayVec::<u32, 32>::new();
    // The counter is the component itself.
    for c in 0..components.count {
        gather(formats, &components.of, c as u32, &mut listed);
    }
    let mut order = [0; 32];
    order[..listed.len()].copy_from_slice(&listed);
    order
}

// How many formats of component c a list begins with.
fn leading(formats: &[u32], component: &[u32; 32], c: u32) -> usize
    requires { All (λ v. v < 32) formats.now }
    ensures value { result ≡ prefix_len (λ v. slice_index component.now v == c) formats.now }
    ensures within { result ≤ length formats.now }
{
    formats
        .iter()
        .take_while(|v| component[**v as usize] == c)
        .count()
}

// The formats of component c that are listed from a place on.
pub fn group<'a>(order: &'a [u32], component: &[u32; 32], c: u32, start: usize) -> &'a [u32]
    requires within { start ≤ length order.now }
    requires places { Places order.now }
    ensures { result.now ≡ front (λ v. slice_index component.now v) c (drop start order.now) }
{
    let end = start + leading(&order[start..], component, c);
    &order[start..end]
}
