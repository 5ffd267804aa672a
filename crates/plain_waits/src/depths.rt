//! How many sets are in one another.

ghost use Rattle.std.specs.Prelude.{◌≡◌, ◌≤◌, map, ◌==◌};
ghost use Rattle.kernel_types.specs.Events.{chain_limit};
ghost use Rattle.kernel_types.specs.Sets.{depth_below, greatest, depth_above, chain_through};
ghost use Rattle.plain_objects.specs.Predicates.{holds_member};
ghost use Rattle.std.specs.List.{list_any, filter};

use kernel_values::{Body, Member, Object};
use plain_objects::objects::find_set;

/// The greatest chain of a set has this many sets.
#[tactic(auto, unfolding(kernel_types::specs::Events::chain_limit))]
pub fn chain_limit() -> u32
    ensures value { result ≡ chain_limit }
    ensures bound { result ≤ 8 }
{
    8
}

/// The number of sets on the longest chain from an object down, up to a limit.
#[cycle(below)]
#[tactic(auto, using(crate::proofs::Descending::depth_below_less))]
fn depth_below(limit: u32, objects: &[Object], id: u64) -> u32
    ensures value { result ≡ depth_below limit objects.now id }
    ensures bound { result ≤ limit }
{
    if limit == 0 {
        return 0;
    }
    match find_set(objects, id) {
        Some(set) => greatest_below(limit - 1, objects, set.members.as_slice()) + 1,
        None => 0,
    }
}

#[cycle(below)]
fn greatest_below(limit: u32, objects: &[Object], members: &[Member]) -> u32
    ensures value { result ≡ greatest (map (depth_below limit objects.now) (map (λ member. member.object) members.now)) }
    ensures bound { result ≤ limit }
{
    let mut most: u32 = 0;
    for member in members {
        most = most.max(depth_below(limit, objects, member.object));
    }
    most
}

#[tactic(auto, unfolding(plain_objects::specs::Predicates::holds_member))]
fn has_member(object: &Object, id: u64) -> bool
    ensures { result ≡ holds_member id object.now }
{
    match &object.body {
        Body::Set(set) => is_member(set.members.as_slice(), id),
        _ => false,
    }
}

fn is_member(members: &[Member], id: u64) -> bool
    ensures { result ≡ list_any (λ member. member == id) (map (λ member. member.object) members.now) }
{
    for member in members {
        if member.object == id {
            return true;
        }
    }
    false
}

/// The number of sets on the longest chain down to a set, itself included, up to a limit.
#[cycle(above)]
#[tactic(auto, using(crate::proofs::Descending::depth_above_less), unfolding(plain_objects::specs::Predicates::holds_member))]
fn depth_above(limit: u32, objects: &[Object], id: u64) -> u32
    ensures value { result ≡ depth_above limit objects.now id }
    ensures bound { result ≤ limit }
{
    if limit == 0 {
        return 0;
    }
    greatest_above(limit - 1, objects, id) + 1
}

#[cycle(above)]
fn greatest_above(limit: u32, objects: &[Object], id: u64) -> u32
    ensures value { result ≡ greatest (map (depth_above limit objects.now) (map (λ object. object.id) (filter (holds_member id) objects.now))) }
    ensures bound { result ≤ limit }
{
    let mut most: u32 = 0;
    for object in objects {
        if has_member(object, id) {
            most = most.max(depth_above(limit, objects, object.id));
        }
    }
    most
}

/// The number of sets on the longest chain through a new membership.
#[tactic(auto, unfolding(kernel_types::specs::Sets::chain_through))]
pub fn chain_through(objects: &[Object], set: u64, object: u64) -> u32
    ensures { result ≡ chain_through objects.now set object }
{
    depth_above(chain_limit(), objects, set) + depth_below(chain_limit(), objects, object)
}
