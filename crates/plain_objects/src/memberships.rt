//! What sets name, and whether one object is in another at any depth.

ghost use Rattle.std.specs.Prelude.{IfOk, ◌≡◌, OnOk, ◌++◌, map};
ghost use Rattle.kernel_types.specs.Names.{held_by};
ghost use Rattle.kernel_types.specs.Sets.{membership_names, memberships, is_or_contains};

use crate::names::Naming;
use crate::reach::{is_in, reached};
use kernel_values::{Body, Items, Member, NoMemory, Object};
use std::alloc::Global;

/// Adds that the set names its members, in order.
fn add_members(names: &mut Items<Naming>, holder: u64, members: &[Member]) -> Result<(), NoMemory>
    ensures { OnOk result (names.new ≡ names.old ++ map (held_by holder) (map (λ member. member.object) members.now)) }
{
    for member in members {
        names.push(Naming::held_by(holder, member.object))?;
    }
    Ok(())
}

fn add_membership_names(names: &mut Items<Naming>, object: &Object) -> Result<(), NoMemory>
    ensures { OnOk result (names.new ≡ names.old ++ membership_names object.now) }
{
    match &object.body {
        Body::Set(set) => add_members(names, object.id, set.members.as_slice()),
        _ => Ok(()),
    }
}

fn add_memberships(names: &mut Items<Naming>, objects: &[Object]) -> Result<(), NoMemory>
    ensures { OnOk result (names.new ≡ names.old ++ memberships objects.now) }
{
    for object in objects {
        add_membership_names(names, object)?;
    }
    Ok(())
}

/// Whether `inner` is `outer` itself, or is in it at any depth.
#[tactic(auto, unfolding(kernel_types::specs::Sets::is_or_contains))]
pub fn is_or_contains(
    alloc: Global,
    objects: &[Object],
    outer: u64,
    inner: u64,
) -> Result<bool, NoMemory>
    ensures { IfOk result (λ found. found ≡ is_or_contains objects.now outer inner) }
{
    let mut names = Items::new(alloc);
    names.push(Naming::root(outer))?;
    add_memberships(&mut names, objects)?;
    let marked = reached(alloc, names.as_slice())?;
    Ok(is_in(marked.as_slice(), inner))
}
