//! Which sets have an object as a member: for each object the numbers of the sets. A set may stay at an object
//! that it no longer has.

ghost use Rattle.std.specs.Prelude.{◌≡◌, ℕ, OnOk, OnErr};
ghost use Rattle.std.specs.List.{list_any};
ghost use Rattle.handle_set.specs.Holders.{at_object, holders_in, is_other_number, with_number, without_number};
ghost use Rattle.handle_set.specs.Sets.{is_number};

use kernel_values::NoMemory;
use std::alloc::Global;
use std::collections::BTreeMap;

/// The numbers of the sets at an object.
pub fn holders_of(holders: &BTreeMap<u64, Vec<u64>>, object: u64) -> &[u64]
    ensures { result.now ≡ holders_in holders.now object }
{
    match holders.get(&object) {
        Some(ids) => ids.as_slice(),
        None => &[],
    }
}

// Whether the number is among these.
fn has_number(ids: &[u64], id: u64) -> bool
    ensures { result ≡ list_any (is_number id) ids.now }
{
    for other in ids {
        if *other == id {
            return true;
        }
    }
    false
}

// Adds a number, unless it is there.
fn add_number(ids: &mut Vec<u64>, id: u64) -> Result<(), NoMemory>
    ensures added { OnOk result (ids.new.items ≡ with_number id ids.old.items) }
    ensures same { OnErr result (ids.new.items ≡ ids.old.items) }
{
    if has_number(ids, id) {
        return Ok(());
    }
    ids.push(id)?;
    Ok(())
}

/// A set is at an object from now on.
pub fn register(
    alloc: Global,
    holders: &mut BTreeMap<u64, Vec<u64>>,
    object: u64,
    id: u64,
) -> Result<(), NoMemory>
    ensures added { OnOk result ((n : ℕ) → holders_in holders.new n ≡ at_object (with_number id) object n (holders_in holders.old n)) }
    ensures same { OnErr result ((n : ℕ) → holders_in holders.new n ≡ holders_in holders.old n) }
{
    if let Some(ids) = holders.get_mut(&object) {
        return add_number(ids, id);
    }
    let mut ids = Vec::new(alloc);
    ids.push(id)?;
    holders.insert(object, ids)?;
    Ok(())
}

// The number is no longer among these.
fn drop_number(ids: &mut Vec<u64>, id: u64)
    ensures { ids.new.items ≡ without_number id ids.old.items }
{
    ids.retain(|other| *other != id);
}

/// A set is no longer at an object.
pub fn release(holders: &mut BTreeMap<u64, Vec<u64>>, object: u64, id: u64)
    ensures { (n : ℕ) → holders_in holders.new n ≡ at_object (without_number id) object n (holders_in holders.old n) }
{
    let Some(ids) = holders.get_mut(&object) else {
        return;
    };
    drop_number(ids, id);
    if ids.is_empty() {
        holders.remove(&object);
    }
}
