//! The objects of a state, by their numbers.

ghost use Rattle.std.specs.Prelude.{◌≡◌, IfOk, ◌+◌, OnOk};
ghost use Rattle.kernel_types.specs.Objects.{place_of, is_there, object_of, port_of, end_of, set_of, memory_of, has_path, published, added};
ghost use Rattle.std.specs.Option.{option_copied};

use kernel_values::{
    Body, ChannelEnd, CoreState, HandleSet, Items, MemoryRef, NoMemory, Object, Port,
};

/// The place of the object with this number; past the end where there is none.
pub fn place_of_object(objects: &[Object], id: u64) -> usize
    ensures { result ≡ place_of objects.now id }
{
    for (at, object) in objects.iter().enumerate() {
        if object.id == id {
            return at;
        }
    }
    objects.len()
}

/// Whether there is an object with this number.
pub fn is_object_there(objects: &[Object], id: u64) -> bool
    ensures { result ≡ is_there objects.now id }
{
    for object in objects {
        if object.id == id {
            return true;
        }
    }
    false
}

/// The object of this number, where it is there.
pub fn find_object(objects: &[Object], id: u64) -> Option<&Object>
    ensures { option_copied result ≡ object_of objects.now id }
{
    objects.get(place_of_object(objects, id))
}

/// The port of this number, where the object is a port.
pub fn find_port(objects: &[Object], id: u64) -> Option<&Port>
    ensures { option_copied result ≡ port_of objects.now id }
{
    match &find_object(objects, id)?.body {
        Body::Port(port) => Some(port),
        _ => None,
    }
}

/// The channel end of this number, where the object is one.
pub fn find_end(objects: &[Object], id: u64) -> Option<&ChannelEnd>
    ensures { option_copied result ≡ end_of objects.now id }
{
    match &find_object(objects, id)?.body {
        Body::End(end) => Some(end),
        _ => None,
    }
}

/// The handle set of this number, where the object is one.
pub fn find_set(objects: &[Object], id: u64) -> Option<&HandleSet>
    ensures { option_copied result ≡ set_of objects.now id }
{
    match &find_object(objects, id)?.body {
        Body::Set(set) => Some(set),
        _ => None,
    }
}

/// The memory reference of this number, where the object is one.
pub fn find_memory(objects: &[Object], id: u64) -> Option<&MemoryRef>
    ensures { option_copied result ≡ memory_of objects.now id }
{
    match &find_object(objects, id)?.body {
        Body::Memory(memory) => Some(memory),
        _ => None,
    }
}

fn has_path(object: &Object, path: &[u8]) -> bool
    ensures { result ≡ has_path path.now object.now }
{
    match &object.body {
        Body::Port(port) => port.path.as_slice() == path,
        _ => false,
    }
}

/// The port that is published under the path.
pub fn find_published<'a>(objects: &'a [Object], path: &[u8]) -> Option<&'a Object>
    ensures { option_copied result ≡ published objects.now path.now }
{
    for object in objects {
        if has_path(object, path) {
            return Some(object);
        }
    }
    None
}

/// The number that comes `by` later; refused where numbers run out.
pub fn later(number: u64, by: u64) -> Result<u64, NoMemory>
    ensures { IfOk result (λ sum. sum ≡ number + by) }
{
    match number.checked_add(by) {
        Some(sum) => Ok(sum),
        None => Err(NoMemory),
    }
}

/// A new object gets the next number.
pub fn add_object(core: &mut CoreState, body: Body) -> Result<(), NoMemory>
    ensures { OnOk result (core.new ≡ added body core.old) }
{
    let id = core.next;
    core.next = later(id, 1)?;
    core.objects.push(Object { id, body })
}
