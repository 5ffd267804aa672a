//! What a drain comes to, before anything is written: the driver afterwards, and the buffers that are given again.

ghost use Rattle.std.specs.Prelude.{◌≡◌, ◌==◌, ◌<◌, ◌≤◌, nat_lt, map, length, IfOk, OnOk};
ghost use Rattle.std.specs.List.{All, fold, filter, list_any, position_or_len, insert};
ghost use Rattle.virtqueue.specs.Layout.{IsQueue};
ghost use Rattle.kernel_types.specs.GuestMemory.{ring, buffer_count, used_idx, given, new_elements};
ghost use Rattle.kernel_types.specs.Drains.{is_readable, readable_elements, frame_at, delivered, with_free, freed_places, drained};
ghost use Rattle.ns_driver.specs.Value.{IsSound};
ghost use Rattle.ns_driver.specs.Acts.{bare};

use crate::connections::deliver;
use crate::copies::copied_connections;
use crate::memory::{BUFFER_SIZE, buffer_place, ring};
use crate::used::{Element, new_elements, used_idx};
use kernel_values::{Connection, Copied, Driver as DriverState, Items, NoMemory};
use virtqueue::MEMORY_SIZE;

/// The driver gives the first of a queue's descriptors a buffer each, at most so many.
const MOST_BUFFERS: u32 = 32;

/// What a drain comes to.
#[derive(Drop)]
pub struct Found {
    /// The driver afterwards.
    pub driver: DriverState,
    /// The descriptors of queue 0 that are given again, in their order.
    pub again: Items<u32>,
}

/// How many descriptors of each queue have a buffer.
pub fn buffer_count(size: u32) -> u32
    ensures count { result ≡ buffer_count size }
    ensures few { result ≤ 32 }
{
    size.min(MOST_BUFFERS)
}

pub fn is_readable(size: u32, element: &Element) -> bool
    ensures { result ≡ is_readable size element.now }
{
    element.id < buffer_count(size) && element.len <= BUFFER_SIZE
}

/// The elements of queue 0 in which a frame stands.
pub fn readable_elements(driver: &DriverState, mem: &[u8]) -> Result<Items<Element>, NoMemory>
    requires memory { length mem.now ≡ MEMORY_SIZE }
    requires sound { IsSound driver.now }
    ensures elements { IfOk result (λ elements. elements ≡ readable_elements (bare mem.now driver.now)) }
    ensures inside { IfOk result (λ elements. All (λ e. (e.id < 32) × (e.len ≤ BUFFER_SIZE)) elements) }
{
    let alloc = driver.free.allocator();
    let elements = new_elements(alloc, mem, &ring(0, driver.size), driver.seen_to_normal)?;
    let mut readable = Items::new(alloc);
    for element in elements.as_slice() {
        if is_readable(driver.size, element) {
            readable.push(Element {
                id: element.id,
                len: element.len,
            })?;
        }
    }
    Ok(readable)
}

/// The bytes that the device wrote into the buffer of an element.
#[tactic(auto, unfolding(kernel_types::specs::GuestMemory::read_at))]
pub fn frame_at<'m>(mem: &'m [u8], element: &Element) -> &'m [u8]
    requires memory { length mem.now ≡ MEMORY_SIZE }
    requires place { element.now.id < 32 }
    requires len { element.now.len ≤ BUFFER_SIZE }
    ensures { result.now ≡ frame_at mem.now element.now }
{
    let at = buffer_place(0, element.id);
    &mem[at..at + element.len as usize]
}

/// The connections after the frames in these elements were delivered.
fn delivered_from(
    connections: &Items<Connection>,
    mem: &[u8],
    elements: &[Element],
) -> Result<Items<Connection>, NoMemory>
    requires memory { length mem.now ≡ MEMORY_SIZE }
    requires inside { All (λ e. (e.id < 32) × (e.len ≤ BUFFER_SIZE)) elements.now }
    ensures { IfOk result (λ after. after ≡ fold delivered connections.now (map (frame_at mem.now) elements.now)) }
{
    let mut after = copied_connections(connections)?;
    for element in elements {
        deliver(&mut after, frame_at(mem, element))?;
    }
    Ok(after)
}

fn ids_of(elements: &Items<Element>) -> Result<Items<u32>, NoMemory>
    requires { All (λ e. (e.id < 32) × (e.len ≤ BUFFER_SIZE)) elements.now }
    ensures ids { IfOk result (λ ids. ids ≡ map (λ e. e.id) elements.now) }
    ensures inside { IfOk result (λ ids. All (λ id. id < 32) ids) }
{
    let mut ids = Items::new(elements.allocator());
    for element in elements.as_slice() {
        ids.push(element.id)?;
    }
    Ok(ids)
}

fn is_free(free: &[u32], place: u32) -> bool
    ensures { result ≡ list_any (λ other. other == place) free.now }
{
    for other in free {
        if *other == place {
            return true;
        }
    }
    false
}

fn place_among(free: &[u32], place: u32) -> usize
    ensures place { result ≡ position_or_len (λ other. nat_lt place other) free.now }
    ensures within { result ≤ length free.now }
{
    for (at, other) in free.iter().enumerate() {
        if place < *other {
            return at;
        }
    }
    free.len()
}

/// A descriptor becomes free, where it is not.
#[tactic(auto, using(crate::proofs::Ranges::all_inserted))]
fn set_free(free: &mut Items<u32>, place: u32, count: u32) -> Result<(), NoMemory>
    requires place { place < count }
    requires free { All (λ other. other < count) free.old }
    ensures free { OnOk result (free.new ≡ with_free free.old place) }
    ensures inside { OnOk result (All (λ other. other < count) free.new) }
{
    if is_free(free.as_slice(), place) {
        return Ok(());
    }
    let at = place_among(free.as_slice(), place);
    Ok(free.insert(at, place)?)
}

/// The descriptors of queue 1 that come back.
#[tactic(auto, using(crate::proofs::Ranges::kept_more))]
fn freed_places(driver: &DriverState, mem: &[u8]) -> Result<Items<u32>, NoMemory>
    requires memory { length mem.now ≡ MEMORY_SIZE }
    requires sound { IsSound driver.now }
    ensures places { IfOk result (λ places. places ≡ freed_places (bare mem.now driver.now)) }
    ensures inside { IfOk result (λ places. All (λ place. place < buffer_count driver.now.size) places) }
{
    let alloc = driver.free.allocator();
    let elements = new_elements(alloc, mem, &ring(1, driver.size), driver.seen_from_normal)?;
    let count = buffer_count(driver.size);
    let mut places = Items::new(alloc);
    for element in elements.as_slice() {
        if element.id < count {
            places.push(element.id)?;
        }
    }
    Ok(places)
}

/// The free descriptors after these came back.
fn freed(free: &Items<u32>, count: u32, places: &[u32]) -> Result<Items<u32>, NoMemory>
    requires free { All (λ place. place < count) free.now }
    requires places { All (λ place. place < count) places.now }
    ensures free { IfOk result (λ after. after ≡ fold with_free free.now places.now) }
    ensures inside { IfOk result (λ after. All (λ place. place < count) after) }
{
    let mut after = free.copied()?;
    for place in places {
        set_free(&mut after, *place, count)?;
    }
    Ok(after)
}

/// Looks at both used rings. Nothing is written.
#[tactic(auto, using(crate::proofs::Draining::drained_memory))]
pub fn look(driver: &DriverState, mem: &[u8]) -> Result<Found, NoMemory>
    requires memory { length mem.now ≡ MEMORY_SIZE }
    requires sound { IsSound driver.now }
    ensures driver { IfOk result (λ found. found.driver ≡ (drained (bare mem.now driver.now)).driver) }
    ensures memory { IfOk result (λ found. fold (given driver.now.size) mem.now found.again ≡ (drained (bare mem.now driver.now)).memory) }
    ensures again { IfOk result (λ found. All (λ place. place < 32) found.again) }
    ensures sound { IfOk result (λ found. IsSound found.driver) }
{
    let elements = readable_elements(driver, mem)?;
    let places = freed_places(driver, mem)?;
    Ok(Found {
        driver: DriverState {
            size: driver.size,
            seen_to_normal: used_idx(mem, &ring(0, driver.size)),
            seen_from_normal: used_idx(mem, &ring(1, driver.size)),
            free: freed(&driver.free, buffer_count(driver.size), places.as_slice())?,
            connections: delivered_from(&driver.connections, mem, elements.as_slice())?,
        },
        again: ids_of(&elements)?,
    })
}
