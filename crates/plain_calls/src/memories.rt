//! `memref`, `mread` and `mwrite`: memory references.

ghost use Rattle.std.specs.Prelude.{◌≡◌, IfOk, replicate, ◌+◌, ◌≤◌, length, take, drop, OnOk, ◌++◌};
ghost use Rattle.kernel_types.specs.Memories.{is_lawful_size, new_memory, mem_create, is_range, mem_read_of, mem_read, overwritten, written, mem_write_of, mem_write};
ghost use Rattle.plain_calls.specs.Outcomes.{outcome};
ghost use Rattle.kernel_types.specs.Objects.{memory_of, memory_changed};

use crate::told::{CallOutcome, gives, refuses};
use kernel_values::{
    Body, Bytes, CoreState, Errno, Handles, Items, MemFlags, MemoryRef, NoMemory, Reply,
};
use plain_objects::objects::{add_object, find_memory, place_of_object};
use plain_objects::tables::{find_entry, install, is_full_table, least_free_handle, table_of};
use std::alloc::Global;

/// A memory reference has 1 to 65,536 bytes.
fn is_lawful_size(size: u32) -> bool
    ensures { result ≡ is_lawful_size size }
{
    1 <= size && size <= 65536
}

fn zeros(alloc: Global, size: u32) -> Result<Bytes, NoMemory>
    ensures { IfOk result (λ bytes. bytes ≡ replicate size 0) }
{
    let mut bytes = Items::new(alloc);
    for _turn in 0..size {
        bytes.push(0)?;
    }
    Ok(bytes)
}

/// New memory is zero.
#[tactic(auto, unfolding(kernel_types::specs::Memories::new_memory))]
fn new_memory(alloc: Global, size: u32, flags: MemFlags) -> Result<MemoryRef, NoMemory>
    ensures { IfOk result (λ memory. memory ≡ new_memory size flags) }
{
    Ok(MemoryRef {
        bytes: zeros(alloc, size)?,
        flags,
    })
}

/// Makes a memory reference of so many bytes.
#[tactic(auto, unfolding(kernel_types::specs::Memories::mem_create))]
pub fn mem_create_call(
    core: &mut CoreState,
    app: u32,
    size: u32,
    flags: MemFlags,
) -> Result<CallOutcome, NoMemory>
    ensures { IfOk result (λ told. outcome told core.new ≡ mem_create core.old app size flags) }
{
    if !is_lawful_size(size) {
        return Ok(refuses(Errno::InvalidArgs));
    }
    if is_full_table(table_of(core, app)) {
        return Ok(refuses(Errno::NoResources));
    }
    let handle = least_free_handle(table_of(core, app));
    let id = core.next;
    let memory = new_memory(core.objects.allocator(), size, flags)?;
    add_object(core, Body::Memory(memory))?;
    install(core, app, id)?;
    Ok(gives(Reply::Handle(handle)))
}

/// Whether `len` bytes from `offset` on are within the memory.
fn is_range(memory: &MemoryRef, offset: u32, len: usize) -> bool
    ensures { result ≡ is_range memory.now offset len }
{
    let start = offset as usize;
    start <= memory.bytes.len() && len <= memory.bytes.len() - start
}

/// The bytes from `offset` on.
fn copied_range(alloc: Global, bytes: &[u8], offset: usize, len: usize) -> Result<Bytes, NoMemory>
    requires { offset + len ≤ length bytes.now }
    ensures { IfOk result (λ part. part ≡ take len (drop offset bytes.now)) }
{
    let rest = &bytes[offset..];
    Items::from_slice(alloc, &rest[..len])
}

fn mem_read_from(
    core: &CoreState,
    object: u64,
    offset: u32,
    len: u32,
) -> Result<CallOutcome, NoMemory>
    ensures { IfOk result (λ told. outcome told core.now ≡ mem_read_of core.now (memory_of core.now.objects object) offset len) }
{
    let Some(memory) = find_memory(core.objects.as_slice(), object) else {
        return Ok(refuses(Errno::InvalidArgs));
    };
    if !is_range(memory, offset, len as usize) {
        return Ok(refuses(Errno::InvalidArgs));
    }
    let alloc = core.objects.allocator();
    let bytes = copied_range(
        alloc,
        memory.bytes.as_slice(),
        offset as usize,
        len as usize,
    )?;
    let parts: Handles = Items::new(alloc);
    Ok(gives(Reply::Bytes { bytes, parts }))
}

/// Reads `len` bytes from `offset` on.
#[tactic(auto, unfolding(kernel_types::specs::Memories::mem_read))]
pub fn mem_read_call(
    core: &CoreState,
    app: u32,
    handle: u32,
    offset: u32,
    len: u32,
) -> Result<CallOutcome, NoMemory>
    ensures { IfOk result (λ told. outcome told core.now ≡ mem_read core.now app handle offset len) }
{
    let Some(entry) = find_entry(table_of(core, app), handle) else {
        return Ok(refuses(Errno::BadHandle));
    };
    mem_read_from(core, entry.object, offset, len)
}

fn add_bytes(bytes: &mut Bytes, more: &[u8]) -> Result<(), NoMemory>
    ensures { OnOk result (bytes.new ≡ bytes.old ++ more.now) }
{
    for byte in more {
        bytes.push(*byte)?;
    }
    Ok(())
}

/// The old bytes with others in place of as many from `offset` on.
fn overwritten(alloc: Global, offset: usize, bytes: &[u8], old: &[u8]) -> Result<Bytes, NoMemory>
    requires { offset + length bytes.now ≤ length old.now }
    ensures { IfOk result (λ made. made ≡ overwritten offset bytes.now old.now) }
{
    let mut made = Items::from_slice(alloc, &old[..offset])?;
    add_bytes(&mut made, bytes)?;
    add_bytes(&mut made, &old[offset + bytes.len()..])?;
    Ok(made)
}

fn write_to(memory: &mut MemoryRef, offset: usize, bytes: &[u8]) -> Result<(), NoMemory>
    ensures { OnOk result (memory.new ≡ written offset bytes.now memory.old) }
{
    let old = memory.bytes.as_slice();
    if offset > old.len() || bytes.len() > old.len() - offset {
        return Err(NoMemory);
    }
    let made = overwritten(memory.bytes.allocator(), offset, bytes, old)?;
    memory.bytes = made;
    Ok(())
}

fn write_in(core: &mut CoreState, object: u64, offset: usize, bytes: &[u8]) -> Result<(), NoMemory>
    ensures { OnOk result (core.new ≡ memory_changed (written offset bytes.now) object core.old) }
{
    let place = place_of_object(core.objects.as_slice(), object);
    if let Some(held) = core.objects.get_mut(place) {
        if let Body::Memory(memory) = &mut held.body {
            write_to(memory, offset, bytes)?;
        }
    }
    Ok(())
}

fn mem_write_to(
    core: &mut CoreState,
    object: u64,
    offset: u32,
    bytes: &[u8],
) -> Result<CallOutcome, NoMemory>
    ensures { IfOk result (λ told. outcome told core.new ≡ mem_write_of core.old object (memory_of core.old.objects object) offset bytes.now) }
{
    let Some(memory) = find_memory(core.objects.as_slice(), object) else {
        return Ok(refuses(Errno::InvalidArgs));
    };
    if !is_range(memory, offset, bytes.len()) {
        return Ok(refuses(Errno::InvalidArgs));
    }
    if memory.flags.0 & 1 == 0 {
        return Ok(refuses(Errno::AccessDenied));
    }
    write_in(core, object, offset as usize, bytes)?;
    Ok(gives(Reply::Done))
}

/// Overwrites bytes from `offset` on.
#[tactic(auto, unfolding(kernel_types::specs::Memories::mem_write))]
pub fn mem_write_call(
    core: &mut CoreState,
    app: u32,
    handle: u32,
    offset: u32,
    bytes: &Bytes,
) -> Result<CallOutcome, NoMemory>
    ensures { IfOk result (λ told. outcome told core.new ≡ mem_write core.old app handle offset bytes.now) }
{
    let Some(entry) = find_entry(table_of(core, app), handle) else {
        return Ok(refuses(Errno::BadHandle));
    };
    mem_write_to(core, entry.object, offset, bytes.as_slice())
}
