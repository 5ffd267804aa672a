//! `memref`, `mread` and `mwrite`: memory references.

ghost use Rattle.std.specs.Prelude.{◌≡◌, ◌+◌, nat_le, IfOk, OnErr};
ghost use Rattle.kernel_types.specs.Memories.{is_lawful_size, is_writable, mem_create, mem_read, mem_read_of, mem_write, mem_write_of};
ghost use Rattle.kernel_types.specs.Objects.{memory_of};
ghost use Rattle.core_changes.specs.Outcomes.{outcome};

use core_changes::CoreChanges;
use core_changes::outcomes::{CallOutcome, gives, refuses};
use kernel_values::{Bytes, Errno, Handles, Items, MemFlags, NoMemory, Reply};

/// A memory reference has 1 to 65,536 bytes.
fn is_lawful_size(size: u32) -> bool
    ensures { result ≡ is_lawful_size size }
{
    1 <= size && size <= 65536
}

/// Makes a memory reference of so many bytes.
#[tactic(auto, unfolding(kernel_types::specs::Memories::mem_create))]
pub fn mem_create_call<C: CoreChanges>(
    core: &mut C,
    app: u32,
    size: u32,
    flags: MemFlags,
) -> Result<CallOutcome, NoMemory>
    ensures ok { IfOk result (λ told. outcome told (C.state core.new) ≡ mem_create (C.state core.old) app size flags) }
    ensures err { OnErr result (C.state core.new ≡ C.state core.old) }
{
    if !is_lawful_size(size) {
        return Ok(refuses(Errno::InvalidArgs));
    }
    if core.is_full(app) {
        return Ok(refuses(Errno::NoResources));
    }
    let handle = core.make_memory(app, size, flags)?;
    Ok(gives(Reply::Handle(handle)))
}

/// Whether `count` bytes from `offset` on are within a memory of `len` bytes.
fn is_range(len: usize, offset: u32, count: usize) -> bool
    ensures { result ≡ nat_le (offset + count) len }
{
    let start = offset as usize;
    start <= len && count <= len - start
}

fn read_from<C: CoreChanges>(
    core: &C,
    object: u64,
    offset: u32,
    len: u32,
) -> Result<CallOutcome, NoMemory>
    ensures { IfOk result (λ told. outcome told (C.state core.now) ≡ mem_read_of (C.state core.now) (memory_of (C.state core.now).objects object) offset len) }
{
    let Some(memory) = core.memory(object) else {
        return Ok(refuses(Errno::InvalidArgs));
    };
    if !is_range(memory.len, offset, len as usize) {
        return Ok(refuses(Errno::InvalidArgs));
    }
    let bytes = core.memory_bytes(object, offset, len)?;
    let parts: Handles = Items::new(core.allocator());
    Ok(gives(Reply::Bytes { bytes, parts }))
}

/// Reads `len` bytes from `offset` on.
#[tactic(auto, unfolding(kernel_types::specs::Memories::mem_read))]
pub fn mem_read_call<C: CoreChanges>(
    core: &C,
    app: u32,
    handle: u32,
    offset: u32,
    len: u32,
) -> Result<CallOutcome, NoMemory>
    ensures { IfOk result (λ told. outcome told (C.state core.now) ≡ mem_read (C.state core.now) app handle offset len) }
{
    let Some(entry) = core.entry(app, handle) else {
        return Ok(refuses(Errno::BadHandle));
    };
    read_from(core, entry.object, offset, len)
}

fn is_writable(flags: MemFlags) -> bool
    ensures { result ≡ is_writable flags }
{
    flags.0 & 1 != 0
}

fn write_to<C: CoreChanges>(
    core: &mut C,
    object: u64,
    offset: u32,
    bytes: &Bytes,
) -> Result<CallOutcome, NoMemory>
    ensures ok { IfOk result (λ told. outcome told (C.state core.new) ≡ mem_write_of (C.state core.old) object (memory_of (C.state core.old).objects object) offset bytes.now) }
    ensures err { OnErr result (C.state core.new ≡ C.state core.old) }
{
    let Some(memory) = core.memory(object) else {
        return Ok(refuses(Errno::InvalidArgs));
    };
    if !is_range(memory.len, offset, bytes.len()) {
        return Ok(refuses(Errno::InvalidArgs));
    }
    if !is_writable(memory.flags) {
        return Ok(refuses(Errno::AccessDenied));
    }
    core.write_memory(object, offset, bytes)?;
    Ok(gives(Reply::Done))
}

/// Overwrites bytes from `offset` on.
#[tactic(auto, unfolding(kernel_types::specs::Memories::mem_write))]
pub fn mem_write_call<C: CoreChanges>(
    core: &mut C,
    app: u32,
    handle: u32,
    offset: u32,
    bytes: &Bytes,
) -> Result<CallOutcome, NoMemory>
    ensures ok { IfOk result (λ told. outcome told (C.state core.new) ≡ mem_write (C.state core.old) app handle offset bytes.now) }
    ensures err { OnErr result (C.state core.new ≡ C.state core.old) }
{
    let Some(entry) = core.entry(app, handle) else {
        return Ok(refuses(Errno::BadHandle));
    };
    write_to(core, entry.object, offset, bytes)
}
