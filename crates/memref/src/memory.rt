// A memory reference's bytes and flag.
ghost use Rattle.std.specs.Prelude.{◌≡◌, ◌+◌, ◌≤◌, ◌↔◌, length, take, drop, replicate, vec_len, false, IfOk, OnOk, OnErr};
ghost use Rattle.kernel_values.specs.declared.state.MemoryRef.{MemoryRef};
ghost use Rattle.kernel_types.specs.Memories.{is_lawful_size, overwritten, written};
ghost use Rattle.memref.specs.Ranges.{read_refusal, write_refusal, answer_of};

use bitflags::Flags;
use kernel_values::{Errno, MemFlags};
use std::alloc::{AllocError, Global};
use std::marker::Model;

/// The most bytes that a memory reference has.
pub const MEMORY_LIMIT: u32 = 65_536;

/// A memory reference: 1 to `MEMORY_LIMIT` bytes, and whether they may be written.
#[derive(Drop)]
pub struct MemRef {
    bytes: Vec<u8>,
    flags: MemFlags,
}

impl Model for MemRef {
    ghost use Rattle.std.specs.Prelude.{IsTrue, vec_len};
    ghost use Rattle.kernel_values.specs.declared.state.MemoryRef.{MemoryRef};
    ghost use Rattle.kernel_types.specs.Memories.{is_lawful_size};

    ghost Value = { MemoryRef };

    ghost view = { λ m. record { bytes = m.bytes.items; flags = m.flags } };

    ghost invariant = { λ m. IsTrue (is_lawful_size (vec_len m.bytes)) };
}

/// Why no memory reference was made.
#[derive(Debug, Clone, Copy, PartialEq, Eq)]
pub enum MemRefused {
    /// The size is not 1 to `MEMORY_LIMIT`.
    InvalidArgs,
    /// Memory for the bytes was refused.
    NoMemory,
}

impl From<AllocError> for MemRefused {
    ghost use Rattle.memref.specs.declared.memory.MemRefused.{MemRefused};

    ghost from_gives = { λ _ r. r ≡ MemRefused.NoMemory };

    fn from(_: AllocError) -> Self {
        MemRefused::NoMemory
    }
}

// So many bytes, all of them zero.
fn zeros(alloc: Global, count: usize) -> Result<Vec<u8>, AllocError>
    ensures bytes { IfOk result (λ bytes. bytes.items ≡ replicate count 0) }
    ensures len { IfOk result (λ bytes. vec_len bytes ≡ count) }
{
    vec![in alloc; 0u8; count]
}

// Writes the bytes over those that stand from `at` on.
fn overwrite(memory: &mut [u8], at: usize, bytes: &[u8])
    requires { at + length bytes.now ≤ length memory.old }
    ensures { memory.new ≡ overwritten at bytes.now memory.old }
{
    memory[at..at + bytes.len()].copy_from_slice(bytes);
}

impl MemRef {
    /// A reference to `size` new bytes, which are zero.
    pub fn new(alloc: Global, size: u32, flags: MemFlags) -> Result<MemRef, MemRefused>
        ensures made { IfOk result (λ memory. memory ≡ record { bytes = replicate size 0; flags = flags }) }
        ensures invalid { (result ≡ Err MemRefused.InvalidArgs) ↔ (is_lawful_size size ≡ false) }
    {
        if size == 0 || size > MEMORY_LIMIT {
            return Err(MemRefused::InvalidArgs);
        }
        Ok(MemRef {
            bytes: zeros(alloc, size as usize)?,
            flags,
        })
    }

    /// How many bytes it has: 1 to `MEMORY_LIMIT`.
    pub fn size(&self) -> u32
        ensures { result ≡ length self.now.bytes }
    {
        self.bytes.len() as u32
    }

    /// Reads the bytes from `offset` on, as many as `out` has. Refused with `InvalidArgs` where
    /// they end past the size; `out` is then as before.
    pub fn read_into(&self, offset: u32, out: &mut [u8]) -> Result<(), Errno>
        ensures answer { result ≡ answer_of (read_refusal self.now offset (length out.old)) }
        ensures read { OnOk result (out.new ≡ take (length out.old) (drop offset self.now.bytes)) }
        ensures kept { OnErr result (out.new ≡ out.old) }
    {
        let at = offset as usize;
        if at > self.bytes.len() || out.len() > self.bytes.len() - at {
            return Err(Errno::InvalidArgs);
        }
        let (_, rest) = self.bytes.as_slice().split_at(at);
        let (bytes, _) = rest.split_at(out.len());
        out.copy_from_slice(bytes);
        Ok(())
    }

    /// Writes the bytes from `offset` on. Refused with `InvalidArgs` where they end past the
    /// size, and then with `AccessDenied` where the reference is not writable; the memory is
    /// then as before.
    pub fn write(&mut self, offset: u32, bytes: &[u8]) -> Result<(), Errno>
        ensures answer { result ≡ answer_of (write_refusal self.old offset (length bytes.now)) }
        ensures written { OnOk result (self.new ≡ written offset bytes.now self.old) }
        ensures kept { OnErr result (self.new ≡ self.old) }
    {
        let at = offset as usize;
        if at > self.bytes.len() || bytes.len() > self.bytes.len() - at {
            return Err(Errno::InvalidArgs);
        }
        if !self.flags.contains(MemFlags::WRITE) {
            return Err(Errno::AccessDenied);
        }
        overwrite(self.bytes.as_mut_slice(), at, bytes);
        Ok(())
    }
}
