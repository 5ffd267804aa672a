//! A caller of `memref`.

ghost use Rattle.std.specs.Prelude.{◌≡◌, drop, length, take, OnOk, OnErr};
ghost use Rattle.kernel_types.specs.Memories.{written};
ghost use Rattle.memref.specs.Ranges.{answer_of, write_refusal};

use kernel_values::Errno;
use memref::MemRef;

/// Writes bytes from `offset` on, and gives what stood there before in `before`, which is as long. Refused as a write is,
/// and the memory then stays.
pub fn exchange(
    memory: &mut MemRef,
    offset: u32,
    bytes: &[u8],
    before: &mut [u8],
) -> Result<(), Errno>
    requires { length before.old ≡ length bytes.now }
    ensures answer { result ≡ answer_of (write_refusal memory.old offset (length bytes.now)) }
    ensures before { OnOk result (before.new ≡ take (length bytes.now) (drop offset memory.old.bytes)) }
    ensures written { OnOk result (memory.new ≡ written offset bytes.now memory.old) }
    ensures kept { OnErr result (memory.new ≡ memory.old) }
{
    memory.read_into(offset, before)?;
    memory.write(offset, bytes)
}
