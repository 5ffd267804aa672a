//! Memory that handles refer to.

use kernel_values::{Errno, MemFlags};
use memref::{MemRef, MemRefused};
use std::test::Fail;

#[test]
fn new_bytes_are_zero_and_can_be_written(rt: HostRuntime) -> Result<(), Fail> {
    let mut memory = MemRef::new(rt.alloc(), 4, MemFlags::WRITE)?;
    let mut bytes = [9u8, 9, 9];
    assert!(rt; memory.write(0, &[1, 2]).is_ok());
    assert!(rt; memory.read_into(1, &mut bytes).is_ok());
    assert!(rt; bytes.as_slice() == [2, 0, 0].as_slice());
    assert!(rt; memory.size() == 4);
    Ok(())
}

// A range that ends past the size is refused before the flag is looked at.
#[test]
fn ranges_and_flags(rt: HostRuntime) -> Result<(), Fail> {
    let mut memory = MemRef::new(rt.alloc(), 2, MemFlags(0))?;
    let mut bytes = [9u8, 9];
    assert!(rt; memory.read_into(2, &mut []) == Ok(()));
    assert!(rt; memory.read_into(1, &mut bytes) == Err(Errno::InvalidArgs));
    assert!(rt; memory.write(1, &[1, 2]) == Err(Errno::InvalidArgs));
    assert!(rt; memory.write(1, &[1]) == Err(Errno::AccessDenied));
    Ok(())
}

#[test]
fn sizes(rt: HostRuntime) -> Result<(), Fail> {
    assert!(rt;
        matches!(
            MemRef::new(rt.alloc(), 0, MemFlags::WRITE),
            Err(MemRefused::InvalidArgs)
        )
    );
    assert!(rt;
        matches!(
            MemRef::new(rt.alloc(), 65_537, MemFlags::WRITE),
            Err(MemRefused::InvalidArgs)
        )
    );
    assert!(rt; MemRef::new(rt.alloc(), 65_536, MemFlags::WRITE)?.size() == 65_536);
    Ok(())
}
