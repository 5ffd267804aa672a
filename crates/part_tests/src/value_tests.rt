//! Lists and scripts, each call once with ample memory.

use kernel_values::{Call, Command, Copied, INVALID_IPC_HANDLE, Items, RegRead, Script};
use std::test::Fail;

// Each call of a list, with ample memory.
#[test]
fn list_grows_and_is_read(rt: HostRuntime) -> Result<(), Fail> {
    let mut list: Items<u32> = Items::new(rt.alloc());
    assert!(rt; list.is_empty());
    list.push(5)?;
    list.push(7)?;
    list.insert(1, 6)?;
    assert_eq!(rt; list.as_slice(), [5, 6, 7].as_slice());
    assert_eq!(rt; list.get(2), Some(&7));
    assert_eq!(rt; list.get(3), None);
    if let Some(item) = list.get_mut(0) {
        *item = 4;
    }
    let copy = list.copied()?;
    assert_eq!(rt; copy.as_slice(), [4, 6, 7].as_slice());
    assert_eq!(rt; copy.len(), 3);
    Ok(())
}

#[test]
fn list_of_what_is_there(rt: HostRuntime) -> Result<(), Fail> {
    let bytes = Items::from_slice(rt.alloc(), b"ab")?;
    assert_eq!(rt; bytes.as_slice(), b"ab".as_slice());
    let numbers = Items::from_vec(vec![in rt.alloc(); 1u32, 2]?);
    assert_eq!(rt; numbers.as_slice(), [1, 2].as_slice());
    Ok(())
}

// A copied script has the commands of its original.
#[test]
fn script_keeps_its_commands(rt: HostRuntime) -> Result<(), Fail> {
    let mut reads = Items::new(rt.alloc());
    reads.push(RegRead { place: 0, reg: 63 })?;
    let mut script = Script::new(rt.alloc());
    script.push(Command {
        call: Call::Close {
            handle: INVALID_IPC_HANDLE,
        },
        reads,
        sets: Items::new(rt.alloc()),
    })?;
    let copy = script.copied()?;
    assert_eq!(rt; copy.as_slice().len(), 1);
    for command in copy.as_slice() {
        assert!(rt;
            matches!(
                command.call,
                Call::Close {
                    handle: INVALID_IPC_HANDLE
                }
            )
        );
        assert_eq!(rt;
            command.reads.as_slice(),
            [RegRead { place: 0, reg: 63 }].as_slice()
        );
    }
    Ok(())
}
