//! Counted objects and lists of keys.

use object_store::{ObjKey, Parts, Store};
use std::test::Fail;

// The life of one value: put, named, unnamed twice.
#[test]
fn last_name_hands_back(rt: HostRuntime) -> Result<(), Fail> {
    let mut store = Store::new(rt.alloc());
    let key = store.put(7u32)?;
    assert_eq!(rt; key.serial, 0);
    assert_eq!(rt; store.names(key), 1);
    store.name(key);
    assert_eq!(rt; store.names(key), 2);
    assert_eq!(rt; store.total(), 2);
    assert_eq!(rt; store.unname(key), None);
    assert_eq!(rt; store.get(key).copied(), Some(7));
    assert_eq!(rt; store.unname(key), Some(7));
    assert!(rt; !store.lives(key));
    assert_eq!(rt; store.len(), 0);
    Ok(())
}

// After room is made for one value, one put succeeds.
#[test]
fn reserved_place(rt: HostRuntime) -> Result<(), Fail> {
    let mut store = Store::new(rt.alloc());
    store.reserve(1)?;
    let key = store.put(5u32)?;
    assert_eq!(rt; store.key_of(0), Some(key));
    assert_eq!(rt; store.key_of(1), None);
    Ok(())
}

// A value written through its reference is read again, and a serial number is not given twice.
#[test]
fn written_value(rt: HostRuntime) -> Result<(), Fail> {
    let mut store = Store::new(rt.alloc());
    let first = store.put(1u32)?;
    let second = store.put(2u32)?;
    if let Some(value) = store.get_mut(second) {
        *value = 9;
    }
    assert_eq!(rt; store.get(second).copied(), Some(9));
    assert_eq!(rt; store.unname(first), Some(1));
    let third = store.put(3u32)?;
    assert_eq!(rt; third.serial, 2);
    assert_eq!(rt; third.slot, first.slot);
    assert_eq!(rt; store.get(first).copied(), None);
    assert_eq!(rt; store.get(ObjKey { slot: 9, serial: 1 }).copied(), Some(9));
    store.sound();
    Ok(())
}

// Keys stand in the order in which they came.
#[test]
fn keys_in_order(rt: HostRuntime) {
    let mut parts = Parts::new();
    parts.push(ObjKey { slot: 0, serial: 4 });
    parts.push(ObjKey { slot: 0, serial: 2 });
    let copy = parts.copied();
    assert_eq!(rt; copy.as_slice().len(), 2);
    assert_eq!(rt; copy.as_slice()[1].serial, 2);
}
