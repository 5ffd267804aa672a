//! Handle tables.

use handle_table::{DupRefused, Full, Slot, Table};
use object_store::ObjKey;

// All 64 numbers come in order, then the table is full, and a number taken is given again.
#[test]
fn least_free_number(rt: HostRuntime) {
    let mut table = Table::new();
    let key = ObjKey { slot: 0, serial: 9 };
    for expected in 0..64u32 {
        assert_eq!(rt; table.install(key), Ok(expected));
    }
    assert_eq!(rt; table.free(), 0);
    assert_eq!(rt; table.install(key), Err(Full));
    assert_eq!(rt; table.dup(3), Err(DupRefused::Full));
    assert_eq!(rt; table.take(5), Some(Slot { key, cookie: 0 }));
    assert_eq!(rt; table.take(5), None);
    assert_eq!(rt; table.install(key), Ok(5));
}

// A number doubled names the same object with cookie 0; cookies stay with their numbers.
#[test]
fn doubled_number(rt: HostRuntime) {
    let mut table = Table::new();
    let key = ObjKey { slot: 2, serial: 7 };
    assert_eq!(rt; table.dup(0), Err(DupRefused::BadHandle));
    assert_eq!(rt; table.install(key), Ok(0));
    assert!(rt; table.set_cookie(0, 11));
    assert!(rt; !table.set_cookie(1, 11));
    assert_eq!(rt; table.dup(0), Ok(1));
    assert_eq!(rt; table.get(0), Some(Slot { key, cookie: 11 }));
    assert_eq!(rt; table.get(1), Some(Slot { key, cookie: 0 }));
    assert_eq!(rt; table.get(64), None);
}

// The next number in use, from the least one on.
#[test]
fn next_number(rt: HostRuntime) {
    let mut table = Table::new();
    let key = ObjKey { slot: 0, serial: 1 };
    assert_eq!(rt; table.next_after(None), None);
    assert_eq!(rt; table.install(key), Ok(0));
    assert_eq!(rt; table.install(key), Ok(1));
    assert_eq!(rt; table.install(key), Ok(2));
    let _ = table.take(1);
    assert_eq!(rt; table.next_after(None), Some(0));
    assert_eq!(rt; table.next_after(Some(0)), Some(2));
    assert_eq!(rt; table.next_after(Some(2)), None);
    assert_eq!(rt; table.next_after(Some(63)), None);
    table.sound();
}
