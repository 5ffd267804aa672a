//! Message slots.

use msg_queue::{Full, Opened, Queue};
use object_store::{ObjKey, Parts};
use std::test::Fail;

// One slot: a message fills it, is opened and retired, and the next one has the next number.
#[test]
fn one_slot(rt: HostRuntime) -> Result<(), Fail> {
    let mut queue = Queue::new(rt.alloc(), 1, 4)?;
    let none = Parts::new();
    assert_eq!(rt; queue.push(b"ping", &none), Ok(0));
    assert_eq!(rt; queue.push(b"pong", &none), Err(Full));
    assert_eq!(rt;
        queue.open_next(),
        Some(Opened {
            id: 1,
            len: 4,
            parts: 0,
            seq: 0
        })
    );
    assert_eq!(rt; queue.open_next(), None);
    let retired = queue.retire(1).ok_or("nothing")?;
    assert_eq!(rt; retired.seq, 0);
    assert!(rt; queue.retire(1).is_none());
    assert_eq!(rt; queue.push(b"pong", &none), Ok(1));
    assert_eq!(rt; queue.slots(), 1);
    assert_eq!(rt; queue.size(), 4);
    Ok(())
}

// Messages are opened in order, each under the least free id, and read in parts.
#[test]
fn ids_and_parts(rt: HostRuntime) -> Result<(), Fail> {
    let mut queue = Queue::new(rt.alloc(), 3, 8)?;
    let mut keys = Parts::new();
    keys.push(ObjKey { slot: 0, serial: 6 });
    assert_eq!(rt; queue.push(b"first", &keys), Ok(0));
    assert_eq!(rt; queue.push(b"second", &Parts::new()), Ok(1));
    let mut out = [0u8; 4];
    assert_eq!(rt; queue.peek(&mut out), Some(5));
    assert_eq!(rt; out, [102, 105, 114, 115]);
    assert_eq!(rt;
        queue.open_next(),
        Some(Opened {
            id: 1,
            len: 5,
            parts: 1,
            seq: 0
        })
    );
    assert_eq!(rt;
        queue.open_next(),
        Some(Opened {
            id: 2,
            len: 6,
            parts: 0,
            seq: 1
        })
    );
    assert_eq!(rt; queue.filled(), 0);
    assert_eq!(rt; queue.opened(), 2);
    assert_eq!(rt; queue.read(2, 4, &mut out), Some(2));
    assert_eq!(rt; out, [110, 100, 114, 115]);
    assert_eq!(rt; queue.read(2, 6, &mut out), Some(0));
    assert_eq!(rt; queue.read(2, 7, &mut out), None);
    assert_eq!(rt; queue.read(3, 0, &mut out), None);
    let parts = queue.parts(1).ok_or("nothing")?;
    assert_eq!(rt; parts.len(), 1);
    Ok(())
}

// The id of a retired message is given again.
#[test]
fn least_free_id(rt: HostRuntime) -> Result<(), Fail> {
    let mut queue = Queue::new(rt.alloc(), 2, 8)?;
    let none = Parts::new();
    assert_eq!(rt; queue.push(b"a", &none), Ok(0));
    assert_eq!(rt; queue.push(b"b", &none), Ok(1));
    assert_eq!(rt;
        queue.open_next(),
        Some(Opened {
            id: 1,
            len: 1,
            parts: 0,
            seq: 0
        })
    );
    assert_eq!(rt;
        queue.open_next(),
        Some(Opened {
            id: 2,
            len: 1,
            parts: 0,
            seq: 1
        })
    );
    assert!(rt; queue.retire(1).is_some());
    assert_eq!(rt; queue.push(b"", &none), Ok(2));
    assert_eq!(rt;
        queue.open_next(),
        Some(Opened {
            id: 1,
            len: 0,
            parts: 0,
            seq: 2
        })
    );
    Ok(())
}
