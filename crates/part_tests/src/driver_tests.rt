//! A request for a connection and messages over it, with a device that is played by hand: the frames byte for byte.
ghost use Rattle.std.specs.Prelude.{◌≡◌, ◌+◌, ◌<◌, ◌≤◌, Some, None, IfOk, length, vec_len};
ghost use Rattle.kernel_types.specs.GuestMemory.{blank_memory};
ghost use Rattle.ns_driver.specs.Value.{wait_of};
ghost use Rattle.ns_driver.specs.Acts.{MayAct};

use kernel_values::{Answer, Call, Errno, Items, NoMemory, Reply, Timeout};
use ns_driver::Driver;
use std::alloc::{AllocError, Global};
use std::test::Fail;
use virtqueue::{MEMORY_SIZE, Queue, push_used};

/// The memory that a driver begins with.
#[tactic(auto, using(ns_driver::proofs::Opening::blank_zeros))]
fn blank(alloc: Global, len: usize) -> Result<Vec<u8>, AllocError>
    requires { len ≡ MEMORY_SIZE }
    ensures zeros { IfOk result (λ bytes. bytes.items ≡ blank_memory) }
    ensures long { IfOk result (λ bytes. vec_len bytes ≡ MEMORY_SIZE) }
{
    vec![in alloc; 0u8; len]
}

/// A client's call.
fn call(driver: &mut Driver, mem: &mut [u8], client: u32, call: Call) -> Result<Answer, NoMemory>
    requires memory { length mem.old ≡ MEMORY_SIZE }
    requires client { client < length driver.old.waits }
    requires lawful { MayAct driver.old.driver None (Some call) }
    ensures { length driver.new.waits ≡ length driver.old.waits }
{
    driver.act(mem, client, Some(call))
}

/// The end of a client's wait, where it waits.
fn resume(driver: &mut Driver, mem: &mut [u8], client: u32) -> Result<Option<Answer>, NoMemory>
    requires memory { length mem.old ≡ MEMORY_SIZE }
    requires client { client < length driver.old.waits }
    ensures { length driver.new.waits ≡ length driver.old.waits }
{
    if driver.wait_of(client).is_none() {
        return Ok(None);
    }
    Ok(Some(driver.act(mem, client, None)?))
}

/// A queue as the device sees it, which keeps no place in it.
fn ring(index: u32, n: u32) -> Queue
    ensures { result ≡ record { index = index; n = n; position = 0; used = 0 } }
{
    Queue {
        index,
        n,
        position: 0,
        used: 0,
    }
}

/// The device puts a frame into a buffer of queue 0, and says so in the used ring.
fn deliver(mem: &mut [u8], q: &mut Queue, place: u16, frame: &[u8])
    requires memory { length mem.old ≡ MEMORY_SIZE }
    requires index { q.old.index ≡ 0 }
    requires n { q.old.n ≡ 16 }
    requires place { place < 16 }
    requires frame { length frame.now ≤ 64 }
    ensures index { q.new.index ≡ 0 }
    ensures n { q.new.n ≡ 16 }
{
    let at = 0x40000 + 0x2000 * place as usize;
    mem[at..at + frame.len()].copy_from_slice(frame);
    push_used(mem, q, place, frame.len() as u32);
}

const REQUEST: [u8; 24] = [
    0, 4, 0, 0, 53, 0, 0, 0, 0, 0, 0, 0, 8, 1, 0, 0, 3, 0, 0, 0, 0, 1, 0, 0,
];

const ANSWER: [u8; 44] = [
    53, 0, 0, 0, 53, 0, 0, 0, 0, 0, 0, 0, 28, 0, 0, 0, 4, 0, 0, 0, 20, 0, 0, 0, 0, 4, 0, 0, 0, 0,
    0, 0, 232, 3, 0, 0, 0, 1, 0, 0, 4, 0, 0, 0,
];

const SENT: [u8; 18] = [0, 4, 0, 0, 232, 3, 0, 0, 0, 0, 0, 0, 2, 0, 0, 0, 65, 66];

const LEFT: [u8; 28] = [
    0, 4, 0, 0, 53, 0, 0, 0, 0, 0, 0, 0, 12, 0, 0, 0, 5, 0, 0, 0, 4, 0, 0, 0, 232, 3, 0, 0,
];

///! A request for a connection: the frame's header, the message's, and a path with zeros behind it.
fn request() -> [u8; 280] {
    let mut frame = [0u8; 280];
    frame[0..24].copy_from_slice(&REQUEST);
    frame[24..44].copy_from_slice(b"com.example.echo.srv");
    frame
}

/// A frame of one byte from the device.
fn came(byte: u8) -> [u8; 17] {
    [232, 3, 0, 0, 0, 4, 0, 0, 0, 0, 0, 0, 1, 0, 0, 0, byte]
}

#[test]
fn the_opening_gives_each_buffer(rt: HostRuntime) -> Result<(), Fail> {
    let mut mem = blank(rt.alloc(), MEMORY_SIZE)?;
    let driver = Driver::new(rt.alloc(), &mut mem, 2, 1)?;
    assert!(rt; driver.wait_of(0).is_none());
    let first = [0u8, 0, 4, 0, 0, 0, 0, 0, 0, 32, 0, 0, 2, 0, 0, 0];
    let second = [0u8, 32, 4, 0, 0, 0, 0, 0, 0, 32, 0, 0, 2, 0, 0, 0];
    assert_eq!(rt; &mem[0..16], first.as_slice());
    assert_eq!(rt; &mem[16..32], second.as_slice());
    assert_eq!(rt; &mem[0x1002..0x1008], [2u8, 0, 0, 0, 1, 0].as_slice());
    Ok(())
}

/// A driver with two clients, of which the first asked for a connection.
fn asking(alloc: Global, mem: &mut [u8]) -> Result<Driver, NoMemory>
    requires zeros { mem.old ≡ blank_memory }
    requires long { length mem.old ≡ MEMORY_SIZE }
    ensures { IfOk result (λ driver. length driver.waits ≡ 2) }
{
    let mut driver = Driver::new(alloc, mem, 16, 2)?;
    let path = Items::from_slice(alloc, b"com.example.echo.srv")?;
    let _waits = call(&mut driver, mem, 0, Call::NsConnect { path })?;
    Ok(driver)
}

#[test]
fn an_answer_ends_the_wait_of_a_request(rt: HostRuntime) -> Result<(), Fail> {
    let mut mem = blank(rt.alloc(), MEMORY_SIZE)?;
    let mut driver = asking(rt.alloc(), &mut mem)?;
    assert_eq!(rt; &mem[0x80000..0x80118], request().as_slice());
    assert!(rt; !driver.movable(&mem, 0));
    deliver(&mut mem, &mut ring(0, 16), 0, &ANSWER);
    assert!(rt; driver.movable(&mem, 0));
    let answered = resume(&mut driver, &mut mem, 0)?;
    assert!(rt; matches!(answered, Some(Answer::Gives(Reply::Conn(1024)))));
    Ok(())
}

#[test]
fn an_index_too_far_ahead_counts_as_seen(rt: HostRuntime) -> Result<(), Fail> {
    let mut mem = blank(rt.alloc(), MEMORY_SIZE)?;
    let mut driver = asking(rt.alloc(), &mut mem)?;
    let mut q = Queue {
        index: 0,
        n: 16,
        position: 0,
        used: 16,
    };
    deliver(&mut mem, &mut q, 0, &ANSWER);
    let unseen = resume(&mut driver, &mut mem, 0)?;
    deliver(&mut mem, &mut q, 0, &ANSWER);
    let seen = resume(&mut driver, &mut mem, 0)?;
    assert!(rt; matches!(unseen, Some(Answer::Waits)));
    assert!(rt; matches!(seen, Some(Answer::Gives(Reply::Conn(1024)))));
    Ok(())
}

/// The same, once the connection is there; and the device's side of queue 0.
fn connected(alloc: Global, mem: &mut [u8]) -> Result<(Driver, Queue), NoMemory>
    requires zeros { mem.old ≡ blank_memory }
    requires long { length mem.old ≡ MEMORY_SIZE }
    ensures clients { IfOk result (λ made. length made.0.waits ≡ 2) }
    ensures index { IfOk result (λ made. made.1.index ≡ 0) }
    ensures n { IfOk result (λ made. made.1.n ≡ 16) }
{
    let mut driver = asking(alloc, mem)?;
    let mut q = ring(0, 16);
    deliver(mem, &mut q, 0, &ANSWER);
    let _answered = resume(&mut driver, mem, 0)?;
    Ok((driver, q))
}

#[test]
fn bytes_go_out(rt: HostRuntime) -> Result<(), Fail> {
    let alloc = rt.alloc();
    let mut mem = blank(alloc, MEMORY_SIZE)?;
    let (mut driver, _q) = connected(alloc, &mut mem)?;
    let bytes = Items::from_slice(alloc, b"AB")?;
    let sent = call(&mut driver, &mut mem, 0, Call::NsSend { conn: 1024, bytes })?;
    assert!(rt; matches!(sent, Answer::Gives(Reply::Count(2))));
    assert_eq!(rt; &mem[0x82000..0x82012], SENT.as_slice());
    Ok(())
}

/// A receive of the first client.
fn receive(driver: &mut Driver, mem: &mut [u8]) -> Result<Answer, NoMemory>
    requires memory { length mem.old ≡ MEMORY_SIZE }
    requires clients { length driver.old.waits ≡ 2 }
    ensures { length driver.new.waits ≡ 2 }
{
    let conn = 1024;
    let timeout = Timeout::Forever;
    call(driver, mem, 0, Call::NsRecv { conn, timeout })
}

fn are_bytes(answer: &Option<Answer>, wanted: &[u8]) -> bool {
    match answer {
        Some(Answer::Gives(Reply::Bytes { bytes, .. })) => bytes.as_slice() == wanted,
        _ => false,
    }
}

#[test]
fn the_oldest_bytes_come_first(rt: HostRuntime) -> Result<(), Fail> {
    let mut mem = blank(rt.alloc(), MEMORY_SIZE)?;
    let (mut driver, mut q) = connected(rt.alloc(), &mut mem)?;
    let none = receive(&mut driver, &mut mem)?;
    deliver(&mut mem, &mut q, 1, &came(67));
    deliver(&mut mem, &mut q, 2, &came(68));
    let first = resume(&mut driver, &mut mem, 0)?;
    let second = Some(receive(&mut driver, &mut mem)?);
    assert!(rt; matches!(none, Answer::Waits));
    assert!(rt; are_bytes(&first, b"C"));
    assert!(rt; are_bytes(&second, b"D"));
    Ok(())
}

/// The end of a connection by a client.
fn close(driver: &mut Driver, mem: &mut [u8], client: u32) -> Result<Answer, NoMemory>
    requires memory { length mem.old ≡ MEMORY_SIZE }
    requires client { client < length driver.old.waits }
    ensures { length driver.new.waits ≡ length driver.old.waits }
{
    call(driver, mem, client, Call::NsClose { conn: 1024 })
}

#[test]
fn only_its_client_closes_a_connection(rt: HostRuntime) -> Result<(), Fail> {
    let mut mem = blank(rt.alloc(), MEMORY_SIZE)?;
    let (mut driver, _q) = connected(rt.alloc(), &mut mem)?;
    let other = close(&mut driver, &mut mem, 1)?;
    push_used(&mut mem, &mut ring(1, 16), 0, 0);
    let closed = close(&mut driver, &mut mem, 0)?;
    let over = close(&mut driver, &mut mem, 0)?;
    assert!(rt; matches!(other, Answer::Refuses(Errno::BadHandle)));
    assert!(rt; matches!(closed, Answer::Gives(Reply::Done)));
    assert!(rt; matches!(over, Answer::Refuses(Errno::ChannelClosed)));
    assert_eq!(rt; &mem[0x80000..0x8001c], LEFT.as_slice());
    Ok(())
}
