//! The limits of a ring, each by its own content of memory.
ghost use Rattle.std.specs.Prelude.{◌≡◌, ◌<◌, IfOk, length, vec_len};

use byteorder::{ByteOrder, LittleEndian};
use std::alloc::{AllocError, Global};
use std::test::Fail;
use virtqueue::{
    MEMORY_SIZE, Queue, RingFault, chain_len, next_chain, publish, push_used, read_chain,
    write_chain,
};

fn zeros(alloc: Global, len: usize) -> Result<Vec<u8>, AllocError>
    ensures { IfOk result (λ bytes. vec_len bytes ≡ len) }
{
    vec![in alloc; 0u8; len]
}

fn queue(index: u32, n: u32) -> Queue
    ensures { result ≡ record { index = index; n = n; position = 0; used = 0 } }
{
    Queue {
        index,
        n,
        position: 0,
        used: 0,
    }
}

/// Writes a descriptor of queue 0.
fn describe(mem: &mut [u8], place: u16, addr: u32, len: u32, flags: u16, next: u16)
    requires memory { length mem.old ≡ MEMORY_SIZE }
    requires place { place < 256 }
{
    let at = 16 * place as usize;
    LittleEndian::write_u32(&mut mem[at..at + 4], addr);
    LittleEndian::write_u32(&mut mem[at + 4..at + 8], 0);
    LittleEndian::write_u32(&mut mem[at + 8..at + 12], len);
    LittleEndian::write_u16(&mut mem[at + 12..at + 14], flags);
    LittleEndian::write_u16(&mut mem[at + 14..at + 16], next);
}

#[test]
fn an_index_too_far_ahead_is_a_jump(rt: HostRuntime) -> Result<(), Fail> {
    let mut mem = zeros(rt.alloc(), MEMORY_SIZE)?;
    assert!(rt; matches!(next_chain(&mem, &queue(0, 256)), Ok(None)));
    LittleEndian::write_u16(&mut mem[0x1002..0x1004], 257);
    let found = next_chain(&mem, &queue(0, 256));
    assert!(rt; matches!(found, Err(RingFault::IndexJump(257))));
    Ok(())
}

#[test]
fn two_that_lead_to_each_other_are_too_long(rt: HostRuntime) -> Result<(), Fail> {
    let mut mem = zeros(rt.alloc(), MEMORY_SIZE)?;
    describe(&mut mem, 0, 0x40000, 16, 3, 1);
    describe(&mut mem, 1, 0x42000, 16, 3, 0);
    publish(&mut mem, &queue(0, 2), 0);
    let found = next_chain(&mem, &queue(0, 2));
    assert!(rt; matches!(found, Err(RingFault::TooLong(1))));
    Ok(())
}

#[test]
fn a_buffer_ends_within_memory(rt: HostRuntime) -> Result<(), Fail> {
    let mut mem = zeros(rt.alloc(), MEMORY_SIZE)?;
    describe(&mut mem, 5, 1_048_561, 16, 2, 0);
    publish(&mut mem, &queue(0, 8), 5);
    let found = next_chain(&mem, &queue(0, 8));
    assert!(rt; matches!(found, Err(RingFault::RangeOutside(5))));
    describe(&mut mem, 5, 1_048_560, 16, 2, 0);
    let found = next_chain(&mem, &queue(0, 8));
    let Ok(Some(chain)) = found else {
        return Err("no chain".into());
    };
    assert!(rt; chain.head == 5);
    assert!(rt; chain_len(&chain) == 16);
    Ok(())
}

#[test]
fn each_fault_names_its_place(rt: HostRuntime) -> Result<(), Fail> {
    let mut mem = zeros(rt.alloc(), MEMORY_SIZE)?;
    publish(&mut mem, &queue(0, 4), 4);
    let found = next_chain(&mem, &queue(0, 4));
    assert!(rt; matches!(found, Err(RingFault::HeadOutOfRange(4))));
    let mut mem = zeros(rt.alloc(), MEMORY_SIZE)?;
    describe(&mut mem, 2, 0x40000, 1, 3, 4);
    publish(&mut mem, &queue(0, 4), 2);
    let found = next_chain(&mem, &queue(0, 4));
    assert!(rt; matches!(found, Err(RingFault::NextOutOfRange(2))));
    describe(&mut mem, 2, 0x40000, 1, 0, 0);
    let found = next_chain(&mem, &queue(0, 4));
    assert!(rt; matches!(found, Err(RingFault::WrongDirection(2))));
    publish(&mut mem, &queue(1, 4), 0);
    LittleEndian::write_u16(&mut mem[0x300c..0x300e], 2);
    let found = next_chain(&mem, &queue(1, 4));
    assert!(rt; matches!(found, Err(RingFault::WrongDirection(0))));
    Ok(())
}

#[test]
fn a_chain_of_all_descriptors_is_lawful(rt: HostRuntime) -> Result<(), Fail> {
    let mut mem = zeros(rt.alloc(), MEMORY_SIZE)?;
    for place in 0..255u16 {
        describe(&mut mem, place, 0x40000, 1, 3, place + 1);
    }
    describe(&mut mem, 255, 0x40000, 1, 2, 0);
    publish(&mut mem, &queue(0, 256), 0);
    let Ok(Some(chain)) = next_chain(&mem, &queue(0, 256)) else {
        return Err("no chain".into());
    };
    assert!(rt; chain_len(&chain) == 256);
    Ok(())
}

#[test]
fn what_is_written_over_parts_is_read_again(rt: HostRuntime) -> Result<(), Fail> {
    let mut mem = zeros(rt.alloc(), MEMORY_SIZE)?;
    describe(&mut mem, 3, 0x40000, 2, 3, 1);
    describe(&mut mem, 1, 0x50000, 4, 2, 0);
    publish(&mut mem, &queue(0, 4), 3);
    let mut q = queue(0, 4);
    let Ok(Some(chain)) = next_chain(&mem, &q) else {
        return Err("no chain".into());
    };
    assert!(rt; !write_chain(&mut mem, &chain, b"seventh".as_slice()));
    assert!(rt; write_chain(&mut mem, &chain, b"fifth".as_slice()));
    let mut out = [b'.'; 8];
    assert!(rt; read_chain(&mem, &chain, &mut out) == 6);
    assert!(rt; out.as_slice() == b"fifth\0..".as_slice());
    push_used(&mut mem, &mut q, 3, 5);
    assert!(rt; q.position == 1);
    assert!(rt; matches!(next_chain(&mem, &q), Ok(None)));
    Ok(())
}
