//! Where input comes from and output goes.

use outside_io::{
    MemSink, MemSource, QuietSink, QuietSource, ReadRefused, Sink, Source, StdSink, StdSource,
    read_all, write_all,
};
use std::test::Fail;

#[test]
fn reads_all_pieces(rt: HostRuntime) -> Result<(), Fail> {
    let mut source = MemSource::new(rt.alloc(), b"scene 1\nqueues 4\n", 10, &[])?;
    let bytes = read_all(rt.alloc(), &mut source)?;
    assert!(rt; bytes.as_slice() == b"scene 1\nqueues 4\n".as_slice());
    Ok(())
}

// The first read gives ten bytes, and the second one fails.
#[test]
fn second_read_fails(rt: HostRuntime) -> Result<(), Fail> {
    let mut source = MemSource::new(rt.alloc(), b"scene 1\nqueues 4\n", 10, &[1])?;
    let read = read_all(rt.alloc(), &mut source);
    assert!(rt; matches!(read, Err(ReadRefused::Failed)));
    assert!(rt; source.faults() == 1);
    Ok(())
}

#[test]
fn quiet_source_gives_all(rt: HostRuntime) -> Result<(), Fail> {
    let mut source = QuietSource::new(rt.alloc(), b"abc", 1)?;
    let bytes = read_all(rt.alloc(), &mut source)?;
    assert!(rt; bytes.as_slice() == b"abc".as_slice());
    assert!(rt; source.faults() == 0);
    Ok(())
}

// The first write takes two bytes, and the second one fails.
#[test]
fn second_write_fails(rt: HostRuntime) -> Result<(), Fail> {
    let mut sink = MemSink::new(rt.alloc(), 7, 2, &[1])?;
    assert!(rt; write_all(&mut sink, b"history").is_err());
    assert!(rt; sink.written() == b"hi".as_slice());
    assert!(rt; sink.faults() == 1);
    Ok(())
}

#[test]
fn room_ends(rt: HostRuntime) -> Result<(), Fail> {
    let mut sink = QuietSink::new(rt.alloc(), 4)?;
    assert!(rt; write_all(&mut sink, b"hist").is_ok());
    assert!(rt; write_all(&mut sink, b"ory").is_err());
    assert!(rt; sink.written() == b"hist".as_slice());
    assert!(rt; sink.faults() == 1);
    Ok(())
}

#[test]
fn reads_a_reader(rt: HostRuntime) -> Result<(), Fail> {
    let mut source = StdSource::new(b"queues 4".as_slice());
    let bytes = read_all(rt.alloc(), &mut source)?;
    assert!(rt; bytes.as_slice() == b"queues 4".as_slice());
    Ok(())
}

#[test]
fn writes_to_a_writer(rt: HostRuntime) -> Result<(), Fail> {
    let mut sink = StdSink::new(Vec::new(rt.alloc()));
    assert!(rt; write_all(&mut sink, b"history").is_ok());
    Ok(())
}
