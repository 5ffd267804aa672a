//! The frames of a connection that carries one request and one reply, byte for byte, and the faults.
use kernel_values::{Bytes, NoMemory};
use std::alloc::Global;
use std::test::Fail;
use tipc_proto::{
    Control, Frame, FrameFault, PathName, control_of, frame_of, write_control, write_frame,
};

/// The frame that carries a payload.
fn sent(alloc: Global, src: u32, dst: u32, payload: &[u8]) -> Result<Bytes, NoMemory> {
    let Ok(len) = u16::try_from(payload.len()) else {
        return Err(NoMemory);
    };
    let frame = Frame {
        src,
        dst,
        reserved: 0,
        len,
        flags: 0,
    };
    write_frame(alloc, &frame, payload)
}

/// The frame that carries a control message.
fn sent_control(alloc: Global, src: u32, control: &Control) -> Result<Bytes, NoMemory> {
    let payload = write_control(alloc, control)?;
    sent(alloc, src, 53, payload.as_slice())
}

#[test]
fn going_online_has_eight_bytes(rt: HostRuntime) -> Result<(), Fail> {
    let payload = write_control(rt.alloc(), &Control::GoOnline)?;
    assert!(rt; payload.as_slice() == [1, 0, 0, 0, 0, 0, 0, 0].as_slice());
    let frame = sent_control(rt.alloc(), 53, &Control::GoOnline)?;
    let expected = [
        0x35, 0, 0, 0, 0x35, 0, 0, 0, 0, 0, 0, 0, 8, 0, 0, 0, 1, 0, 0, 0, 0, 0, 0, 0,
    ];
    assert!(rt; frame.as_slice() == expected.as_slice());
    Ok(())
}

#[test]
fn a_request_fills_the_name_with_zeros(rt: HostRuntime) -> Result<(), Fail> {
    let path = PathName::of(b"com.example.echo.srv").ok_or("no path")?;
    let frame = sent_control(rt.alloc(), 1024, &Control::ConnReq { path })?;
    let head = [
        0, 4, 0, 0, 0x35, 0, 0, 0, 0, 0, 0, 0, 8, 1, 0, 0, 3, 0, 0, 0, 0, 1, 0, 0,
    ];
    let mut expected = head.to_vec(rt.alloc())?;
    expected.extend_from_slice(b"com.example.echo.srv")?;
    for _zero in 0..236 {
        expected.push(0)?;
    }
    assert!(rt; frame.as_slice() == expected.as_slice());
    Ok(())
}

#[test]
fn an_answer_has_five_numbers(rt: HostRuntime) -> Result<(), Fail> {
    let answer = Control::ConnRsp {
        target: 1024,
        status: 0,
        remote: 1000,
        size: 256,
        count: 4,
    };
    let frame = sent_control(rt.alloc(), 53, &answer)?;
    let expected = [
        0x35, 0, 0, 0, 0x35, 0, 0, 0, 0, 0, 0, 0, 0x1c, 0, 0, 0, 4, 0, 0, 0, 0x14, 0, 0, 0, 0, 4,
        0, 0, 0, 0, 0, 0, 0xe8, 3, 0, 0, 0, 1, 0, 0, 4, 0, 0, 0,
    ];
    assert!(rt; frame.as_slice() == expected.as_slice());
    Ok(())
}

#[test]
fn bytes_go_behind_the_header(rt: HostRuntime) -> Result<(), Fail> {
    let request = sent(rt.alloc(), 1024, 1000, [0x41; 100].as_slice())?;
    let reply = sent(rt.alloc(), 1000, 1024, [0x42; 100].as_slice())?;
    let mut expected = [0, 4, 0, 0, 0xe8, 3, 0, 0, 0, 0, 0, 0, 0x64, 0, 0, 0].to_vec(rt.alloc())?;
    expected.extend_from_slice([0x41; 100].as_slice())?;
    assert!(rt; request.as_slice() == expected.as_slice());
    let mut expected = [0xe8, 3, 0, 0, 0, 4, 0, 0, 0, 0, 0, 0, 0x64, 0, 0, 0].to_vec(rt.alloc())?;
    expected.extend_from_slice([0x42; 100].as_slice())?;
    assert!(rt; reply.as_slice() == expected.as_slice());
    Ok(())
}

#[test]
fn an_end_names_one_address(rt: HostRuntime) -> Result<(), Fail> {
    let frame = sent_control(rt.alloc(), 1024, &Control::DiscReq { target: 1000 })?;
    let expected = [
        0, 4, 0, 0, 0x35, 0, 0, 0, 0, 0, 0, 0, 0xc, 0, 0, 0, 5, 0, 0, 0, 4, 0, 0, 0, 0xe8, 3, 0, 0,
    ];
    assert!(rt; frame.as_slice() == expected.as_slice());
    let header = frame_of(frame.as_slice())?;
    assert!(rt; header.src == 1024 && header.dst == 53 && header.len == 12);
    let control = control_of(&expected[16..]);
    assert!(rt; matches!(control, Ok(Control::DiscReq { target: 1000 })));
    Ok(())
}

#[test]
fn the_first_fault_is_answered(rt: HostRuntime) -> Result<(), Fail> {
    assert!(rt; frame_of([0; 15].as_slice()) == Err(FrameFault::Short));
    assert!(rt; frame_of([0; 17].as_slice()) == Err(FrameFault::Length));
    assert!(rt; matches!(control_of([0; 7].as_slice()), Err(FrameFault::Short)));
    assert!(rt; matches!(control_of([0; 8].as_slice()), Err(FrameFault::UnknownType)));
    let short = [5, 0, 0, 0, 4, 0, 0, 0, 9];
    assert!(rt; matches!(control_of(short.as_slice()), Err(FrameFault::BodyLength)));
    let long = [2, 0, 0, 0, 1, 0, 0, 0, 9];
    assert!(rt; matches!(control_of(long.as_slice()), Err(FrameFault::BodyLength)));
    Ok(())
}

/// The answer to a request whose name begins with these bytes, of which there are at most 256.
fn name_fault(alloc: Global, front: &[u8]) -> Result<Result<Control, FrameFault>, Fail> {
    let mut payload = [3, 0, 0, 0, 0, 1, 0, 0].to_vec(alloc)?;
    payload.extend_from_slice(front)?;
    for _zero in front.len()..256 {
        payload.push(0)?;
    }
    Ok(control_of(payload.as_slice()))
}

#[test]
fn a_name_breaks_where_no_path_goes_on(rt: HostRuntime) -> Result<(), Fail> {
    let alloc = rt.alloc();
    assert!(rt; matches!(name_fault(alloc, b"")?, Err(FrameFault::Name(0))));
    assert!(rt; matches!(name_fault(alloc, b"a b")?, Err(FrameFault::Name(1))));
    assert!(rt; matches!(name_fault(alloc, b"ab\0\0c")?, Err(FrameFault::Name(4))));
    assert!(rt;
        matches!(
            name_fault(alloc, [0x61; 64].as_slice())?,
            Err(FrameFault::Name(63))
        )
    );
    assert!(rt;
        matches!(
            name_fault(alloc, [0x61; 63].as_slice())?,
            Ok(Control::ConnReq { .. })
        )
    );
    Ok(())
}
