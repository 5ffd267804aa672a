//! The two lines by which a client goes past its driver: what they spell, and their faults.

use kernel_values::{Call, Copied};
use scene_reader::SceneKind::{BadByte, BadWords, OpenRepeat, OutOfPlace, TooMany, UnknownWord};
use scene_reader::{SceneFault, SceneKind, SceneRefused, read_scene};
use std::alloc::Global;
use std::process::Abort;
use std::test::Fail;

// The only call of the first client's script.
fn call_in(alloc: Global, text: &[u8]) -> Result<Call, Fail> {
    if text.len() > 4_194_304 {
        return Err("too long".into());
    }
    let scene = read_scene(alloc, text)?;
    let client = scene.clients.get(0).ok_or("a client")?;
    let [command] = client.script.as_slice() else {
        return Err("one call".into());
    };
    if command.reads.len() != 0 || command.sets.len() != 0 {
        return Err("no registers".into());
    }
    Ok(command.call.copied()?)
}

// The address is any number, and the bytes have every spelling.
#[test]
fn pokes(rt: HostRuntime) -> Result<(), Fail> {
    let rows = [
        (
            b"scene 1\nclient c\nnpoke 0 hex:".as_slice(),
            0,
            b"".as_slice(),
        ),
        (
            b"scene 1\nclient c\nnpoke 16386 hex:0aBc",
            16_386,
            b"\x0a\xbc",
        ),
        (b"scene 1\nclient c\n\tnpoke  007 text: ", 7, b""),
        (
            b"scene 1\nclient c\nnpoke 1048576 text:a:b$",
            1_048_576,
            b"a:b$",
        ),
        (
            b"scene 1\nclient c\nnpoke 4294967295 fill:3:255",
            4_294_967_295,
            b"\xff\xff\xff",
        ),
        (b"scene 1\nclient c\nnpoke 1 fill:0:7\r\n", 1, b""),
    ];
    for (text, addr, bytes) in rows {
        let Call::NsPoke {
            addr: spelled_addr,
            bytes: spelled,
        } = call_in(rt.alloc(), text)?
        else {
            return Err("no poke".into());
        };
        assert_eq!(rt; spelled_addr, addr);
        assert_eq!(rt; spelled.as_slice(), bytes);
    }
    Ok(())
}

// Both numbers are any: whether there is such a queue or head the call says.
#[test]
fn kicks(rt: HostRuntime) -> Result<(), Fail> {
    let rows = [
        (b"scene 1\nclient c\nnkick 0 7".as_slice(), 0, 7),
        (b"scene 1\nclient c\nnkick 1 65535", 1, 65_535),
        (b"scene 1\nclient c\nnkick 2 65536", 2, 65_536),
        (
            b"scene 1\nclient c\n nkick\t4294967295 0000000001 ",
            4_294_967_295,
            1,
        ),
    ];
    for (text, queue, head) in rows {
        let Call::NsKick {
            queue: spelled_queue,
            head: spelled_head,
        } = call_in(rt.alloc(), text)?
        else {
            return Err("no kick".into());
        };
        assert_eq!(rt; spelled_queue, queue);
        assert_eq!(rt; spelled_head, head);
    }
    Ok(())
}

fn fault_of(alloc: Global, text: &[u8]) -> Option<SceneFault> {
    if text.len() > 4_194_304 {
        return None;
    }
    match read_scene(alloc, text) {
        Err(SceneRefused::Fault(fault)) => Some(fault),
        _ => None,
    }
}

fn check_faults(rt: &impl Abort, alloc: Global, rows: &[(&[u8], SceneKind, u32)]) {
    for (text, kind, line) in rows {
        let due = SceneFault {
            kind: *kind,
            line: *line,
        };
        assert_eq!(rt; fault_of(alloc, text), Some(due));
    }
}

// A word that is not of its form, one that is missing, and one too many.
#[test]
fn bad_words(rt: HostRuntime) {
    let rows = [
        (b"scene 1\nclient c\nnpoke".as_slice(), BadWords, 3),
        (b"scene 1\nclient c\nnpoke 0", BadWords, 3),
        (b"scene 1\nclient c\nnpoke 0 hex: as k", BadWords, 3),
        (b"scene 1\nclient c\nnpoke 0 hex:00 0", BadWords, 3),
        (b"scene 1\nclient c\nnpoke $k hex:00", BadWords, 3),
        (b"scene 1\nclient c\nnpoke -1 hex:00", BadWords, 3),
        (b"scene 1\nclient c\nnpoke 4294967296 hex:00", BadWords, 3),
        (b"scene 1\nclient c\nnpoke 00000000001 hex:00", BadWords, 3),
        (b"scene 1\nclient c\nnpoke 0x10 hex:00", BadWords, 3),
        (b"scene 1\nclient c\nnpoke 0 00", BadWords, 3),
        (b"scene 1\nclient c\nnpoke 0 hex:012", BadWords, 3),
        (b"scene 1\nclient c\nnpoke 0 hex:0g", BadWords, 3),
        (b"scene 1\nclient c\nnpoke 0 fill:1", BadWords, 3),
        (b"scene 1\nclient c\nnpoke 0 fill:1:256", BadWords, 3),
        (b"scene 1\nclient c\nnpoke 0 fill:65537:0", BadWords, 3),
        (b"scene 1\nclient c\nnpoke hex:00 0", BadWords, 3),
        (b"scene 1\nclient c\nnkick", BadWords, 3),
        (b"scene 1\nclient c\nnkick 0", BadWords, 3),
        (b"scene 1\nclient c\nnkick 0 1 2", BadWords, 3),
        (b"scene 1\nclient c\nnkick 0 1 as k", BadWords, 3),
        (b"scene 1\nclient c\nnkick $k 1", BadWords, 3),
        (b"scene 1\nclient c\nnkick 0 -1", BadWords, 3),
        (b"scene 1\nclient c\nnkick 4294967296 0", BadWords, 3),
        (b"scene 1\nclient c\nnkick 0 hex:00", BadWords, 3),
    ];
    check_faults(&rt, rt.alloc(), rows.as_slice());
}

// They stand in a client's script, and count like its other lines.
#[test]
fn faults_by_place(rt: HostRuntime) {
    let rows = [
        (b"scene 1\nnpoke 0 hex:00".as_slice(), OutOfPlace, 2),
        (b"scene 1\napp a\nthread\nnpoke 0 hex:00", OutOfPlace, 4),
        (b"scene 1\napp a\nthread\nnkick 0", OutOfPlace, 4),
        (b"scene 1\napp a\nnkick 0 0", OutOfPlace, 3),
        (
            b"scene 1\napp a\nthread\nrepeat 2\nnkick 0 0\nend",
            OutOfPlace,
            5,
        ),
        (b"scene 1\nclient c\nturns\nnkick 0 0", BadWords, 4),
        (b"scene 1\nclient c\nnpoke 0 text:\x80", BadByte, 3),
        (b"scene 1\nclient c\nNpoke 0 hex:00", UnknownWord, 3),
        (b"scene 1\nclient c\nnpokes 0 hex:00", UnknownWord, 3),
        (
            b"scene 1\nclient c\nrepeat 2\nnpoke 0 hex:00",
            OpenRepeat,
            3,
        ),
        (
            b"scene 1\nclient c\nrepeat 256\nnpoke 0 fill:65536:0\nend\nnkick 0 0\nnpoke 0 hex:00",
            TooMany,
            7,
        ),
        (
            b"scene 1\nclient c\nrepeat 257\nnpoke 0 fill:65536:0\nend",
            TooMany,
            5,
        ),
        (
            b"scene 1\nclient c\nrepeat 16384\nnkick 0 0\nend\nnkick 0 0",
            TooMany,
            6,
        ),
    ];
    check_faults(&rt, rt.alloc(), rows.as_slice());
}
