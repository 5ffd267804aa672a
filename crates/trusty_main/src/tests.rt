use crate::plain::trusty_plain;
use crate::status::Status;
use crate::trusty::trusty;
use outside_io::{MemSink, MemSource, QuietSink, QuietSource};
use runners::NoHook;
use std::alloc::Global;
use std::test::Fail;

const SCENE: &str =
    "scene 1\napp server\nthread\nport svc 2 16 ta as p\naccept $p as c\nclose $c\nclose $p\n\
app client\nthread\nconnect svc async as c\nclose $c\nconnect nosuch async as d\n";

const REPORT: &str = "history 9\n\
0 server.0 port svc 2 16 ta -> handle 0\n\
1 client.0 connect svc async -> handle 0\n\
2 server.0 accept 0 -> handle 1 uuid 00000000-0000-0000-0000-000000000002\n\
3 client.0 close 0 -> done\n\
4 server.0 close 1 -> done\n\
5 client.0 connect nosuch async -> refused NOT_FOUND\n\
6 server.0 close 0 -> done\n\
7 client.0 finish -> done\n\
8 server.0 finish -> done\n\
end clock 0 objects 0 names 0\n";

fn words(alloc: Global, text: &str) -> Result<Vec<String>, Fail> {
    let mut words = Vec::new(alloc);
    for word in text.split(' ').filter(|word| word.len() > 0) {
        words.push(String::from_str(alloc, word)?)?;
    }
    Ok(words)
}

// Words, a scene, what is written, and the status.
#[test]
fn rows(rt: HostRuntime) -> Result<(), Fail> {
    let rows = [
        ("serial", SCENE, REPORT, Status::Done),
        (
            "serial",
            "scene 1\n",
            "history 0\nend clock 0 objects 0 names 0\n",
            Status::Done,
        ),
        (
            "serial",
            "",
            "refused line 0: no header\n",
            Status::InputRefused,
        ),
        (
            "serial",
            "scene 1\njump\n",
            "refused line 2: unknown word\n",
            Status::InputRefused,
        ),
        (
            "serial",
            "scene 1\nqueues 2\nclient c\nnconnect nosuch\n",
            "history 6\n0 c nconnect nosuch -> waits\n1 device -> sent go_online\n2 device -> took conn_req 1024 nosuch\n\
3 device -> sent conn_rsp 1024 3 0 0 0\n4 c resume -> refused NOT_FOUND\n5 c finish -> done\nend clock 0 objects 0 names 0\n",
            Status::Done,
        ),
        ("replay", SCENE, "turn 0 refused\n", Status::TurnRefused),
        (
            "gen 1 12",
            "no scene",
            "summary history 16 begins 16 resumes 0 device 0 idle 0\nanswers given 16 refused 0\nend clock 0 objects 0 names 0\n",
            Status::Done,
        ),
        (
            "run",
            SCENE,
            "usage: trusty COMMAND [--form FORM]\n",
            Status::Usage,
        ),
        (
            "",
            SCENE,
            "usage: trusty COMMAND [--form FORM]\n",
            Status::Usage,
        ),
        (
            "check",
            "scene 1\nreport\nhistory 0\nend clock 0 objects 0 names 0\n",
            "yes 0\n",
            Status::Done,
        ),
        ("check", SCENE, "no entry 0\n", Status::HistoryRefused),
    ];
    for (text, scene, written, status) in rows {
        let mut source = QuietSource::new(rt.alloc(), scene.as_bytes(), 10)?;
        let mut sink = QuietSink::new(rt.alloc(), 4_096)?;
        let words = words(rt.alloc(), text)?;
        assert_eq!(rt;
            trusty_plain(rt.alloc(), words.as_slice(), &mut source, &mut sink),
            status
        );
        assert_eq!(rt; sink.written(), written.as_bytes());
    }
    Ok(())
}

// One application whose only call is answered before its end, so that every order of turns tells the same.
#[test]
fn threads_run_a_scene(rt: HostRuntime) -> Result<(), Fail> {
    let rows = [
        (
            "run",
            "history 2\n0 a.0 set -> handle 0\n1 a.0 finish -> done\nend clock 0 objects 0 names 0\n",
            Status::Done,
        ),
        (
            "run --form actors",
            "actor a.0 calls 2\nset -> handle 0\nfinish -> done\nend clock 0 objects 0 names 0\n",
            Status::Done,
        ),
        (
            "serial",
            "history 2\n0 a.0 set -> handle 0\n1 a.0 finish -> done\nend clock 0 objects 0 names 0\n",
            Status::Done,
        ),
        ("replay", "turn 0 refused\n", Status::TurnRefused),
        (
            "runs",
            "usage: trusty COMMAND [--form FORM]\n",
            Status::Usage,
        ),
    ];
    for (text, written, status) in rows {
        let mut source = QuietSource::new(rt.alloc(), b"scene 1\napp a\nthread\nset\n", 10)?;
        let mut sink = QuietSink::new(rt.alloc(), 4_096)?;
        let words = words(rt.alloc(), text)?;
        assert_eq!(rt;
            trusty(
                &rt,
                rt.alloc(),
                words.as_slice(),
                &mut source,
                &mut sink,
                &NoHook
            ),
            status
        );
        assert_eq!(rt; sink.written(), written.as_bytes());
    }
    Ok(())
}

// Whichever read fails, nothing is written.
#[test]
fn reads_fail_in_turn(rt: HostRuntime) -> Result<(), Fail> {
    let words = words(rt.alloc(), "serial")?;
    for call in 0..((SCENE.len() as u64 + 6) / 7 + 1) {
        let mut source = MemSource::new(rt.alloc(), SCENE.as_bytes(), 7, &[call])?;
        let mut sink = MemSink::new(rt.alloc(), 4_096, 7, &[])?;
        assert_eq!(rt;
            trusty_plain(rt.alloc(), words.as_slice(), &mut source, &mut sink),
            Status::ReadFault
        );
        assert_eq!(rt; sink.written().len(), 0);
    }
    Ok(())
}

// Whichever write fails, what was written is the front of the report.
#[test]
fn writes_fail_in_turn(rt: HostRuntime) -> Result<(), Fail> {
    let words = words(rt.alloc(), "serial")?;
    for call in 0..20 {
        let mut source = MemSource::new(rt.alloc(), SCENE.as_bytes(), 7, &[])?;
        let mut sink = MemSink::new(rt.alloc(), 4_096, 7, &[call])?;
        assert_eq!(rt;
            trusty_plain(rt.alloc(), words.as_slice(), &mut source, &mut sink),
            Status::WriteFault
        );
        assert!(rt; REPORT.as_bytes().starts_with(sink.written()));
        assert!(rt; sink.written().len() < REPORT.len());
    }
    Ok(())
}

#[test]
fn input_too_long(rt: HostRuntime) -> Result<(), Fail> {
    let input = vec![in rt.alloc(); b'\n'; 4_194_305]?;
    let mut source = QuietSource::new(rt.alloc(), input.as_slice(), 65_536)?;
    let mut sink = QuietSink::new(rt.alloc(), 16)?;
    let words = words(rt.alloc(), "serial")?;
    assert_eq!(rt;
        trusty_plain(rt.alloc(), words.as_slice(), &mut source, &mut sink),
        Status::InputTooLong
    );
    assert_eq!(rt; sink.written().len(), 0);
    Ok(())
}
