//! Runs by threads, on the program's kernel.

use crate::status::Status;
use crate::trusty::trusty;
use kernel_types::values::ActorId;
use outside_io::{QuietSink, QuietSource};
use runners::{Hook, NoHook};
use std::alloc::Global;
use std::sync::atomic::{AtomicBool, Ordering};
use std::test::Fail;

// Two waits with a time limit, and one without: the clock moves twice, and then every wait is cancelled.
const THREE_WAITS: &str = "scene 1\napp a\nthread\nset as s\nwait $s 10\nset\nthread\nset as s\n\
wait $s -1\napp b\nthread\nset as s\nwait $s 20\n";

const TWO_ACTORS: &str = "scene 1\napp a\nthread\nset\napp b\nthread\nset\n";

// Holds actor 0 before its first call until actor 1's first call was answered, which is so when its second one is
// asked for. After 100,000,000 looks it gives up.
#[derive(Drop)]
struct HoldsTheFirst {
    answered: AtomicBool,
    gave_up: AtomicBool,
}

impl Hook for HoldsTheFirst {
    fn before(&self, actor: ActorId, k: u64) {
        if actor.0 == 1 && k == 1 {
            self.answered.store(true, Ordering::SeqCst);
        }
        if actor.0 == 0 && k == 0 {
            for _look in 0..100_000_000 {
                if self.answered.load(Ordering::SeqCst) {
                    return;
                }
            }
            self.gave_up.store(true, Ordering::SeqCst);
        }
    }
}

fn words(alloc: Global, texts: &[&str]) -> Result<Vec<String>, Fail> {
    let mut words = Vec::new(alloc);
    for text in texts {
        words.push(String::from_str(alloc, text)?)?;
    }
    Ok(words)
}

// A body that makes all calls on one thread waits here for itself, and gives up.
#[test]
fn hook_two_actors(rt: HostRuntime) -> Result<(), Fail> {
    let hook = HoldsTheFirst {
        answered: AtomicBool::new(false),
        gave_up: AtomicBool::new(false),
    };
    let words = words(rt.alloc(), &["run"])?;
    let mut source = QuietSource::new(rt.alloc(), TWO_ACTORS.as_bytes(), 64)?;
    let mut sink = QuietSink::new(rt.alloc(), 4_096)?;
    assert_eq!(rt;
        trusty(
            &rt,
            rt.alloc(),
            words.as_slice(),
            &mut source,
            &mut sink,
            &hook
        ),
        Status::Done
    );
    assert!(rt; !hook.gave_up.load(Ordering::SeqCst));
    assert!(rt;
        sink.written()
            .starts_with(b"history 4\n0 b.0 set -> handle 0\n")
    );
    Ok(())
}

// Threads that wait sleep until the clock moves for them, or every wait is cancelled. Nobody needs a thread where there is
// no actor.
#[test]
fn threads_wait(rt: HostRuntime) -> Result<(), Fail> {
    let rows = [
        (
            THREE_WAITS,
            "summary history 16 begins 10 resumes 3 device 0 idle 3\nanswers given 7 refused 3\nend clock 20 objects 0 names 0\n",
        ),
        (
            "scene 1\n",
            "summary history 0 begins 0 resumes 0 device 0 idle 0\nanswers given 0 refused 0\nend clock 0 objects 0 names 0\n",
        ),
    ];
    let words = words(rt.alloc(), &["run", "--form", "summary"])?;
    for (scene, written) in rows {
        let mut source = QuietSource::new(rt.alloc(), scene.as_bytes(), 64)?;
        let mut sink = QuietSink::new(rt.alloc(), 4_096)?;
        assert_eq!(rt;
            trusty(
                &rt,
                rt.alloc(),
                words.as_slice(),
                &mut source,
                &mut sink,
                &NoHook
            ),
            Status::Done
        );
        assert_eq!(rt; sink.written(), written.as_bytes());
    }
    Ok(())
}
