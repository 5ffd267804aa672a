//! The journal of a kernel, and the story of one end.

use crate::quiet_kernel::Quiet;
use kernel_log::{Journal, Logged, story};
use kernel_types::values::{
    ActorId, Answer, Call, EndFacts, EndSeq, Entry, Event, ObjId, Recorded, Reply, Seqs,
};
use kernel_types::{IpcKernel, StepCause, StepRefused};
use std::test::Fail;

const NOTHING: Seqs = Seqs {
    sent: None,
    opened: None,
    retired: None,
};

fn finish(actor: u32) -> Event {
    Event::Begin {
        actor: ActorId(actor),
        start: 1,
        call: Call::Finish,
    }
}

fn entry(event: Event, seqs: Seqs) -> Entry {
    Entry {
        event,
        answer: Answer::Gives(Reply::Done),
        seqs,
    }
}

fn at(end: u64, seq: u32) -> Option<EndSeq> {
    Some(EndSeq {
        end: ObjId(end),
        seq,
    })
}

fn facts(clock: u64) -> EndFacts {
    EndFacts {
        clock,
        objects: 0,
        names: 0,
    }
}

#[test]
fn a_journal_keeps_entries_and_facts(rt: HostRuntime) -> Result<(), Fail> {
    let mut journal = Journal::new(rt.alloc());
    assert!(rt; journal.reserve(2).is_ok());
    journal.push(entry(finish(4), NOTHING), facts(7));
    journal.push(entry(Event::Idle, NOTHING), facts(8));
    assert!(rt; journal.reserve(1).is_ok());
    journal.push(
        entry(
            Event::Resume {
                actor: ActorId(4),
                start: 1,
            },
            NOTHING,
        ),
        facts(9),
    );
    assert!(rt; journal.len() == 3);
    assert!(rt;
        matches!(
            journal.entry(1),
            Some(Entry {
                event: Event::Idle,
                ..
            })
        )
    );
    assert!(rt; journal.entry(3).is_none());
    assert!(rt; journal.facts(2) == Some(facts(9)));
    assert!(rt; journal.facts(3).is_none());
    assert!(rt; journal.entries().len() == 3);
    let own = journal.of_actor(rt.alloc(), ActorId(4))?;
    assert!(rt; own.as_slice() == [0, 2].as_slice());
    Ok(())
}

#[test]
fn a_story_is_of_one_end(rt: HostRuntime) -> Result<(), Fail> {
    let mut journal = Journal::new(rt.alloc());
    assert!(rt; journal.reserve(2).is_ok());
    journal.push(
        entry(
            finish(0),
            Seqs {
                sent: at(5, 3),
                opened: at(5, 1),
                retired: at(6, 0),
            },
        ),
        facts(0),
    );
    journal.push(
        entry(
            finish(0),
            Seqs {
                sent: at(6, 2),
                opened: None,
                retired: at(5, 1),
            },
        ),
        facts(0),
    );
    let told = story(rt.alloc(), &journal, ObjId(5))?;
    assert!(rt; told.sent.as_slice() == [3].as_slice());
    assert!(rt; told.opened.as_slice() == [1].as_slice());
    assert!(rt; told.retired.as_slice() == [1].as_slice());
    Ok(())
}

// What is not lawful is refused with its cause, and nothing is written.
#[test]
fn a_quiet_kernel_writes_nothing(rt: HostRuntime) -> Result<(), Fail> {
    let mut logged = Logged::new(rt.alloc(), Quiet);
    assert!(rt; logged.reserve(1).is_ok());
    assert!(rt;
        matches!(
            logged.step(Event::Idle),
            Err(StepRefused {
                event: Event::Idle,
                cause: StepCause::NotMovable(None),
            })
        )
    );
    logged.legal();
    assert!(rt; logged.journal().len() == 0);
    assert!(rt; logged.recorded() == 0);
    assert!(rt; logged.answer(0).is_none());
    assert!(rt; logged.kernel().whole());
    let kernel = logged.into_kernel();
    assert!(rt; kernel.end_facts() == facts(0));
    Ok(())
}
