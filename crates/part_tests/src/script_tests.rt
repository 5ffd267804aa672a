//! Actors at their scripts.

use kernel_values::{Answer, Call, Command, Errno, Items, NoMemory, RegRead, Reply, Script};
use script_actor::Actor;
use std::alloc::Global;
use std::test::Fail;

// A set whose number is kept in register 0, and its close.
fn set_and_close(alloc: Global) -> Result<Script, NoMemory> {
    let mut script = Script::new(alloc);
    let mut sets = Items::new(alloc);
    sets.push(0)?;
    script.push(Command {
        call: Call::SetCreate,
        reads: Items::new(alloc),
        sets,
    })?;
    let mut reads = Items::new(alloc);
    reads.push(RegRead { place: 0, reg: 0 })?;
    script.push(Command {
        call: Call::Close {
            handle: 4_294_967_295,
        },
        reads,
        sets: Items::new(alloc),
    })?;
    Ok(script)
}

fn exit_alone(alloc: Global) -> Result<Script, NoMemory> {
    let mut script = Script::new(alloc);
    script.push(Command {
        call: Call::Exit { code: 1 },
        reads: Items::new(alloc),
        sets: Items::new(alloc),
    })?;
    Ok(script)
}

// The answer to the next call, where there is one.
fn answer(actor: &mut Actor, reply: Reply) {
    if !actor.is_over() {
        actor.take(&Answer::Gives(reply));
    }
}

fn refuse(actor: &mut Actor, errno: Errno) {
    if !actor.is_over() {
        actor.take(&Answer::Refuses(errno));
    }
}

// A register has what the answer gave; after the last command comes `finish`, and then nothing.
#[test]
fn register_read_again(rt: HostRuntime) -> Result<(), Fail> {
    let mut actor = Actor::new(rt.alloc(), &set_and_close(rt.alloc())?, 1)?;
    assert_eq!(rt; actor.start(), 1);
    assert!(rt; matches!(actor.next()?, Some(Call::SetCreate)));
    answer(&mut actor, Reply::Handle(5));
    assert!(rt; matches!(actor.next()?, Some(Call::Close { handle: 5 })));
    answer(&mut actor, Reply::Done);
    assert!(rt; matches!(actor.next()?, Some(Call::Finish)));
    answer(&mut actor, Reply::Done);
    assert!(rt; actor.next()?.is_none());
    Ok(())
}

// A refusal sets no register, and an empty one reads as the number that no handle has.
#[test]
fn refusal_sets_none(rt: HostRuntime) -> Result<(), Fail> {
    let mut actor = Actor::new(rt.alloc(), &set_and_close(rt.alloc())?, 2)?;
    refuse(&mut actor, Errno::NoResources);
    assert!(rt;
        matches!(
            actor.next()?,
            Some(Call::Close {
                handle: 4_294_967_295
            })
        )
    );
    Ok(())
}

// After an `exit` that was answered nothing comes.
#[test]
fn nothing_after_exit(rt: HostRuntime) -> Result<(), Fail> {
    let mut actor = Actor::new(rt.alloc(), &exit_alone(rt.alloc())?, 1)?;
    assert!(rt; matches!(actor.next()?, Some(Call::Exit { code: 1 })));
    answer(&mut actor, Reply::Done);
    assert!(rt; actor.is_over());
    assert!(rt; actor.next()?.is_none());
    Ok(())
}
