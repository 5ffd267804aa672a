//! The lock: one turn for all passes, and one history.
ghost use Rattle.std.specs.Prelude.{◌≡◌, ◌+◌, ◌^◌, ◌<◌, false, length, MatchBool, IfOk};
ghost use Rattle.turnstile.specs.Nowhere.{nowhere};
ghost use Rattle.turnstile.specs.Steps.{AddsOne};
ghost use Rattle.turnstile.specs.Names.{IsPassOf, AllRest};
ghost use Rattle.turnstile.specs.Passes.{view};

use kernel_values::{Answer, Entry, Event, Items, NoMemory, Recorded, Seqs};
use std::alloc::{AllocError, Global};
use std::sync::Wait;
use std::test::Fail;
use std::thread;
use std::thread::Threads;
use turnstile::{Pass, SplitRefused, Turnstile};

// A history and nothing else.
#[derive(Drop)]
struct Tally {
    entries: Items<Entry>,
}

impl Recorded for Tally {
    ghost history = { λ t. t.entries };

    ghost origin = { λ _. nowhere };

    fn recorded(&self) -> u64 {
        self.entries.len() as u64
    }
}

impl Tally {
    fn new(alloc: Global) -> Tally {
        Tally {
            entries: Items::new(alloc),
        }
    }

    // Adds an entry, if there is memory.
    fn add(&mut self) -> bool
        ensures added { MatchBool result (AddsOne self.old.entries self.new.entries) (self.new ≡ self.old) }
        ensures room { length self.new.entries < 2 ^ 64 }
    {
        let added = self
            .entries
            .push(Entry {
                event: Event::Idle,
                answer: Answer::CancelAll,
                seqs: Seqs {
                    sent: None,
                    opened: None,
                    retired: None,
                },
            })
            .is_ok();
        let _len = self.entries.len();
        added
    }
}

fn add_once<R: Wait>(rt: &R, turnstile: &Turnstile<Tally>, pass: &mut Pass)
    requires { IsPassOf (λ _. nowhere) turnstile.now pass.old × ((view pass.old).has_turn ≡ false) }
    ensures { IsPassOf (λ _. nowhere) turnstile.now pass.new × ((view pass.new).has_turn ≡ false) }
{
    let mut tally = turnstile.enter(rt, pass);
    if tally.add() {
        turnstile.leave_with(pass, tally);
    } else {
        turnstile.leave(pass, tally);
    }
}

fn add_often<R: Wait>(rt: &R, turnstile: &Turnstile<Tally>, pass: Pass, times: u32) -> Pass
    requires { IsPassOf (λ _. nowhere) turnstile.now pass × ((view pass).has_turn ≡ false) }
    ensures { IsPassOf (λ _. nowhere) turnstile.now result × ((view result).has_turn ≡ false) }
{
    let mut pass = pass;
    for _ in 0..times {
        add_once(rt, turnstile, &mut pass);
    }
    pass
}

fn add_by_all<R: Threads + Wait + Sync>(
    rt: &R,
    turnstile: &Turnstile<Tally>,
    passes: Vec<Pass>,
    times: u32,
) -> Result<Vec<Pass>, AllocError>
    requires { AllRest (λ _. nowhere) turnstile.now passes.items }
    ensures { IfOk result (λ v. AllRest (λ _. nowhere) turnstile.now v.items × (length v.items ≡ length passes.items)) }
{
    thread::map_vec(
        rt,
        passes,
        &|pass: Pass| -> Pass
            requires { IsPassOf (λ _. nowhere) turnstile.now pass × ((view pass).has_turn ≡ false) }
            ensures { IsPassOf (λ _. nowhere) turnstile.entry.now result × ((view result).has_turn ≡ false) }
        { add_often(rt, turnstile, pass, times) },
    )
}

// The passes, and one more.
fn with_pass(
    turnstile: &Turnstile<Tally>,
    passes: Vec<Pass>,
    pass: Pass,
) -> Result<Vec<Pass>, NoMemory>
    requires passes { AllRest (λ _. nowhere) turnstile.now passes.items }
    requires pass { IsPassOf (λ _. nowhere) turnstile.now pass × ((view pass).has_turn ≡ false) }
    ensures passes { IfOk result (λ v. AllRest (λ _. nowhere) turnstile.now v.items) }
    ensures len { IfOk result (λ v. length v.items ≡ length passes.items + 1) }
{
    let mut passes = passes;
    passes.push(pass)?;
    Ok(passes)
}

#[test]
fn a_second_pass_finds_the_turn_held_until_the_first_leaves(rt: HostRuntime) -> Result<(), Fail> {
    let Ok((turnstile, mut first)) = Turnstile::new(rt.alloc(), Tally::new(rt.alloc()), 2) else {
        panic!(rt; "no memory")
    };
    let mut second = turnstile.split(&mut first)?;
    let tally = turnstile.try_enter(&mut first)?;
    match turnstile.try_enter(&mut second) {
        Ok(_) => panic!(rt; "two passes have the value"),
        Err(busy) => assert_eq!(rt; busy.word, 1),
    }
    turnstile.leave(&mut first, tally);
    let tally = turnstile.try_enter(&mut second)?;
    turnstile.leave(&mut second, tally);
    Ok(())
}

#[test]
fn an_entry_is_counted_and_comes_out_at_the_close(rt: HostRuntime) -> Result<(), Fail> {
    let Ok((turnstile, mut pass)) = Turnstile::new(rt.alloc(), Tally::new(rt.alloc()), 1) else {
        panic!(rt; "no memory")
    };
    assert_eq!(rt; turnstile.count(&mut pass), 0);
    add_once(&rt, &turnstile, &mut pass);
    assert_eq!(rt; turnstile.count(&mut pass), 1);
    let refused = turnstile.split(&mut pass);
    assert!(rt; matches!(refused, Err(SplitRefused::NoneLeft)));
    let passes = with_pass(&turnstile, Vec::new(rt.alloc()), pass)?;
    let Ok((tally, _pass)) = turnstile.close(rt.alloc(), passes) else {
        panic!(rt; "no memory")
    };
    assert_eq!(rt; tally.recorded(), 1);
    Ok(())
}

#[test]
fn three_threads_add_their_entries_to_one_history(rt: HostRuntime) -> Result<(), Fail> {
    let Ok((turnstile, mut first)) = Turnstile::new(rt.alloc(), Tally::new(rt.alloc()), 3) else {
        panic!(rt; "no memory")
    };
    let second = turnstile.split(&mut first)?;
    let third = turnstile.split(&mut first)?;
    let passes = with_pass(&turnstile, Vec::new(rt.alloc()), first)?;
    let passes = with_pass(&turnstile, passes, second)?;
    let passes = with_pass(&turnstile, passes, third)?;
    let passes = add_by_all(&rt, &turnstile, passes, 500)?;
    let Ok((tally, _pass)) = turnstile.close(rt.alloc(), passes) else {
        panic!(rt; "no memory")
    };
    assert_eq!(rt; tally.recorded(), 1500);
    Ok(())
}
