//! Opens sets, gives each its members, and tells events of one member, for counting what an event costs: by the words
//! SETS MEMBERS EVENTS, each a number; without them, of one set with one member, none.
#![tactic(auto)]

mod sets;

use sets::{filled, tell_often};
use std::env;
use std::process::ExitCode;

// What is measured: so many sets, members of each, and events.
#[derive(Clone, Copy)]
struct Measured {
    sets: u64,
    members: u32,
    events: u64,
}

fn number_in(words: &[String], place: usize, otherwise: u64) -> u64 {
    match words.get(place) {
        Some(word) => word.as_str().parse::<u64>().unwrap_or(otherwise),
        None => otherwise,
    }
}

fn words_of(rt: &HostRuntime) -> Vec<String> {
    let mut words = Vec::new(rt.alloc());
    let Ok(args) = env::args(rt) else {
        return words;
    };
    for word in args.skip(1) {
        if words.push(word).is_err() {
            return words;
        }
    }
    words
}

fn sizes_in(words: &[String]) -> Measured {
    Measured {
        sets: number_in(words, 0, 1),
        members: number_in(words, 1, 1).min(64) as u32,
        events: number_in(words, 2, 0),
    }
}

fn main(rt: HostRuntime) -> ExitCode {
    let words = words_of(&rt);
    let measured = sizes_in(words.as_slice());
    drop(words);
    let Ok(mut sets) = filled(rt.alloc(), measured.sets, measured.members) else {
        return ExitCode::from(5);
    };
    let told = tell_often(&mut sets, measured.events);
    drop(sets);
    if told {
        ExitCode::from(0)
    } else {
        ExitCode::from(1)
    }
}
