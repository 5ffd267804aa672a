//! The words after the program's name.

use command_line::{Command, command_of};
use report_text::Form;
use std::alloc::Global;
use std::test::Fail;

fn command(alloc: Global, text: &str) -> Result<Option<Command>, Fail> {
    let mut words = Vec::new(alloc);
    for word in text.split(' ').filter(|word| word.len() > 0) {
        words.push(String::from_str(alloc, word)?)?;
    }
    Ok(command_of(alloc, words.as_slice())?)
}

// Where options may stand, and which words they take.
#[test]
fn commands(rt: HostRuntime) -> Result<(), Fail> {
    let rows = [
        ("serial", Command::Serial(Form::History)),
        ("replay", Command::Replay(Form::History)),
        ("run", Command::Run(Form::History)),
        ("--form actors serial", Command::Serial(Form::Actors)),
        ("serial --form counts", Command::Serial(Form::Counts)),
        ("run --form=summary", Command::Run(Form::Summary)),
        ("--form=history -- replay", Command::Replay(Form::History)),
        ("run --", Command::Run(Form::History)),
        ("check", Command::Check),
        ("-- check", Command::Check),
    ];
    for (text, expected) in rows {
        assert_eq!(rt; command(rt.alloc(), text)?, Some(expected));
    }
    Ok(())
}

fn making(seed: u64, count: u32, form: Form) -> Command {
    Command::Gen { seed, count, form }
}

// The seed has 64 bits and up to 20 digits, the count is from 1 to 10,000 and has up to 5.
#[test]
fn scenes_to_make(rt: HostRuntime) -> Result<(), Fail> {
    let rows = [
        ("gen 1 12", making(1, 12, Form::Summary)),
        ("gen 0 00001", making(0, 1, Form::Summary)),
        (
            "--form history gen 18446744073709551615 10000",
            making(18446744073709551615, 10000, Form::History),
        ),
        (
            "gen 00000000000000000007 3 --form=counts",
            making(7, 3, Form::Counts),
        ),
    ];
    for (text, expected) in rows {
        assert_eq!(rt; command(rt.alloc(), text)?, Some(expected));
    }
    Ok(())
}

#[test]
fn no_commands(rt: HostRuntime) -> Result<(), Fail> {
    let rows = [
        "",
        "--",
        "--form",
        "--form actors",
        "serial extra",
        "Serial",
        "-",
        "- serial",
        "-s serial",
        "--help",
        "--version serial",
        "run --form wide",
        "run --form=",
        "run --form",
        "run --for actors",
        "run --formactors",
        "run -- --form actors",
        "-- --form=actors run",
        "--form -- run",
        "--form actors --form actors run",
        "--form=actors run --form=counts",
        "check --form history",
        "gen",
        "gen 1",
        "gen 1 2 3",
        "gen 1 0",
        "gen 1 10001",
        "gen 1 000001",
        "gen 18446744073709551616 1",
        "gen 000000000000000000001 1",
        "gen +1 1",
        "gen x 1",
    ];
    for text in rows {
        assert_eq!(rt; command(rt.alloc(), text)?, None);
    }
    Ok(())
}
