//! The command that words are.

ghost use Rattle.std.specs.Prelude.{◌≡◌, map, option_map};
ghost use Rattle.command_line.specs.Commands.{form_named, run_named, made_by, command_named, alone_named, command_alone, judged, MakesFew};

use crate::numbers::number_within;
use report_text::Form;

/// What the program is to do, and in which form it reports on a run.
#[derive(Clone, Copy, PartialEq, Eq, Debug)]
pub enum Command {
    /// Every actor's events in a fixed order.
    Serial(Form),
    /// The turns that the scene lists.
    Replay(Form),
    /// A thread for each actor.
    Run(Form),
    /// The scene with so many commands that a seed gives, in the order of `Serial`.
    Gen { seed: u64, count: u32, form: Form },
    /// Whether a report is that of a history of its scene.
    Check,
}

/// The digits of a seed.
const SEED_DIGITS: usize = 20;

/// The digits of a number of commands.
const COUNT_DIGITS: usize = 5;

/// The most commands that a scene is made of.
const MOST_COMMANDS: u64 = 10_000;

fn form_named(name: &str) -> Option<Form>
    ensures { result ≡ form_named name.now }
{
    match name {
        "history" => Some(Form::History),
        "actors" => Some(Form::Actors),
        "counts" => Some(Form::Counts),
        "summary" => Some(Form::Summary),
        _ => None,
    }
}

fn run_named(name: &str, form: Form) -> Option<Command>
    ensures exact { result ≡ run_named name.now form }
    ensures few { MakesFew result }
{
    match name {
        "serial" => Some(Command::Serial(form)),
        "replay" => Some(Command::Replay(form)),
        "run" => Some(Command::Run(form)),
        _ => None,
    }
}

fn made_by(name: &str, seed: &str, count: &str, form: Form) -> Option<Command>
    ensures exact { result ≡ made_by name.now seed.now count.now form }
    ensures few { MakesFew result }
{
    match name {
        "gen" => Some(Command::Gen {
            seed: number_within(seed, SEED_DIGITS, 0, u64::MAX)?,
            count: number_within(count, COUNT_DIGITS, 1, MOST_COMMANDS)? as u32,
            form,
        }),
        _ => None,
    }
}

// The command with this form.
fn command_named(words: &[&str], form: Form) -> Option<Command>
    ensures exact { result ≡ command_named (map (λ word. word.now) words.now) form }
    ensures few { MakesFew result }
{
    match words {
        [name] => run_named(name, form),
        [name, seed, count] => made_by(name, seed, count, form),
        _ => None,
    }
}

// The command that is one word, where no form is given.
fn alone_named(name: &str) -> Option<Command>
    ensures exact { result ≡ alone_named name.now }
    ensures few { MakesFew result }
{
    match name {
        "check" => Some(Command::Check),
        _ => run_named(name, Form::History),
    }
}

// The command where no form is given.
fn command_alone(words: &[&str]) -> Option<Command>
    ensures exact { result ≡ command_alone (map (λ word. word.now) words.now) }
    ensures few { MakesFew result }
{
    match words {
        [name] => alone_named(name),
        _ => command_named(words, Form::Summary),
    }
}

/// The command that a form and words are, where they are given.
pub fn judged(form: Option<&str>, words: Option<&[&str]>) -> Option<Command>
    ensures exact { result ≡ judged (option_map (λ said. said.now) form.entry) (option_map (λ said. map (λ word. word.now) said.now) words.entry) }
    ensures few { MakesFew result }
{
    let words = words?;
    match form {
        None => command_alone(words),
        Some(form) => command_named(words, form_named(form)?),
    }
}
