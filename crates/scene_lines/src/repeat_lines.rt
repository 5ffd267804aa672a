//! Threads, their commands, and repeats.

ghost use Rattle.std.specs.Prelude.{◌≡◌, IfOk, map};
ghost use Rattle.script_lines.specs.Gives.{Gives};
ghost use Rattle.scene_lines.specs.Lawful.{IsLawful};
ghost use Rattle.scene_lines.specs.declared.reading.Place.TheVariants as place;
ghost use Rattle.scene_lines.specs.declared.reading.Registered.{Registered};
ghost use Rattle.scene_lines.specs.declared.reading.Used.{Used};
ghost use Rattle.scene_lines.specs.Reading.{with_command, app_line, repeat_line, call_act, next_thread, thread_act, times_in, repeat_act, closed, end_act};

use crate::client_lines::client_closed;
use crate::limits::after_command;
use crate::reading::{OpenApp, Place, Repeat, Used};
use crate::repeats::{after_repeat, begun, extended, push_repeated};
use kernel_values::{Command, Items, Script};
use script_lines::call_lines::command_line;
use script_lines::fault::LineRefused::{self, Fault};
use script_lines::fault::SceneKind::{BadWords, OutOfPlace, TooMany};
use script_lines::numbers::number_within;
use script_lines::words::CallWord;
use std::alloc::Global;
use std::mem;

// One command more in the last application's script.
#[tactic(auto, unfolding(crate::specs::Reading::with_command))]
fn with_command(used: Used, app: OpenApp, command: Command) -> Result<(Used, Place), LineRefused>
    ensures { Gives (λ next. next) result (with_command used app command) }
{
    let mut app = app;
    match after_command(used, &command) {
        Ok(after) => match app.script.push(command) {
            Ok(()) => Ok((after, Place::App(app))),
            Err(_) => {
                drop(app);
                Err(LineRefused::NoMemory)
            }
        },
        Err(refused) => {
            drop(app);
            drop(command);
            Err(refused)
        }
    }
}

// A line of the last application's script.
#[tactic(auto, unfolding(crate::specs::Reading::app_line))]
fn app_line(
    alloc: Global,
    used: Used,
    app: OpenApp,
    word: CallWord,
    words: &[&[u8]],
) -> Result<(Used, Place), LineRefused>
    ensures exact { Gives (λ next. next) result (app_line used app word (map (λ word. word.now) words.now)) }
    ensures kept { (before : Registered) → IsLawful before (place.App app) used → IfOk result (λ next. IsLawful before next.1 next.0) }
{
    if !app.has_thread {
        drop(app);
        return Err(Fault(OutOfPlace));
    }
    let OpenApp {
        name,
        manifest,
        threads,
        script,
        names,
        has_thread,
    } = app;
    let (names, command) = command_line(alloc, names, word, words)?;
    let app = OpenApp {
        name,
        manifest,
        threads,
        script,
        names,
        has_thread,
    };
    let next = with_command(used, app, command)?;
    Ok(next)
}

// A line in a repeat. Nothing more is kept of one that passes a limit anyway.
#[tactic(auto, unfolding(crate::specs::Reading::repeat_line))]
fn repeat_line(
    alloc: Global,
    app: OpenApp,
    repeat: Repeat,
    word: CallWord,
    words: &[&[u8]],
) -> Result<Place, LineRefused>
    ensures exact { Gives (λ next. next) result (repeat_line app repeat word (map (λ word. word.now) words.now)) }
    ensures kept { (before : Registered) → (used : Used) → IsLawful before (place.Repeat app repeat) used → IfOk result (λ next. IsLawful before next used) }
{
    if repeat.is_past {
        return match command_line(alloc, Items::new(alloc), word, words) {
            Ok(unkept) => {
                drop(unkept);
                Ok(Place::Repeat(app, repeat))
            }
            Err(refused) => {
                drop(app);
                drop(repeat);
                Err(refused)
            }
        };
    }
    let mut app = app;
    let names = mem::replace(&mut app.names, Items::new(alloc));
    match command_line(alloc, names, word, words) {
        Ok((names, command)) => {
            drop(mem::replace(&mut app.names, names));
            match extended(repeat, command) {
                Ok(repeat) => Ok(Place::Repeat(app, repeat)),
                Err(_) => {
                    drop(app);
                    Err(LineRefused::NoMemory)
                }
            }
        }
        Err(refused) => {
            drop(app);
            drop(repeat);
            Err(refused)
        }
    }
}

/// A line of a thread's script.
#[tactic(auto, unfolding(crate::specs::Reading::call_act))]
pub fn call_act(
    alloc: Global,
    used: Used,
    place: Place,
    word: CallWord,
    words: &[&[u8]],
) -> Result<(Used, Place), LineRefused>
    ensures exact { Gives (λ next. next) result (call_act used place word (map (λ word. word.now) words.now)) }
    ensures kept { (before : Registered) → IsLawful before place used → IfOk result (λ next. IsLawful before next.1 next.0) }
{
    match place {
        Place::App(app) => Ok(app_line(alloc, used, app, word, words)?),
        Place::Repeat(app, repeat) => Ok((used, repeat_line(alloc, app, repeat, word, words)?)),
        _ => {
            drop(place);
            Err(Fault(OutOfPlace))
        }
    }
}

// The thread after the last one, or the first.
#[tactic(auto, unfolding(crate::specs::Reading::next_thread))]
fn next_thread(alloc: Global, app: OpenApp) -> Result<OpenApp, LineRefused>
    ensures { Gives (λ next. next) result (next_thread app) }
{
    let mut app = app;
    if !app.has_thread {
        app.has_thread = true;
        return Ok(app);
    }
    if app.threads.len() >= 3 {
        drop(app);
        return Err(Fault(TooMany));
    }
    let script = mem::replace(&mut app.script, Script::new(alloc));
    if let Err(_) = app.threads.push(script) {
        drop(app);
        return Err(LineRefused::NoMemory);
    }
    drop(mem::replace(&mut app.names, Items::new(alloc)));
    Ok(app)
}

/// A line `thread`: the first one begins the script that the last application has from the first, each other one a new script.
#[tactic(auto, unfolding(crate::specs::Reading::thread_act))]
pub fn thread_act(alloc: Global, place: Place, words: &[&[u8]]) -> Result<Place, LineRefused>
    ensures exact { Gives (λ next. next) result (thread_act place (map (λ word. word.now) words.now)) }
    ensures kept { (before : Registered) → (used : Used) → IsLawful before place used → IfOk result (λ next. IsLawful before next used) }
{
    let Place::App(app) = place else {
        drop(place);
        return Err(Fault(OutOfPlace));
    };
    if !words.is_empty() {
        drop(app);
        return Err(Fault(BadWords));
    }
    let next = next_thread(alloc, app)?;
    Ok(Place::App(next))
}

#[tactic(auto, unfolding(crate::specs::Reading::times_in))]
fn times_in(words: &[&[u8]]) -> Result<u32, LineRefused>
    ensures { Gives (λ times. times) result (times_in (map (λ word. word.now) words.now)) }
{
    match words {
        [word] => number_within(1, 16_384, word),
        _ => Err(Fault(BadWords)),
    }
}

/// A line `repeat`, which begins one in the last script. A repeat holds no other.
#[tactic(auto, unfolding(crate::specs::Reading::repeat_act))]
pub fn repeat_act(
    alloc: Global,
    line: u32,
    place: Place,
    words: &[&[u8]],
) -> Result<Place, LineRefused>
    ensures exact { Gives (λ next. next) result (repeat_act line place (map (λ word. word.now) words.now)) }
    ensures kept { (before : Registered) → (used : Used) → IsLawful before place used → IfOk result (λ next. IsLawful before next used) }
{
    match place {
        Place::App(app) => {
            if !app.has_thread {
                drop(app);
                return Err(Fault(OutOfPlace));
            }
            match times_in(words) {
                Ok(times) => Ok(Place::Repeat(app, begun(alloc, line, times))),
                Err(refused) => {
                    drop(app);
                    Err(refused)
                }
            }
        }
        Place::Client(client) => match times_in(words) {
            Ok(times) => Ok(Place::ClientRepeat(client, begun(alloc, line, times))),
            Err(refused) => {
                drop(client);
                Err(refused)
            }
        },
        _ => {
            drop(place);
            Err(Fault(OutOfPlace))
        }
    }
}

// The repeat is over.
#[tactic(auto, unfolding(crate::specs::Reading::closed))]
fn closed(used: Used, app: OpenApp, repeat: Repeat) -> Result<(Used, Place), LineRefused>
    ensures { Gives (λ next. next) result (closed used app repeat) }
{
    let mut app = app;
    match after_repeat(used, &repeat) {
        Ok(after) => {
            let pushed = push_repeated(&mut app.script, repeat.times, &repeat.body);
            drop(repeat);
            match pushed {
                Ok(()) => Ok((after, Place::App(app))),
                Err(_) => {
                    drop(app);
                    Err(LineRefused::NoMemory)
                }
            }
        }
        Err(refused) => {
            drop(app);
            drop(repeat);
            Err(refused)
        }
    }
}

/// A line `end`, which puts the commands of the open repeat into its script, as often as it says.
#[tactic(auto, unfolding(crate::specs::Reading::end_act))]
pub fn end_act(used: Used, place: Place, words: &[&[u8]]) -> Result<(Used, Place), LineRefused>
    ensures exact { Gives (λ next. next) result (end_act used place (map (λ word. word.now) words.now)) }
    ensures kept { (before : Registered) → IsLawful before place used → IfOk result (λ next. IsLawful before next.1 next.0) }
{
    match place {
        Place::Repeat(app, repeat) => {
            if !words.is_empty() {
                drop(app);
                drop(repeat);
                return Err(Fault(BadWords));
            }
            closed(used, app, repeat)
        }
        Place::ClientRepeat(client, repeat) => {
            if !words.is_empty() {
                drop(client);
                drop(repeat);
                return Err(Fault(BadWords));
            }
            client_closed(used, client, repeat)
        }
        _ => {
            drop(place);
            Err(Fault(OutOfPlace))
        }
    }
}
