//! The scene that a text spells, or its first fault.

ghost use Rattle.std.specs.Prelude.{◌≡◌, ◌≤◌, IfOk, IsTrue, Ok, Err, None, [], length, map};
ghost use Rattle.std.specs.List.{list_all, list_any};
ghost use Rattle.kernel_values.specs.SceneLaw.{IsLawfulScene};
ghost use Rattle.script_lines.specs.Gives.{Gives};
ghost use Rattle.script_lines.specs.Texts.{is_text_byte, lines_of};
ghost use Rattle.scene_lines.specs.Lawful.{IsLawful, IsLawfulReading};
ghost use Rattle.scene_lines.specs.declared.reading.Registered.{Registered};
ghost use Rattle.scene_lines.specs.declared.reading.Used.{Used};
ghost use Rattle.script_lines.specs.declared.fault.SceneRefused.TheVariants as scene;
ghost use Rattle.scene_lines.specs.Reading.{apps_with, clients_with, queue_of, part_act, script_act, word_act, first_word, is_header, words_act, line_act};
ghost use Rattle.scene_reader.specs.Whole.{opening, open_line, is_end, closes, fault_in, ended, lines_act, scene_of, IsRefusal, IsScene};

use kernel_values::{AppList, ClientList, Items, NoMemory, Scene, TurnList};
use scene_lines::app_lines::app_act;
use scene_lines::client_lines::{client_act, client_call_act};
use scene_lines::last_place::settled;
use scene_lines::queue_lines::queues_act;
use scene_lines::reading::{Noted, Place, Reading, Registered, Used};
use scene_lines::repeat_lines::{call_act, end_act, repeat_act, thread_act};
use scene_lines::turn_lines::{turns_act, with_turns};
use script_lines::fault::LineRefused::{self, Fault};
use script_lines::fault::SceneKind::{
    BadByte, NoHeader, OpenRepeat, OutOfPlace, TooMany, UnknownWord,
};
use script_lines::fault::{SceneFault, SceneKind, SceneRefused};
use script_lines::line_words::line_word;
use script_lines::texts::{first_line, is_skipped, is_text, words_of};
use script_lines::words::{LineWord, PartWord, ScriptWord};
use std::alloc::Global;

// A line that a scene is made of.
#[tactic(auto, unfolding(scene_lines::specs::Reading::part_act))]
fn part_act(
    alloc: Global,
    before: Registered,
    last: Place,
    text: &[u8],
    word: PartWord,
    words: &[&[u8]],
) -> Result<(Registered, Place), LineRefused>
    requires { IsTrue (list_all is_text_byte text.now) }
    ensures exact { Gives (λ next. next) result (part_act before last text.now word (map (λ word. word.now) words.now)) }
    ensures kept { (used : Used) → IsLawful before last used → IfOk result (λ next. IsLawful next.0 next.1 used) }
{
    match word {
        PartWord::Queues => match queues_act(before, &last, words) {
            Ok(before) => Ok((before, last)),
            Err(refused) => {
                drop(last);
                Err(refused)
            }
        },
        PartWord::App => app_act(alloc, before, last, text, words),
        PartWord::Client => client_act(alloc, before, last, words),
        PartWord::Turns => turns_act(alloc, before, last, words),
    }
}

// A line that scripts are made of.
#[tactic(auto, unfolding(scene_lines::specs::Reading::script_act))]
fn script_act(
    alloc: Global,
    used: Used,
    place: Place,
    at: u32,
    word: ScriptWord,
    words: &[&[u8]],
) -> Result<(Used, Place), LineRefused>
    ensures exact { Gives (λ next. next) result (script_act used place at word (map (λ word. word.now) words.now)) }
    ensures kept { (before : Registered) → IsLawful before place used → IfOk result (λ next. IsLawful before next.1 next.0) }
{
    match word {
        ScriptWord::Thread => Ok((used, thread_act(alloc, place, words)?)),
        ScriptWord::Repeat => Ok((used, repeat_act(alloc, at, place, words)?)),
        ScriptWord::End => end_act(used, place, words),
        ScriptWord::Call(word) => call_act(alloc, used, place, word, words),
        ScriptWord::ClientCall(word) => client_call_act(alloc, used, place, word, words),
    }
}

// A line whose first word begins a line.
#[tactic(auto, unfolding(scene_lines::specs::Reading::word_act))]
fn word_act(
    alloc: Global,
    reading: Reading,
    at: u32,
    text: &[u8],
    word: LineWord,
    words: &[&[u8]],
) -> Result<Reading, LineRefused>
    requires { IsTrue (list_all is_text_byte text.now) }
    ensures exact { Gives (λ next. next) result (word_act reading at text.now word (map (λ word. word.now) words.now)) }
    ensures kept { IsLawfulReading reading → IfOk result IsLawfulReading }
{
    let Reading {
        place,
        before,
        used,
    } = reading;
    match word {
        LineWord::Scene => {
            drop(place);
            drop(before);
            Err(Fault(OutOfPlace))
        }
        LineWord::Part(word) => {
            let (before, place) = part_act(alloc, before, place, text, word, words)?;
            Ok(Reading {
                place,
                before,
                used,
            })
        }
        LineWord::Script(word) => {
            let (used, place) = script_act(alloc, used, place, at, word, words)?;
            Ok(Reading {
                place,
                before,
                used,
            })
        }
    }
}

// `scene 1`
fn is_header(words: &[&[u8]]) -> bool
    ensures { result ≡ is_header (map (λ word. word.now) words.now) }
{
    match words {
        [first, second] => *first == b"scene".as_slice() && *second == b"1".as_slice(),
        _ => false,
    }
}

// A line between the header and the turns.
#[tactic(auto, unfolding(scene_lines::specs::Reading::first_word))]
fn first_word(
    alloc: Global,
    reading: Reading,
    at: u32,
    text: &[u8],
    words: &[&[u8]],
) -> Result<Reading, LineRefused>
    requires { IsTrue (list_all is_text_byte text.now) }
    ensures exact { Gives (λ next. next) result (first_word reading at text.now (map (λ word. word.now) words.now)) }
    ensures kept { IsLawfulReading reading → IfOk result IsLawfulReading }
{
    let [first, rest @ ..] = words else {
        return Ok(reading);
    };
    let Some(word) = line_word(first) else {
        drop(reading);
        return Err(Fault(UnknownWord));
    };
    word_act(alloc, reading, at, text, word, rest)
}

// A line that is not skipped.
#[tactic(auto, unfolding(scene_lines::specs::Reading::words_act))]
fn words_act(
    alloc: Global,
    reading: Reading,
    at: u32,
    text: &[u8],
    words: &[&[u8]],
) -> Result<Reading, LineRefused>
    requires { IsTrue (list_all is_text_byte text.now) }
    ensures exact { Gives (λ next. next) result (words_act reading reading.place at text.now (map (λ word. word.now) words.now)) }
    ensures kept { IsLawfulReading reading → IfOk result IsLawfulReading }
{
    let Reading {
        place,
        before,
        used,
    } = reading;
    match place {
        Place::Start => {
            drop(place);
            if !is_header(words) {
                drop(before);
                return Err(Fault(NoHeader));
            }
            Ok(Reading {
                place: Place::Outside,
                before,
                used,
            })
        }
        Place::Turns(turns) => {
            let mut turns = turns;
            if let Err(refused) = with_turns(&mut turns, words) {
                drop(turns);
                drop(before);
                return Err(refused);
            }
            Ok(Reading {
                place: Place::Turns(turns),
                before,
                used,
            })
        }
        place => first_word(
            alloc,
            Reading {
                place,
                before,
                used,
            },
            at,
            text,
            words,
        ),
    }
}

#[tactic(auto, unfolding(scene_lines::specs::Reading::line_act))]
fn line_act(alloc: Global, reading: Reading, at: u32, text: &[u8]) -> Result<Reading, LineRefused>
    ensures exact { Gives (λ next. next) result (line_act reading at text.now) }
    ensures kept { IsLawfulReading reading → IfOk result IsLawfulReading }
{
    let words = match words_of(alloc, text) {
        Ok(words) => words,
        Err(_) => {
            drop(reading);
            return Err(LineRefused::NoMemory);
        }
    };
    if is_skipped(&words) {
        drop(words);
        return Ok(reading);
    }
    if !is_text(text) {
        drop(words);
        drop(reading);
        return Err(Fault(BadByte));
    }
    let next = words_act(alloc, reading, at, text, &words);
    drop(words);
    next
}

fn nothing_noted(alloc: Global) -> Noted
    ensures { result ≡ record { names = []; client_names = []; ports = []; queue = None } }
{
    Noted {
        names: Items::new(alloc),
        client_names: Items::new(alloc),
        ports: Items::new(alloc),
        queue: None,
    }
}

fn opening(alloc: Global) -> Reading
    ensures value { result ≡ opening }
    ensures lawful { IsLawfulReading result }
{
    Reading {
        place: Place::Start,
        before: Registered {
            apps: AppList::new(alloc),
            clients: ClientList::new(alloc),
            noted: nothing_noted(alloc),
        },
        used: Used {
            commands: 0,
            payload: 0,
        },
    }
}

fn open_line(place: &Place) -> Option<u32>
    ensures { result ≡ open_line place.now }
{
    match place {
        Place::Repeat(_, repeat) => Some(repeat.line),
        Place::ClientRepeat(_, repeat) => Some(repeat.line),
        _ => None,
    }
}

fn is_end(words: &[&[u8]]) -> bool
    ensures { result ≡ is_end (map (λ word. word.now) words.now) }
{
    match words {
        [word] => *word == b"end".as_slice(),
        _ => false,
    }
}

// Whether the line closes a repeat.
#[tactic(auto, unfolding(crate::specs::Whole::closes))]
fn closes(alloc: Global, line: &[u8]) -> Result<bool, NoMemory>
    ensures { IfOk result (λ yes. yes ≡ closes line.now) }
{
    if !is_text(line) {
        return Ok(false);
    }
    let words = words_of(alloc, line)?;
    Ok(is_end(&words))
}

// Whether a line of these closes a repeat.
fn is_closed_in(alloc: Global, bytes: &[u8]) -> Result<bool, NoMemory>
    ensures { IfOk result (λ yes. yes ≡ list_any closes (lines_of bytes.now)) }
{
    let mut rest = bytes;
    while rest.len() > 0 {
        let (line, after) = first_line(rest);
        if closes(alloc, line)? {
            return Ok(true);
        }
        rest = after;
    }
    Ok(false)
}

// The fault, unless it stands in a repeat that no later line closes.
#[tactic(auto, unfolding(crate::specs::Whole::fault_in))]
fn fault_in(
    alloc: Global,
    opened: Option<u32>,
    line: u32,
    kind: SceneKind,
    rest: &[u8],
) -> Result<SceneFault, NoMemory>
    ensures { IfOk result (λ fault. fault ≡ fault_in opened line kind (lines_of rest.now)) }
{
    let Some(opened) = opened else {
        return Ok(SceneFault { kind, line });
    };
    if kind == TooMany || is_closed_in(alloc, rest)? {
        return Ok(SceneFault { kind, line });
    }
    Ok(SceneFault {
        kind: OpenRepeat,
        line: opened,
    })
}

// The refusal for a line with a fault.
fn refusal(
    alloc: Global,
    opened: Option<u32>,
    line: u32,
    kind: SceneKind,
    rest: &[u8],
) -> SceneRefused
    ensures { IsRefusal result (Err (fault_in opened line kind (lines_of rest.now))) }
{
    match fault_in(alloc, opened, line, kind, rest) {
        Ok(fault) => SceneRefused::Fault(fault),
        Err(_) => SceneRefused::NoMemory,
    }
}

// The scene, where the last application or client has no later line.
fn whole(before: Registered, last: Place, turns: TurnList) -> Result<Scene, SceneRefused>
    requires { IsLawfulScene (record { apps = apps_with before.apps last; clients = clients_with before.clients last; queue = queue_of before.noted; turns = turns }) }
    ensures { IsScene result (Ok (record { apps = apps_with before.apps last; clients = clients_with before.clients last; queue = queue_of before.noted; turns = turns })) }
{
    let Registered {
        apps,
        clients,
        noted,
    } = before;
    let queue = noted.queue.unwrap_or(16);
    drop(noted);
    let Ok((apps, clients)) = settled(apps, clients, last) else {
        drop(turns);
        return Err(SceneRefused::NoMemory);
    };
    Ok(Scene {
        apps,
        clients,
        queue,
        turns,
    })
}

fn fault(kind: SceneKind, line: u32) -> SceneRefused
    ensures { result ≡ scene.Fault (record { kind = kind; line = line }) }
{
    SceneRefused::Fault(SceneFault { kind, line })
}

// After the last line.
#[tactic(auto, unfolding(crate::specs::Whole::ended))]
fn ended(alloc: Global, reading: Reading) -> Result<Scene, SceneRefused>
    requires { IsLawfulReading reading }
    ensures { IsScene result (ended reading reading.place) }
{
    let Reading { place, before, .. } = reading;
    match place {
        Place::Start => {
            drop(place);
            drop(before);
            Err(fault(NoHeader, 0))
        }
        Place::Repeat(app, repeat) => {
            let line = repeat.line;
            drop(app);
            drop(repeat);
            drop(before);
            Err(fault(OpenRepeat, line))
        }
        Place::ClientRepeat(client, repeat) => {
            let line = repeat.line;
            drop(client);
            drop(repeat);
            drop(before);
            Err(fault(OpenRepeat, line))
        }
        Place::Outside => {
            drop(place);
            whole(before, Place::Outside, TurnList::new(alloc))
        }
        Place::App(app) => whole(before, Place::App(app), TurnList::new(alloc)),
        Place::Client(client) => whole(before, Place::Client(client), TurnList::new(alloc)),
        Place::Turns(turns) => whole(before, Place::Outside, turns),
    }
}

/// The scene that the text spells, or its first fault: of the faulty lines the first, and on it the
/// first kind in the order of [`SceneKind`]. The work is linear in the text and in what the scene may
/// hold at most.
pub fn read_scene(alloc: Global, bytes: &[u8]) -> Result<Scene, SceneRefused>
    requires { length bytes.now ≤ 4194304 }
    ensures { IsScene result (scene_of bytes.now) }
{
    let mut reading = opening(alloc);
    let mut rest = bytes;
    let mut at = 1;
    while rest.len() > 0 {
        let (line, after) = first_line(rest);
        let opened = open_line(&reading.place);
        match line_act(alloc, reading, at, line) {
            Ok(next) => reading = next,
            Err(LineRefused::NoMemory) => return Err(SceneRefused::NoMemory),
            Err(Fault(kind)) => return Err(refusal(alloc, opened, at, kind, after)),
        }
        rest = after;
        at += 1;
    }
    ended(alloc, reading)
}
