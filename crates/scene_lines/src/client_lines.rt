//! Clients, their commands, and repeats of these.

ghost use Rattle.std.specs.Prelude.{◌≡◌, ◌++◌, ◌∷◌, [], IfOk, IsTrue, map};
ghost use Rattle.kernel_values.specs.Words.{is_name};
ghost use Rattle.script_lines.specs.Gives.{Gives};
ghost use Rattle.scene_lines.specs.Lawful.{IsLawful};
ghost use Rattle.scene_lines.specs.declared.reading.Place.TheVariants as place;
ghost use Rattle.scene_lines.specs.declared.reading.Registered.{Registered};
ghost use Rattle.scene_lines.specs.declared.reading.Used.{Used};
ghost use Rattle.scene_lines.specs.Reading.{with_client_command, client_line, client_repeat_line, client_call_act, client_closed, new_client, with_client, client_name, named_client, client_act};

use crate::app_lines::is_named;
use crate::last_place::{is_in_repeat, settled};
use crate::limits::after_command;
use crate::reading::{OpenClient, Place, Registered, Repeat, Used};
use crate::repeats::{after_repeat, extended, push_repeated};
use kernel_values::{Bytes, Command, Items, NoMemory, Script};
use script_lines::client_call_lines::client_command_line;
use script_lines::fault::LineRefused::{self, Fault};
use script_lines::fault::SceneKind::{BadWords, NameTaken, OutOfPlace, TooMany};
use script_lines::numbers::is_name;
use script_lines::words::ClientWord;
use std::alloc::Global;
use std::mem;

// One command more in the last client's script.
#[tactic(auto, unfolding(crate::specs::Reading::with_client_command))]
fn with_client_command(
    used: Used,
    client: OpenClient,
    command: Command,
) -> Result<(Used, Place), LineRefused>
    ensures { Gives (λ next. next) result (with_client_command used client command) }
{
    let mut client = client;
    match after_command(used, &command) {
        Ok(after) => match client.script.push(command) {
            Ok(()) => Ok((after, Place::Client(client))),
            Err(_) => {
                drop(client);
                Err(LineRefused::NoMemory)
            }
        },
        Err(refused) => {
            drop(client);
            drop(command);
            Err(refused)
        }
    }
}

// A line of the last client's script.
#[tactic(auto, unfolding(crate::specs::Reading::client_line))]
fn client_line(
    alloc: Global,
    used: Used,
    client: OpenClient,
    word: ClientWord,
    words: &[&[u8]],
) -> Result<(Used, Place), LineRefused>
    ensures exact { Gives (λ next. next) result (client_line used client word (map (λ word. word.now) words.now)) }
    ensures kept { (before : Registered) → IsLawful before (place.Client client) used → IfOk result (λ next. IsLawful before next.1 next.0) }
{
    let OpenClient {
        name,
        script,
        names,
    } = client;
    let (names, command) = client_command_line(alloc, names, word, words)?;
    let client = OpenClient {
        name,
        script,
        names,
    };
    let next = with_client_command(used, client, command)?;
    Ok(next)
}

// A line in a client's repeat. Nothing more is kept of one that passes a limit anyway.
#[tactic(auto, unfolding(crate::specs::Reading::client_repeat_line))]
fn client_repeat_line(
    alloc: Global,
    client: OpenClient,
    repeat: Repeat,
    word: ClientWord,
    words: &[&[u8]],
) -> Result<Place, LineRefused>
    ensures exact { Gives (λ next. next) result (client_repeat_line client repeat word (map (λ word. word.now) words.now)) }
    ensures kept { (before : Registered) → (used : Used) → IsLawful before (place.ClientRepeat client repeat) used → IfOk result (λ next. IsLawful before next used) }
{
    if repeat.is_past {
        return match client_command_line(alloc, Items::new(alloc), word, words) {
            Ok(unkept) => {
                drop(unkept);
                Ok(Place::ClientRepeat(client, repeat))
            }
            Err(refused) => {
                drop(client);
                drop(repeat);
                Err(refused)
            }
        };
    }
    let mut client = client;
    let names = mem::replace(&mut client.names, Items::new(alloc));
    match client_command_line(alloc, names, word, words) {
        Ok((names, command)) => {
            drop(mem::replace(&mut client.names, names));
            match extended(repeat, command) {
                Ok(repeat) => Ok(Place::ClientRepeat(client, repeat)),
                Err(_) => {
                    drop(client);
                    Err(LineRefused::NoMemory)
                }
            }
        }
        Err(refused) => {
            drop(client);
            drop(repeat);
            Err(refused)
        }
    }
}

/// A line of a client's script.
#[tactic(auto, unfolding(crate::specs::Reading::client_call_act))]
pub fn client_call_act(
    alloc: Global,
    used: Used,
    place: Place,
    word: ClientWord,
    words: &[&[u8]],
) -> Result<(Used, Place), LineRefused>
    ensures exact { Gives (λ next. next) result (client_call_act used place word (map (λ word. word.now) words.now)) }
    ensures kept { (before : Registered) → IsLawful before place used → IfOk result (λ next. IsLawful before next.1 next.0) }
{
    match place {
        Place::Client(client) => Ok(client_line(alloc, used, client, word, words)?),
        Place::ClientRepeat(client, repeat) => {
            Ok((
                used,
                client_repeat_line(alloc, client, repeat, word, words)?,
            ))
        }
        _ => {
            drop(place);
            Err(Fault(OutOfPlace))
        }
    }
}

/// A client's repeat is over.
#[tactic(auto, unfolding(crate::specs::Reading::client_closed))]
pub fn client_closed(
    used: Used,
    client: OpenClient,
    repeat: Repeat,
) -> Result<(Used, Place), LineRefused>
    ensures { Gives (λ next. next) result (client_closed used client repeat) }
{
    let mut client = client;
    match after_repeat(used, &repeat) {
        Ok(after) => {
            match push_repeated(&mut client.script, repeat.times, &repeat.body) {
                Ok(()) => {
                    drop(repeat);
                    Ok((after, Place::Client(client)))
                }
                Err(_) => {
                    drop(client);
                    drop(repeat);
                    Err(LineRefused::NoMemory)
                }
            }
        }
        Err(refused) => {
            drop(client);
            drop(repeat);
            Err(refused)
        }
    }
}

fn new_client(alloc: Global, name: Bytes) -> Place
    ensures { result ≡ new_client name }
{
    Place::Client(OpenClient {
        name,
        script: Script::new(alloc),
        names: Items::new(alloc),
    })
}

fn client_last(
    alloc: Global,
    before: Registered,
    name: &[u8],
) -> Result<(Registered, Place), NoMemory>
    ensures { IfOk result (λ next. next ≡ (record before { noted = record before.noted { client_names = before.noted.client_names ++ name.now ∷ [] } }, new_client name.now)) }
{
    let mut before = before;
    let Ok(named) = Bytes::from_slice(alloc, name) else {
        drop(before);
        return Err(NoMemory);
    };
    let Ok(noted) = Bytes::from_slice(alloc, name) else {
        drop(before);
        drop(named);
        return Err(NoMemory);
    };
    match before.noted.client_names.push(noted) {
        Ok(()) => Ok((before, new_client(alloc, named))),
        Err(_) => {
            drop(before);
            drop(named);
            Err(NoMemory)
        }
    }
}

// The client with this name comes last.
#[tactic(auto, unfolding(crate::specs::Reading::with_client))]
fn with_client(
    alloc: Global,
    before: Registered,
    last: Place,
    name: &[u8],
) -> Result<(Registered, Place), LineRefused>
    ensures { Gives (λ next. next) result (with_client before last name.now) }
{
    if is_named(&before.noted, name) {
        drop(before);
        drop(last);
        return Err(Fault(NameTaken));
    }
    if before.noted.client_names.len() >= 8 {
        drop(before);
        drop(last);
        return Err(Fault(TooMany));
    }
    let Registered {
        apps,
        clients,
        noted,
    } = before;
    match settled(apps, clients, last) {
        Ok((apps, clients)) => {
            let before = Registered {
                apps,
                clients,
                noted,
            };
            match client_last(alloc, before, name) {
                Ok(next) => Ok(next),
                Err(_) => Err(LineRefused::NoMemory),
            }
        }
        Err(_) => {
            drop(noted);
            Err(LineRefused::NoMemory)
        }
    }
}

fn lawful_client(
    alloc: Global,
    before: Registered,
    last: Place,
    name: &[u8],
) -> Result<(Registered, Place), LineRefused>
    requires { IsTrue (is_name name.now) }
    ensures exact { Gives (λ next. next) result (with_client before last name.now) }
    ensures kept { (used : Used) → IsLawful before last used → IfOk result (λ next. IsLawful next.0 next.1 used) }
{
    with_client(alloc, before, last, name)
}

#[tactic(auto, unfolding(crate::specs::Reading::client_name))]
fn client_name<'a>(words: &[&'a [u8]]) -> Result<&'a [u8], LineRefused>
    ensures exact { Gives (λ name. name.now) result (client_name (map (λ word. word.now) words.now)) }
    ensures lawful { IfOk result (λ name. IsTrue (is_name name.now)) }
{
    match words {
        [name] => {
            if is_name(name) {
                return Ok(name);
            }
            Err(Fault(BadWords))
        }
        _ => Err(Fault(BadWords)),
    }
}

#[tactic(auto, unfolding(crate::specs::Reading::named_client))]
fn named_client(
    alloc: Global,
    before: Registered,
    last: Place,
    words: &[&[u8]],
) -> Result<(Registered, Place), LineRefused>
    ensures exact { Gives (λ next. next) result (named_client before last (map (λ word. word.now) words.now)) }
    ensures kept { (used : Used) → IsLawful before last used → IfOk result (λ next. IsLawful next.0 next.1 used) }
{
    match client_name(words) {
        Ok(name) => lawful_client(alloc, before, last, name),
        Err(refused) => {
            drop(before);
            drop(last);
            Err(refused)
        }
    }
}

/// `client NAME`
#[tactic(auto, unfolding(crate::specs::Reading::client_act))]
pub fn client_act(
    alloc: Global,
    before: Registered,
    last: Place,
    words: &[&[u8]],
) -> Result<(Registered, Place), LineRefused>
    ensures exact { Gives (λ next. next) result (client_act before last (map (λ word. word.now) words.now)) }
    ensures kept { (used : Used) → IsLawful before last used → IfOk result (λ next. IsLawful next.0 next.1 used) }
{
    if is_in_repeat(&last) {
        drop(before);
        drop(last);
        return Err(Fault(OutOfPlace));
    }
    Ok(named_client(alloc, before, last, words)?)
}
