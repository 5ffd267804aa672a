//! The turns of a replay.

ghost use Rattle.std.specs.Prelude.{◌≡◌, IfOk, map};
ghost use Rattle.script_lines.specs.Gives.{Gives};
ghost use Rattle.scene_lines.specs.Lawful.{IsLawful};
ghost use Rattle.scene_lines.specs.declared.reading.Used.{Used};
ghost use Rattle.scene_lines.specs.Reading.{turn_word, with_turns, turns_act};

use crate::last_place::{is_in_repeat, settled};
use crate::reading::{Place, Registered};
use kernel_values::{Turn, TurnList};
use script_lines::fault::LineRefused::{self, Fault};
use script_lines::fault::SceneKind::{BadWords, OutOfPlace};
use script_lines::numbers::number;
use std::alloc::Global;

// An actor's number, `D` for the device, or `I` for idle.
#[tactic(auto, unfolding(crate::specs::Reading::turn_word))]
fn turn_word(word: &[u8]) -> Result<Turn, LineRefused>
    ensures { Gives (λ turn. turn) result (turn_word word.now) }
{
    if word == b"D".as_slice() {
        return Ok(Turn::Device);
    }
    if word == b"I".as_slice() {
        return Ok(Turn::Idle);
    }
    let actor = number(word)?;
    Ok(Turn::Actor(actor))
}

/// The turns of these words go last.
#[tactic(auto, unfolding(crate::specs::Reading::with_turns))]
pub fn with_turns(turns: &mut TurnList, words: &[&[u8]]) -> Result<(), LineRefused>
    ensures { Gives (λ _. turns.new) result (with_turns turns.old (map (λ word. word.now) words.now)) }
{
    let mut rest = words;
    while let [word, after @ ..] = rest {
        turns.push(turn_word(word)?)?;
        rest = after;
    }
    Ok(())
}

/// `turns`: every later line is a list of turns.
#[tactic(auto, unfolding(crate::specs::Reading::turns_act))]
pub fn turns_act(
    alloc: Global,
    before: Registered,
    last: Place,
    words: &[&[u8]],
) -> Result<(Registered, Place), LineRefused>
    ensures exact { Gives (λ next. next) result (turns_act before last (map (λ word. word.now) words.now)) }
    ensures kept { (used : Used) → IsLawful before last used → IfOk result (λ next. IsLawful next.0 next.1 used) }
{
    if is_in_repeat(&last) {
        drop(before);
        drop(last);
        return Err(Fault(OutOfPlace));
    }
    if !words.is_empty() {
        drop(before);
        drop(last);
        return Err(Fault(BadWords));
    }
    let Registered {
        apps,
        clients,
        noted,
    } = before;
    match settled(apps, clients, last) {
        Ok((apps, clients)) => {
            let after = Registered {
                apps,
                clients,
                noted,
            };
            Ok((after, Place::Turns(TurnList::new(alloc))))
        }
        Err(_) => {
            drop(noted);
            Err(LineRefused::NoMemory)
        }
    }
}
