//! What happened to the messages of one end.

ghost use Rattle.std.specs.Prelude.{◌≡◌, IfOk};
ghost use Rattle.kernel_values.specs.SceneLaw.{SceneValue};
ghost use Rattle.kernel_types.specs.History.{Legal};
ghost use Rattle.kernel_types.specs.Opening.{opening};
ghost use Rattle.kernel_types.specs.Stories.{story_of, number_at, IsInOrder};
ghost use Rattle.kernel_log.specs.Moves.{moved, numbers_of, story_told};

use crate::journal::Journal;
use kernel_types::values::{EndSeq, Entry, Items, NoMemory, ObjId, Seqs};
use std::alloc::Global;

/// Numbers of messages, in the order of a history.
pub type SeqList = Items<u32>;

/// The numbers of the messages that were sent to one end, opened there and retired, each in the order
/// in which that happened.
#[derive(Debug, Drop)]
pub struct EndStory {
    pub sent: SeqList,
    pub opened: SeqList,
    pub retired: SeqList,
}

/// What may happen to a message.
#[derive(Clone, Copy)]
enum Move {
    Send,
    Opening,
    Retirement,
}

/// The story of the end in the journal. Where the journal is a history from an opening state, the story is in order: messages
/// are sent and opened by the numbers 0, 1, 2, and so on, none is opened before it was sent, and each is retired once at most,
/// after it was opened.
#[tactic(auto, using(crate::proofs::Telling::story_is))]
pub fn story(alloc: Global, journal: &Journal, end: ObjId) -> Result<EndStory, NoMemory>
    ensures story { IfOk result (λ story. story_told story ≡ story_of journal.now.entries end.0) }
    ensures in_order { (scene : SceneValue) → Legal (opening scene) journal.now.entries → IfOk result (λ story. IsInOrder (story_told story)) }
{
    let entries = journal.entries();
    Ok(EndStory {
        sent: numbers(alloc, entries, end, Move::Send)?,
        opened: numbers(alloc, entries, end, Move::Opening)?,
        retired: numbers(alloc, entries, end, Move::Retirement)?,
    })
}

fn moved(which: Move, seqs: &Seqs) -> Option<EndSeq>
    ensures { result ≡ moved which seqs.now }
{
    match which {
        Move::Send => seqs.sent,
        Move::Opening => seqs.opened,
        Move::Retirement => seqs.retired,
    }
}

fn number_at(end: ObjId, seq: Option<EndSeq>) -> Option<u32>
    ensures { result ≡ number_at end.0 seq }
{
    match seq {
        None => None,
        Some(found) => {
            if found.end.0 == end.0 {
                Some(found.seq)
            } else {
                None
            }
        }
    }
}

#[tactic(auto, using(crate::proofs::Telling::numbers_one, crate::proofs::Telling::numbers_same))]
fn numbers(alloc: Global, entries: &[Entry], end: ObjId, which: Move) -> Result<SeqList, NoMemory>
    ensures { IfOk result (λ numbers. numbers ≡ numbers_of which end.0 entries.now) }
{
    let mut numbers = Items::new(alloc);
    for entry in entries {
        if let Some(number) = number_at(end, moved(which, &entry.seqs)) {
            numbers.push(number)?;
        }
    }
    Ok(numbers)
}
