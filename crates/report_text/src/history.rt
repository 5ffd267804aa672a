//! The history form: a line for each entry.

ghost use Rattle.std.specs.Prelude.{◌≡◌, ◌++◌, ◌∷◌, [], OnOk, decimal};
ghost use Rattle.report_text.specs.Printing.{Prints};
ghost use Rattle.report_text.specs.Lines.{blank, lined, spelled, text_of};
ghost use Rattle.report_text.specs.Names.{name_in};
ghost use Rattle.report_text.specs.Forms.{event_words, entry_words, entry_lines, history_lines};
ghost use Rattle.report_text.specs.Within.{IsEventWithin, AreWithin};

use crate::answers::write_answer;
use crate::calls::write_call;
use crate::line::{Line, print_line};
use crate::names::NameList;
use crate::refused::PrintRefused;
use kernel_types::values::{ActorId, Entry, Event, NoMemory};
use outside_io::Sink;

fn write_name(line: &mut Line, names: &NameList, actor: ActorId) -> Result<(), NoMemory>
    ensures { OnOk result (line.new ≡ line.old ++ blank ∷ name_in names.now actor.0) }
{
    match names.get(actor.0 as usize) {
        Some(name) => line.name(name.as_slice()),
        None => line.name(&[]),
    }
}

fn write_event(line: &mut Line, names: &NameList, event: &Event) -> Result<(), NoMemory>
    ensures told { OnOk result (line.new ≡ line.old ++ spelled (event_words names.now event.now)) }
    ensures within { OnOk result (IsEventWithin event.now) }
{
    match event {
        Event::Begin { actor, call, .. } => {
            write_name(line, names, *actor)?;
            write_call(line, call)
        }
        Event::Resume { actor, .. } => {
            write_name(line, names, *actor)?;
            line.word("resume")
        }
        Event::Device => line.word("device"),
        Event::Idle => line.word("idle"),
    }
}

/// Writes the words of an entry's line, by the entry's number.
#[tactic(auto, unfolding(crate::specs::Forms::entry_words))]
pub fn write_entry(line: &mut Line, names: &NameList, k: u64, entry: &Entry) -> Result<(), NoMemory>
    ensures told { OnOk result (line.new ≡ line.old ++ spelled (entry_words names.now k entry.now)) }
    ensures within { OnOk result (IsEventWithin entry.now.event) }
{
    line.number(k)?;
    write_event(line, names, &entry.event)?;
    line.word("->")?;
    write_answer(line, &entry.answer)
}

fn print_entry<K: Sink>(
    line: &mut Line,
    names: &NameList,
    k: u64,
    entry: &Entry,
    sink: &mut K,
) -> Result<(), PrintRefused>
    ensures prints { Prints (K.written sink.old) (K.written sink.new) (K.faults sink.old) (K.faults sink.new) (K.calls sink.old) (K.calls sink.new) result (lined (entry_words names.now k entry.now)) }
    ensures within { OnOk result (IsEventWithin entry.now.event) }
{
    line.clear();
    write_entry(line, names, k, entry)?;
    print_line(line, sink)
}

fn print_entries<K: Sink>(
    line: &mut Line,
    names: &NameList,
    entries: &[Entry],
    sink: &mut K,
) -> Result<(), PrintRefused>
    ensures prints { Prints (K.written sink.old) (K.written sink.new) (K.faults sink.old) (K.faults sink.new) (K.calls sink.old) (K.calls sink.new) result (text_of (entry_lines names.now 0 entries.now)) }
    ensures within { OnOk result (AreWithin entries.now) }
{
    for k in 0..entries.len() {
        print_entry(line, names, k as u64, &entries[k], sink)?;
    }
    Ok(())
}

/// Writes the words of a line that counts, by its first word.
pub fn write_head(line: &mut Line, word: &str, count: u64) -> Result<(), NoMemory>
    ensures { OnOk result (line.new ≡ line.old ++ spelled (word.now ∷ decimal count ∷ [])) }
{
    line.named(word, count)
}

/// Prints a line that counts, by its first word.
pub fn print_head<K: Sink>(
    line: &mut Line,
    word: &str,
    count: u64,
    sink: &mut K,
) -> Result<(), PrintRefused>
    ensures { Prints (K.written sink.old) (K.written sink.new) (K.faults sink.old) (K.faults sink.new) (K.calls sink.old) (K.calls sink.new) result (lined (word.now ∷ decimal count ∷ [])) }
{
    line.clear();
    write_head(line, word, count)?;
    print_line(line, sink)
}

/// Prints the history form, without the last line.
pub fn print_history<K: Sink>(
    line: &mut Line,
    names: &NameList,
    entries: &[Entry],
    sink: &mut K,
) -> Result<(), PrintRefused>
    ensures prints { Prints (K.written sink.old) (K.written sink.new) (K.faults sink.old) (K.faults sink.new) (K.calls sink.old) (K.calls sink.new) result (text_of (history_lines names.now entries.now)) }
    ensures within { OnOk result (AreWithin entries.now) }
{
    print_head(line, "history", entries.len() as u64, sink)?;
    print_entries(line, names, entries, sink)
}
