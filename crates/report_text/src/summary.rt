//! The summary form: how many entries are of which kind.

ghost use Rattle.std.specs.Prelude.{◌≡◌, ◌++◌, OnOk};
ghost use Rattle.report_text.specs.Printing.{Prints};
ghost use Rattle.report_text.specs.Lines.{lined, named, spelled, text_of};
ghost use Rattle.report_text.specs.Tallies.{is_call, is_of_kind, count_of};
ghost use Rattle.report_text.specs.Forms.{history_words, answers_words, summary_lines};

use crate::line::{Line, print_line};
use crate::refused::PrintRefused;
use kernel_types::values::{Answer, Entry, Event, NoMemory};
use outside_io::Sink;

/// A kind of entries.
#[derive(Clone, Copy)]
pub enum Kind {
    Begin,
    Resume,
    Device,
    Idle,
    /// Calls and ends of waits that give a reply.
    Given,
    /// Calls and ends of waits that are refused.
    Refused,
}

fn is_call(event: &Event) -> bool
    ensures { result ≡ is_call event.now }
{
    matches!(event, Event::Begin { .. } | Event::Resume { .. })
}

#[tactic(auto, unfolding(crate::specs::Tallies::is_of_kind))]
fn is_of_kind(kind: Kind, entry: &Entry) -> bool
    ensures { result ≡ is_of_kind kind entry.now }
{
    match kind {
        Kind::Begin => matches!(entry.event, Event::Begin { .. }),
        Kind::Resume => matches!(entry.event, Event::Resume { .. }),
        Kind::Device => matches!(entry.event, Event::Device),
        Kind::Idle => matches!(entry.event, Event::Idle),
        Kind::Given => is_call(&entry.event) && matches!(entry.answer, Answer::Gives(_)),
        Kind::Refused => is_call(&entry.event) && matches!(entry.answer, Answer::Refuses(_)),
    }
}

fn count(kind: Kind, entries: &[Entry]) -> u64
    ensures { result ≡ count_of kind entries.now }
{
    let mut count = 0;
    for entry in entries {
        if is_of_kind(kind, entry) {
            count += 1;
        }
    }
    count
}

fn write_count(line: &mut Line, name: &str, kind: Kind, entries: &[Entry]) -> Result<(), NoMemory>
    ensures { OnOk result (line.new ≡ line.old ++ named name.now (count_of kind entries.now)) }
{
    line.named(name, count(kind, entries))
}

fn write_history(line: &mut Line, entries: &[Entry]) -> Result<(), NoMemory>
    ensures { OnOk result (line.new ≡ line.old ++ spelled (history_words entries.now)) }
{
    line.word("summary")?;
    line.named("history", entries.len() as u64)?;
    write_count(line, "begins", Kind::Begin, entries)?;
    write_count(line, "resumes", Kind::Resume, entries)?;
    write_count(line, "device", Kind::Device, entries)?;
    write_count(line, "idle", Kind::Idle, entries)
}

fn write_answers(line: &mut Line, entries: &[Entry]) -> Result<(), NoMemory>
    ensures { OnOk result (line.new ≡ line.old ++ spelled (answers_words entries.now)) }
{
    line.word("answers")?;
    write_count(line, "given", Kind::Given, entries)?;
    write_count(line, "refused", Kind::Refused, entries)
}

fn print_history_line<K: Sink>(
    line: &mut Line,
    entries: &[Entry],
    sink: &mut K,
) -> Result<(), PrintRefused>
    ensures { Prints (K.written sink.old) (K.written sink.new) (K.faults sink.old) (K.faults sink.new) (K.calls sink.old) (K.calls sink.new) result (lined (history_words entries.now)) }
{
    line.clear();
    write_history(line, entries)?;
    print_line(line, sink)
}

fn print_answers_line<K: Sink>(
    line: &mut Line,
    entries: &[Entry],
    sink: &mut K,
) -> Result<(), PrintRefused>
    ensures { Prints (K.written sink.old) (K.written sink.new) (K.faults sink.old) (K.faults sink.new) (K.calls sink.old) (K.calls sink.new) result (lined (answers_words entries.now)) }
{
    line.clear();
    write_answers(line, entries)?;
    print_line(line, sink)
}

/// Prints the summary form, without the last line.
pub fn print_summary<K: Sink>(
    line: &mut Line,
    entries: &[Entry],
    sink: &mut K,
) -> Result<(), PrintRefused>
    ensures { Prints (K.written sink.old) (K.written sink.new) (K.faults sink.old) (K.faults sink.new) (K.calls sink.old) (K.calls sink.new) result (text_of (summary_lines entries.now)) }
{
    print_history_line(line, entries, sink)?;
    print_answers_line(line, entries, sink)
}
