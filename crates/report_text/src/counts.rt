//! The counts form: a line for the state after each entry.

ghost use Rattle.std.specs.Prelude.{◌≡◌, ◌++◌, OnOk, slice_get};
ghost use Rattle.report_text.specs.Printing.{Prints};
ghost use Rattle.report_text.specs.Lines.{lined, spelled, text_of};
ghost use Rattle.report_text.specs.Forms.{count_words, count_line_at, count_lines, counts_lines};

use crate::history::print_head;
use crate::line::{Line, print_line};
use crate::refused::PrintRefused;
use kernel_log::Journal;
use kernel_types::values::{EndFacts, NoMemory};
use outside_io::Sink;

#[tactic(auto, unfolding(crate::specs::Forms::count_words))]
fn write_count(line: &mut Line, k: u64, facts: &EndFacts) -> Result<(), NoMemory>
    ensures { OnOk result (line.new ≡ line.old ++ spelled (count_words k facts.now)) }
{
    line.number(k)?;
    line.named("objects", facts.objects)?;
    line.named("names", facts.names)
}

fn print_count<K: Sink>(
    line: &mut Line,
    k: u64,
    facts: &EndFacts,
    sink: &mut K,
) -> Result<(), PrintRefused>
    ensures { Prints (K.written sink.old) (K.written sink.new) (K.faults sink.old) (K.faults sink.new) (K.calls sink.old) (K.calls sink.new) result (lined (count_words k facts.now)) }
{
    line.clear();
    write_count(line, k, facts)?;
    print_line(line, sink)
}

// Prints the line of the entry at the place `k`, where there are facts after it.
fn print_count_at<K: Sink>(
    line: &mut Line,
    journal: &Journal,
    k: u64,
    sink: &mut K,
) -> Result<(), PrintRefused>
    ensures { Prints (K.written sink.old) (K.written sink.new) (K.faults sink.old) (K.faults sink.new) (K.calls sink.old) (K.calls sink.new) result (text_of (count_line_at k (slice_get journal.now.facts k))) }
{
    match journal.facts(k) {
        None => Ok(()),
        Some(facts) => print_count(line, k, &facts, sink),
    }
}

fn print_count_lines<K: Sink>(
    line: &mut Line,
    journal: &Journal,
    sink: &mut K,
) -> Result<(), PrintRefused>
    ensures { Prints (K.written sink.old) (K.written sink.new) (K.faults sink.old) (K.faults sink.new) (K.calls sink.old) (K.calls sink.new) result (text_of (count_lines 0 journal.now.entries journal.now.facts)) }
{
    for k in 0..journal.len() {
        print_count_at(line, journal, k, sink)?;
    }
    Ok(())
}

/// Prints the counts form, without the last line.
pub fn print_counts<K: Sink>(
    line: &mut Line,
    journal: &Journal,
    sink: &mut K,
) -> Result<(), PrintRefused>
    ensures { Prints (K.written sink.old) (K.written sink.new) (K.faults sink.old) (K.faults sink.new) (K.calls sink.old) (K.calls sink.new) result (text_of (counts_lines journal.now.entries journal.now.facts)) }
{
    print_head(line, "counts", journal.len(), sink)?;
    print_count_lines(line, journal, sink)
}
