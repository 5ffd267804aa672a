//! The lines of the history form one at a time, for who compares a text with them.

ghost use Rattle.std.specs.Prelude.{◌≡◌, ◌++◌, ◌∷◌, [], OnOk, codes, decimal};
ghost use Rattle.report_text.specs.Forms.{end_words, entry_words};
ghost use Rattle.report_text.specs.Lines.{behind_first, blank, lined};

use crate::history::{write_entry, write_head};
use crate::line::Line;
use crate::names::NameList;
use crate::print::write_end;
use kernel_types::values::{EndFacts, Entry, NoMemory};

/// The first line, which counts the entries.
pub fn first_line(line: &mut Line, count: u64) -> Result<(), NoMemory>
    ensures { OnOk result (behind_first line.new ≡ lined (codes "history" ∷ decimal count ∷ [])) }
{
    line.clear();
    write_head(line, "history", count)?;
    line.end()
}

/// How the line of the entry with this number begins.
pub fn entry_front(line: &mut Line, k: u64) -> Result<(), NoMemory>
    ensures { OnOk result (behind_first line.new ≡ decimal k ++ blank ∷ []) }
{
    line.clear();
    line.number(k)?;
    line.word("")
}

/// The line of the entry with this number.
pub fn entry_line(line: &mut Line, names: &NameList, k: u64, entry: &Entry) -> Result<(), NoMemory>
    ensures { OnOk result (behind_first line.new ≡ lined (entry_words names.now k entry.now)) }
{
    line.clear();
    write_entry(line, names, k, entry)?;
    line.end()
}

/// The last line.
pub fn end_line(line: &mut Line, end: &EndFacts) -> Result<(), NoMemory>
    ensures { OnOk result (behind_first line.new ≡ lined (end_words end.now)) }
{
    line.clear();
    write_end(line, end)?;
    line.end()
}
