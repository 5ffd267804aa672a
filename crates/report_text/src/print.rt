//! The report of a history.

ghost use Rattle.std.specs.Prelude.{◌≡◌, ◌++◌, OnOk};
ghost use Rattle.report_text.specs.Printing.{Prints};
ghost use Rattle.report_text.specs.Lines.{text_of, lined, spelled};
ghost use Rattle.report_text.specs.Forms.{end_words, report_told, body_lines};
ghost use Rattle.report_text.specs.Histories.{TellsOnly};
ghost use Rattle.report_text.specs.Within.{AreWithin};
ghost use Rattle.report_text.specs.declared.form.Form.TheVariants.{History};

use crate::actors::print_actors;
use crate::counts::print_counts;
use crate::form::Form;
use crate::history::print_history;
use crate::line::{Line, print_line};
use crate::names::{NameList, actor_names};
use crate::refused::PrintRefused;
use crate::summary::print_summary;
use kernel_log::Journal;
use kernel_types::values::{EndFacts, NoMemory, Scene};
use outside_io::Sink;
use std::alloc::Global;

/// Writes the words of the last line.
pub fn write_end(line: &mut Line, end: &EndFacts) -> Result<(), NoMemory>
    ensures { OnOk result (line.new ≡ line.old ++ spelled (end_words end.now)) }
{
    line.word("end")?;
    line.named("clock", end.clock)?;
    line.named("objects", end.objects)?;
    line.named("names", end.names)
}

fn print_end<K: Sink>(line: &mut Line, end: &EndFacts, sink: &mut K) -> Result<(), PrintRefused>
    ensures { Prints (K.written sink.old) (K.written sink.new) (K.faults sink.old) (K.faults sink.new) (K.calls sink.old) (K.calls sink.new) result (lined (end_words end.now)) }
{
    line.clear();
    write_end(line, end)?;
    print_line(line, sink)
}

fn print_body<K: Sink>(
    line: &mut Line,
    names: &NameList,
    journal: &Journal,
    form: Form,
    sink: &mut K,
) -> Result<(), PrintRefused>
    ensures prints { Prints (K.written sink.old) (K.written sink.new) (K.faults sink.old) (K.faults sink.new) (K.calls sink.old) (K.calls sink.new) result (text_of (body_lines names.now journal.now.entries journal.now.facts form)) }
    ensures within { form ≡ History → OnOk result (AreWithin journal.now.entries) }
{
    match form {
        Form::History => print_history(line, names, journal.entries(), sink),
        Form::Actors => print_actors(line, names, journal.entries(), sink),
        Form::Counts => print_counts(line, journal, sink),
        Form::Summary => print_summary(line, journal.entries(), sink),
    }
}

/// Writes the report of the journal's entries in this form, with the journal's facts after each of them and
/// the facts at the end. Each line is one call of `write_all`, and no more than one is held at a time.
/// Refused, a front of the report was written, but not all of it. In the history form the report tells the
/// history: no other one of the scene has it.
pub fn print_report<K: Sink>(
    alloc: Global,
    scene: &Scene,
    journal: &Journal,
    end: &EndFacts,
    form: Form,
    sink: &mut K,
) -> Result<(), PrintRefused>
    ensures prints { Prints (K.written sink.old) (K.written sink.new) (K.faults sink.old) (K.faults sink.new) (K.calls sink.old) (K.calls sink.new) result (report_told scene.now journal.now.entries journal.now.facts end.now form) }
    ensures fixes { form ≡ History → OnOk result (TellsOnly scene.now journal.now.entries (report_told scene.now journal.now.entries journal.now.facts end.now form)) }
{
    // Read for the proof alone: a scene that is read is known to be lawful.
    let _apps = &scene.apps;
    let names = actor_names(alloc, scene)?;
    let mut line = Line::new(alloc);
    print_body(&mut line, &names, journal, form, sink)?;
    print_end(&mut line, end, sink)
}
