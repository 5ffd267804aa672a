//! What is written: a report, or a line that says why there is none.

ghost use Rattle.std.specs.Prelude.{◌≡◌, ◌≢◌, ◌≤◌, ◌⊎◌, OnOk};
ghost use Rattle.std.specs.Io.KnownBytes.{Appends};
ghost use Rattle.outside_io.specs.Faults.{Rose};
ghost use Rattle.outside_io.specs.Writing.{AppendsFront};
ghost use Rattle.kernel_types.specs.Opening.{opening};
ghost use Rattle.report_text.specs.Forms.{report};
ghost use Rattle.report_text.specs.Printing.{Prints};
ghost use Rattle.trusty_main.specs.Answers.{Tells, IsReportOf};
ghost use Rattle.trusty_main.specs.Texts.{usage_text, fault_text, turn_text, too_long_text, yes_text, no_text};

use crate::status::Status;
use crate::texts::{fault_line, no_line, too_long_line, turn_line, usage_line, yes_line};
use kernel_log::Logged;
use kernel_types::IpcKernel;
use kernel_types::values::Scene;
use outside_io::{Sink, write_all};
use report_text::{Form, PrintRefused, print_report};
use scene_reader::SceneFault;
use std::alloc::Global;

/// The words are no command.
pub fn tell_usage<K: Sink>(sink: &mut K) -> Status
    ensures usage { result ≡ Status.Usage → Appends (K.written sink.old) (K.written sink.new) usage_text }
    ensures write_fault { result ≡ Status.WriteFault → Rose (K.faults sink.old) (K.faults sink.new) × AppendsFront (K.written sink.old) (K.written sink.new) usage_text }
    ensures only { (result ≡ Status.Usage) ⊎ (result ≡ Status.WriteFault) }
    ensures later { K.faults sink.old ≤ K.faults sink.new }
{
    match write_all(sink, usage_line()) {
        Ok(()) => Status::Usage,
        Err(_) => Status::WriteFault,
    }
}

/// The scene has a fault.
pub fn tell_fault<K: Sink>(alloc: Global, fault: &SceneFault, sink: &mut K) -> Status
    ensures tells { Tells (record { status = Status.InputRefused; text = fault_text fault.now }) (K.written sink.old) (K.written sink.new) (K.faults sink.old) (K.faults sink.new) result }
{
    let Ok(line) = fault_line(alloc, fault) else {
        return Status::NoMemory;
    };
    match write_all(sink, line.as_slice()) {
        Ok(()) => Status::InputRefused,
        Err(_) => Status::WriteFault,
    }
}

/// The run is not whole after as many entries as a run may have.
pub fn tell_too_long<K: Sink>(sink: &mut K) -> Status
    ensures tells { Tells (record { status = Status.RunTooLong; text = too_long_text }) (K.written sink.old) (K.written sink.new) (K.faults sink.old) (K.faults sink.new) result }
{
    match write_all(sink, too_long_line()) {
        Ok(()) => Status::RunTooLong,
        Err(_) => Status::WriteFault,
    }
}

/// A turn of the list is not lawful, or the list ends before the run.
pub fn tell_turn<K: Sink>(alloc: Global, turn: u64, sink: &mut K) -> Status
    ensures tells { Tells (record { status = Status.TurnRefused; text = turn_text turn }) (K.written sink.old) (K.written sink.new) (K.faults sink.old) (K.faults sink.new) result }
{
    let Ok(line) = turn_line(alloc, turn) else {
        return Status::NoMemory;
    };
    match write_all(sink, line.as_slice()) {
        Ok(()) => Status::TurnRefused,
        Err(_) => Status::WriteFault,
    }
}

/// The report that was checked is that of a history with so many entries.
pub fn tell_yes<K: Sink>(alloc: Global, count: u64, sink: &mut K) -> Status
    ensures tells { Tells (record { status = Status.Done; text = yes_text count }) (K.written sink.old) (K.written sink.new) (K.faults sink.old) (K.faults sink.new) result }
{
    let Ok(line) = yes_line(alloc, count) else {
        return Status::NoMemory;
    };
    match write_all(sink, line.as_slice()) {
        Ok(()) => Status::Done,
        Err(_) => Status::WriteFault,
    }
}

/// It is that of none; so many of its entries are those of one.
pub fn tell_no<K: Sink>(alloc: Global, count: u64, sink: &mut K) -> Status
    ensures tells { Tells (record { status = Status.HistoryRefused; text = no_text count }) (K.written sink.old) (K.written sink.new) (K.faults sink.old) (K.faults sink.new) result }
{
    let Ok(line) = no_line(alloc, count) else {
        return Status::NoMemory;
    };
    match write_all(sink, line.as_slice()) {
        Ok(()) => Status::HistoryRefused,
        Err(_) => Status::WriteFault,
    }
}

// Prints the report of the history that the kernel's journal has.
#[tactic(auto, using(crate::proofs::Reporting::told_is_report))]
fn print<C: IpcKernel + Drop, K: Sink>(
    alloc: Global,
    form: Form,
    scene: &Scene,
    logged: &Logged<C>,
    sink: &mut K,
) -> Result<(), PrintRefused>
    requires { logged.now.origin.state ≡ opening scene.now }
    ensures prints { Prints (K.written sink.old) (K.written sink.new) (K.faults sink.old) (K.faults sink.new) (K.calls sink.old) (K.calls sink.new) result (report scene.now logged.now.journal.entries form) }
    ensures reports { OnOk result (IsReportOf form scene.now logged.now.journal.entries (K.written sink.old) (K.written sink.new)) }
{
    logged.legal();
    let end = logged.kernel().end_facts();
    print_report(alloc, scene, logged.journal(), &end, form, sink)
}

/// The report of the history that the kernel's journal has.
pub fn tell_report<C: IpcKernel + Drop, K: Sink>(
    alloc: Global,
    form: Form,
    scene: &Scene,
    logged: &Logged<C>,
    sink: &mut K,
) -> Status
    requires { logged.now.origin.state ≡ opening scene.now }
    ensures tells { Tells (record { status = Status.Done; text = report scene.now logged.now.journal.entries form }) (K.written sink.old) (K.written sink.new) (K.faults sink.old) (K.faults sink.new) result }
    ensures only { (result ≢ Status.RunTooLong) × (result ≢ Status.TurnRefused) × (result ≢ Status.HistoryRefused) }
    ensures reports { result ≡ Status.Done → IsReportOf form scene.now logged.now.journal.entries (K.written sink.old) (K.written sink.new) }
{
    match print(alloc, form, scene, logged, sink) {
        Ok(()) => Status::Done,
        Err(PrintRefused::Failed) => Status::WriteFault,
        Err(PrintRefused::NoMemory) => Status::NoMemory,
    }
}
