//! The top call: from the words and the input to what is written and the status.

ghost use Rattle.std.specs.Prelude.{◌≡◌, ◌+◌, ◌≤◌, ◌⊎◌, max, Some, None, map, length, string_bytes, IfNone, IfSome};
ghost use Rattle.std.specs.Io.KnownBytes.{Appends, Keeps};
ghost use Rattle.outside_io.specs.Faults.{Rose};
ghost use Rattle.outside_io.specs.Reading.{TakesMore};
ghost use Rattle.command_line.specs.Commands.{command_in};
ghost use Rattle.scene_reader.specs.Whole.{scene_of};
ghost use Rattle.trusty_main.specs.Answers.{HasScene};
ghost use Rattle.trusty_main.specs.Commanded.{AppendsSomeOf, DoneBy, Does, EndlessBy, GetsDueOf, HasCommand, IsDue, IsDueOfThreads, IsReported, ReportedBy, TellsLongOf, TellsSome, ToldBy, Unread};
ghost use Rattle.trusty_main.specs.Plans.{EndsInput, plain_of};
ghost use Rattle.trusty_main.specs.Texts.{usage_text};

use crate::plain::trusty_plain;
use crate::status::Status;
use crate::telling::{tell_fault, tell_report, tell_too_long};
use command_line::{Command, command_of};
use kernel_types::values::Scene;
use outside_io::{INPUT_LIMIT, READ_SIZE, ReadRefused, Sink, Source, read_all};
use program_kernel::kernel_of;
use report_text::Form;
use runners::{Hook, RunRefused, threads};
use scene_reader::{SceneRefused, read_scene};
use std::alloc::Global;
use std::sync::Wait;
use std::thread::Threads;

/// Runs the command that the words give: reads a scene to the source's end, runs it, and writes the
/// report; or checks the report that follows it; or makes a scene, without reading, and does the same. For `run` each actor has a
/// thread of its own, and the hook is called before each of its calls; that this returns is not promised. Every other command takes
/// no threads and always returns.
#[tactic(auto, unfolding(crate::specs::Plans::plain_in), using(crate::proofs::Reporting::unread, crate::proofs::Commanding::unknown_gets, crate::proofs::Commanding::unknown_long, crate::proofs::Commanding::unknown_unread))]
pub fn trusty<R: Threads + Wait + Sync, S: Source, K: Sink, H: Hook + Sync>(
    rt: &R,
    alloc: Global,
    words: &[String],
    source: &mut S,
    sink: &mut K,
    hook: &H,
) -> Status
    // Whatever turns the threads take, the bytes written are the report of one legal history of the sequential kernel,
    // in which each actor's calls are its script's, each once, in its order, to its end; and after every step of that
    // history each object's count, as the kernel gave it there, is the number of entries that name it, each object that
    // is there is named by some entry, and an ended application names none. Where clients write memory and rings through
    // the driver alone, what crosses the bridge in it is carried in order. In the history form no other history has this
    // report.
    ensures done { result ≡ Status.Done → HasCommand (command_in (map string_bytes words.now)) (λ command. DoneBy command (S.left source.old) (K.written sink.old) (K.written sink.new) × EndsInput command (S.left source.new)) }

    // Of `serial`, `replay` and `gen` that history is the run of their turns, in every form; and one that is too long has as many
    // legal entries as a run may have, by the scripts.
    ensures reported { result ≡ Status.Done → HasCommand (command_in (map string_bytes words.now)) (λ command. ReportedBy command (S.left source.old) (K.written sink.old) (K.written sink.new)) }
    ensures endless { result ≡ Status.RunTooLong → HasCommand (command_in (map string_bytes words.now)) (λ command. EndlessBy command (S.left source.old)) }

    // What is told is what is due: of `serial`, `replay` and `gen` the one text, of `run` that of some history, of `check` the verdict.
    ensures told { result ≡ Status.Done → HasCommand (command_in (map string_bytes words.now)) (λ command. ToldBy command (S.left source.old) (S.left source.new) Status.Done (K.written sink.old) (K.written sink.new)) }
    ensures input_refused { result ≡ Status.InputRefused → HasCommand (command_in (map string_bytes words.now)) (λ command. ToldBy command (S.left source.old) (S.left source.new) Status.InputRefused (K.written sink.old) (K.written sink.new)) }
    ensures turn_refused { result ≡ Status.TurnRefused → HasCommand (command_in (map string_bytes words.now)) (λ command. ToldBy command (S.left source.old) (S.left source.new) Status.TurnRefused (K.written sink.old) (K.written sink.new)) }
    ensures history_refused { result ≡ Status.HistoryRefused → HasCommand (command_in (map string_bytes words.now)) (λ command. ToldBy command (S.left source.old) (S.left source.new) Status.HistoryRefused (K.written sink.old) (K.written sink.new)) }
    ensures run_too_long { result ≡ Status.RunTooLong → HasCommand (command_in (map string_bytes words.now)) (λ command. ToldBy command (S.left source.old) (S.left source.new) Status.RunTooLong (K.written sink.old) (K.written sink.new)) }
    ensures usage { result ≡ Status.Usage → (command_in (map string_bytes words.now) ≡ None) × Appends (K.written sink.old) (K.written sink.new) usage_text × (source.new ≡ source.old) }

    // A fault is answered only where it came, and then a front of what is due was written, but not all of it; so where
    // memory was wanted.
    ensures read_fault { result ≡ Status.ReadFault → Rose (S.faults source.old) (S.faults source.new) × Keeps (K.written sink.old) (K.written sink.new) }
    ensures write_fault { result ≡ Status.WriteFault → Rose (K.faults sink.old) (K.faults sink.new) × AppendsSomeOf (command_in (map string_bytes words.now)) (S.left source.old) (K.written sink.old) (K.written sink.new) }
    ensures no_memory { result ≡ Status.NoMemory → AppendsSomeOf (command_in (map string_bytes words.now)) (S.left source.old) (K.written sink.old) (K.written sink.new) }
    ensures input_too_long { result ≡ Status.InputTooLong → TakesMore INPUT_LIMIT (S.left source.old) (S.left source.new) × Keeps (K.written sink.old) (K.written sink.new) }
    ensures later { (S.faults source.old ≤ S.faults source.new) × (K.faults sink.old ≤ K.faults sink.new) }

    // Words that are no command are told so, and a command whose input is within the limit gets what is due, where
    // no read and no write failed and memory was there.
    ensures no_command { command_in (map string_bytes words.now) ≡ None → (result ≡ Status.Usage) ⊎ (result ≡ Status.WriteFault) ⊎ (result ≡ Status.NoMemory) }
    ensures complete { GetsDueOf (command_in (map string_bytes words.now)) (S.left source.old) INPUT_LIMIT result }
    ensures past_limit { TellsLongOf (command_in (map string_bytes words.now)) (S.left source.old) INPUT_LIMIT result }

    // One read for each byte and one more, at most, and none asks for more than a piece; where a scene is made, none.
    ensures reads { S.calls source.new ≤ S.calls source.old + INPUT_LIMIT + 1 }
    ensures reads_of { IfSome (S.left source.old) (λ input. S.calls source.new ≤ S.calls source.old + length input + 1) }
    ensures asked { S.asked source.new ≤ max (S.asked source.old) READ_SIZE }
    ensures unread { IfSome (command_in (map string_bytes words.now)) (λ command. Unread command source.old source.new) }
{
    let command = match command_of(alloc, words) {
        Ok(command) => command,
        Err(_) => return Status::NoMemory,
    };
    match threaded(command) {
        Some(form) => run(rt, alloc, form, source, sink, hook),
        None => trusty_plain(alloc, words, source, sink),
    }
}

// The form of a command that takes threads.
fn threaded(command: Option<Command>) -> Option<Form>
    ensures threads { IfSome result (λ form. command ≡ Some (Command.Run form)) }
    ensures plain { IfNone result (plain_of command ≡ command) }
{
    match command {
        None => None,
        Some(Command::Serial(_)) => None,
        Some(Command::Replay(_)) => None,
        Some(Command::Gen { .. }) => None,
        Some(Command::Check) => None,
        Some(Command::Run(form)) => Some(form),
    }
}

// Reads a scene and runs it by threads.
#[tactic(auto, using(crate::proofs::Commanding::does_failed, crate::proofs::Commanding::does_unread, crate::proofs::Commanding::does_long, crate::proofs::Commanding::run_reads, crate::proofs::Commanding::no_fault_here))]
fn run<R: Threads + Wait + Sync, S: Source, K: Sink, H: Hook + Sync>(
    rt: &R,
    alloc: Global,
    form: Form,
    source: &mut S,
    sink: &mut K,
    hook: &H,
) -> Status
    ensures does { Does (Command.Run form) INPUT_LIMIT (S.left source.old) (S.left source.new) (K.written sink.old) (K.written sink.new) (K.faults sink.old) (K.faults sink.new) result }
    ensures done { result ≡ Status.Done → DoneBy (Command.Run form) (S.left source.old) (K.written sink.old) (K.written sink.new) }
    ensures read_fault { result ≡ Status.ReadFault → Rose (S.faults source.old) (S.faults source.new) × Keeps (K.written sink.old) (K.written sink.new) }
    ensures input_too_long { result ≡ Status.InputTooLong → TakesMore INPUT_LIMIT (S.left source.old) (S.left source.new) × Keeps (K.written sink.old) (K.written sink.new) }
    ensures later { S.faults source.old ≤ S.faults source.new }
    ensures reads { S.calls source.new ≤ S.calls source.old + INPUT_LIMIT + 1 }
    ensures reads_of { IfSome (S.left source.old) (λ input. S.calls source.new ≤ S.calls source.old + length input + 1) }
    ensures asked { S.asked source.new ≤ max (S.asked source.old) READ_SIZE }
{
    let input = match read_all(alloc, source) {
        Ok(input) => input,
        Err(ReadRefused::Failed) => return Status::ReadFault,
        Err(ReadRefused::TooLong) => return Status::InputTooLong,
        Err(ReadRefused::NoMemory) => return Status::NoMemory,
    };
    answer(rt, alloc, form, input.as_slice(), sink, hook)
}

// The input is a scene that is run, or its first fault is told.
#[tactic(auto, using(crate::proofs::Commanding::untold))]
fn answer<R: Threads + Wait + Sync, K: Sink, H: Hook + Sync>(
    rt: &R,
    alloc: Global,
    form: Form,
    input: &[u8],
    sink: &mut K,
    hook: &H,
) -> Status
    requires { length input.now ≤ INPUT_LIMIT }
    ensures tells { TellsSome (IsDue (Command.Run form) input.now) (K.written sink.old) (K.written sink.new) (K.faults sink.old) (K.faults sink.new) result }
    ensures done { result ≡ Status.Done → HasScene (scene_of input.now) (λ scene. IsReported form scene (K.written sink.old) (K.written sink.new)) }
{
    match read_scene(alloc, input) {
        Ok(scene) => {
            let told = run_scene(rt, alloc, form, &scene, sink, hook);
            drop(scene);
            told
        }
        Err(SceneRefused::Fault(fault)) => tell_fault(alloc, &fault, sink),
        Err(SceneRefused::NoMemory) => Status::NoMemory,
    }
}

#[tactic(auto, using(crate::proofs::Commanding::whole_told, crate::proofs::Commanding::limit_told, crate::proofs::Commanding::untold))]
fn run_scene<R: Threads + Wait + Sync, K: Sink, H: Hook + Sync>(
    rt: &R,
    alloc: Global,
    form: Form,
    scene: &Scene,
    sink: &mut K,
    hook: &H,
) -> Status
    ensures tells { TellsSome (IsDueOfThreads scene.now form) (K.written sink.old) (K.written sink.new) (K.faults sink.old) (K.faults sink.new) result }
    ensures done { result ≡ Status.Done → IsReported form scene.now (K.written sink.old) (K.written sink.new) }
{
    let Ok(kernel) = kernel_of(alloc, scene) else {
        return Status::NoMemory;
    };
    match threads(rt, alloc, kernel, scene, hook) {
        Ok(logged) => {
            let told = tell_report(alloc, form, scene, &logged, sink);
            drop(logged);
            told
        }
        Err(RunRefused::TooLong(cut)) => {
            drop(cut);
            tell_too_long(sink)
        }
        Err(RunRefused::NoMemory) => Status::NoMemory,
    }
}
