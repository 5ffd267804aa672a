//! The commands that take no threads: from the words and the input to what is written and the status.

ghost use Rattle.std.specs.Prelude.{◌≡◌, ◌+◌, ◌≤◌, ◌⊎◌, max, Some, None, Ok, map, length, string_bytes, IfSome, []};
ghost use Rattle.std.specs.Io.KnownBytes.{Appends, Keeps};
ghost use Rattle.outside_io.specs.Faults.{Rose};
ghost use Rattle.outside_io.specs.Reading.{TakesMore};
ghost use Rattle.scene_reader.specs.Whole.{scene_of};
ghost use Rattle.scene_generator.specs.Generated.{generated};
ghost use Rattle.kernel_types.specs.Opening.{opening};
ghost use Rattle.kernel_types.specs.Turns.{history_limit};
ghost use Rattle.trusty_main.specs.Answers.{IsEndless, ReportsRun, Tells, HasScene};
ghost use Rattle.trusty_main.specs.Commanded.{AppendsSomeOf, Does, EndlessBy, GetsDueOf, HasCommand, IsDue, ReportedBy, TellsLongOf, TellsSome, ToldBy, Unread};
ghost use Rattle.trusty_main.specs.Due.{due_of_run};
ghost use Rattle.trusty_main.specs.Plans.{MakesFew, as_command, command_by, command_for, outturn_of, plain_in, plan_of, scene_by};
ghost use Rattle.trusty_main.specs.Texts.{usage_text};
ghost use Rattle.command_line.specs.declared.command.Command.TheVariants.{Gen};

use crate::check::check;
use crate::plan::{Making, Order, Plan, Purpose, Task, task_of};
use crate::status::Status;
use crate::telling::{tell_fault, tell_report, tell_too_long, tell_turn, tell_usage};
use kernel_types::IpcKernel;
use kernel_types::values::{NoMemory, Scene};
use outside_io::{INPUT_LIMIT, READ_SIZE, ReadRefused, Sink, Source, read_all};
use program_kernel::kernel_of;
use report_text::Form;
use runners::{ReplayRefused, RunRefused, replay, serial};
use scene_generator::generated;
use scene_laws::turns_take_bytes;
use scene_reader::{SceneRefused, read_scene};
use std::alloc::Global;

/// Does what the words command: reads the source to its end, runs the scene that it spells and writes the report, or tells
/// the verdict on the report that follows it; `gen` reads nothing, and runs the scene that its words give. `run` takes threads,
/// and is no command here.
#[tactic(auto, using(crate::proofs::Reporting::unread, crate::proofs::Commanding::unknown_gets, crate::proofs::Commanding::unknown_long, crate::proofs::Commanding::unknown_unread))]
pub fn trusty_plain<S: Source, K: Sink>(
    alloc: Global,
    words: &[String],
    source: &mut S,
    sink: &mut K,
) -> Status
    // What is told is what is due: the one text that the command and the input mean, with its status.
    ensures told { result ≡ Status.Done → HasCommand (plain_in (map string_bytes words.now)) (λ command. ToldBy command (S.left source.old) (S.left source.new) Status.Done (K.written sink.old) (K.written sink.new)) }
    ensures input_refused { result ≡ Status.InputRefused → HasCommand (plain_in (map string_bytes words.now)) (λ command. ToldBy command (S.left source.old) (S.left source.new) Status.InputRefused (K.written sink.old) (K.written sink.new)) }
    ensures turn_refused { result ≡ Status.TurnRefused → HasCommand (plain_in (map string_bytes words.now)) (λ command. ToldBy command (S.left source.old) (S.left source.new) Status.TurnRefused (K.written sink.old) (K.written sink.new)) }
    ensures history_refused { result ≡ Status.HistoryRefused → HasCommand (plain_in (map string_bytes words.now)) (λ command. ToldBy command (S.left source.old) (S.left source.new) Status.HistoryRefused (K.written sink.old) (K.written sink.new)) }
    ensures run_too_long { result ≡ Status.RunTooLong → HasCommand (plain_in (map string_bytes words.now)) (λ command. ToldBy command (S.left source.old) (S.left source.new) Status.RunTooLong (K.written sink.old) (K.written sink.new)) }
    ensures usage { result ≡ Status.Usage → (plain_in (map string_bytes words.now) ≡ None) × Appends (K.written sink.old) (K.written sink.new) usage_text × (source.new ≡ source.old) }

    // The bytes written for a run are the report of the run of the scene that was left or made: a legal and whole history, after
    // every step of which each object that is there is named, and an ended application names none; for honest clients, frames
    // cross in order. The report was written by the counts that the kernel gave after each step, and in the history form it is
    // the report of no other history. A run that is too long has as many legal entries as a run may have, by the scripts.
    ensures reported { result ≡ Status.Done → HasCommand (plain_in (map string_bytes words.now)) (λ command. ReportedBy command (S.left source.old) (K.written sink.old) (K.written sink.new)) }
    ensures endless { result ≡ Status.RunTooLong → HasCommand (plain_in (map string_bytes words.now)) (λ command. EndlessBy command (S.left source.old)) }

    // A fault is answered only where it came, and then a front of what is due was written, but not all of it; so where
    // memory was wanted.
    ensures read_fault { result ≡ Status.ReadFault → Rose (S.faults source.old) (S.faults source.new) × Keeps (K.written sink.old) (K.written sink.new) }
    ensures write_fault { result ≡ Status.WriteFault → Rose (K.faults sink.old) (K.faults sink.new) × AppendsSomeOf (plain_in (map string_bytes words.now)) (S.left source.old) (K.written sink.old) (K.written sink.new) }
    ensures no_memory { result ≡ Status.NoMemory → AppendsSomeOf (plain_in (map string_bytes words.now)) (S.left source.old) (K.written sink.old) (K.written sink.new) }
    ensures input_too_long { result ≡ Status.InputTooLong → TakesMore INPUT_LIMIT (S.left source.old) (S.left source.new) × Keeps (K.written sink.old) (K.written sink.new) }
    ensures later { (S.faults source.old ≤ S.faults source.new) × (K.faults sink.old ≤ K.faults sink.new) }

    // Words that are no command are told so, and a command whose input is within the limit gets what is due, where
    // no read and no write failed and memory was there.
    ensures no_command { plain_in (map string_bytes words.now) ≡ None → (result ≡ Status.Usage) ⊎ (result ≡ Status.WriteFault) ⊎ (result ≡ Status.NoMemory) }
    ensures complete { GetsDueOf (plain_in (map string_bytes words.now)) (S.left source.old) INPUT_LIMIT result }
    ensures past_limit { TellsLongOf (plain_in (map string_bytes words.now)) (S.left source.old) INPUT_LIMIT result }

    // One read for each byte and one more, at most, and none asks for more than a piece; where a scene is made, none.
    ensures reads { S.calls source.new ≤ S.calls source.old + INPUT_LIMIT + 1 }
    ensures reads_of { IfSome (S.left source.old) (λ input. S.calls source.new ≤ S.calls source.old + length input + 1) }
    ensures asked { S.asked source.new ≤ max (S.asked source.old) READ_SIZE }
    ensures unread { IfSome (plain_in (map string_bytes words.now)) (λ command. Unread command source.old source.new) }
{
    match task_of(alloc, words) {
        Ok(Some(task)) => perform(alloc, task, source, sink),
        Ok(None) => tell_usage(sink),
        Err(_) => Status::NoMemory,
    }
}

// Reads the input for a purpose, or makes a scene.
#[tactic(auto, using(crate::proofs::Reporting::unread))]
fn perform<S: Source, K: Sink>(alloc: Global, task: Task, source: &mut S, sink: &mut K) -> Status
    requires { MakesFew (Some task) }
    ensures does { Does (as_command task) INPUT_LIMIT (S.left source.old) (S.left source.new) (K.written sink.old) (K.written sink.new) (K.faults sink.old) (K.faults sink.new) result }
    ensures reported { result ≡ Status.Done → ReportedBy (as_command task) (S.left source.old) (K.written sink.old) (K.written sink.new) }
    ensures endless { result ≡ Status.RunTooLong → EndlessBy (as_command task) (S.left source.old) }
    ensures read_fault { result ≡ Status.ReadFault → Rose (S.faults source.old) (S.faults source.new) × Keeps (K.written sink.old) (K.written sink.new) }
    ensures input_too_long { result ≡ Status.InputTooLong → TakesMore INPUT_LIMIT (S.left source.old) (S.left source.new) × Keeps (K.written sink.old) (K.written sink.new) }
    ensures later { S.faults source.old ≤ S.faults source.new }
    ensures reads { S.calls source.new ≤ S.calls source.old + INPUT_LIMIT + 1 }
    ensures reads_of { IfSome (S.left source.old) (λ input. S.calls source.new ≤ S.calls source.old + length input + 1) }
    ensures asked { S.asked source.new ≤ max (S.asked source.old) READ_SIZE }
    ensures unread { Unread (as_command task) source.old source.new }
{
    match task {
        Task::Read(purpose) => read(alloc, purpose, source, sink),
        Task::Make(making) => make(alloc, making, sink),
    }
}

// Reads the input to its end, for this.
#[tactic(auto, using(crate::proofs::Commanding::does_failed, crate::proofs::Commanding::does_unread, crate::proofs::Commanding::does_long, crate::proofs::Commanding::reads_for, crate::proofs::Commanding::no_fault_here))]
fn read<S: Source, K: Sink>(alloc: Global, purpose: Purpose, source: &mut S, sink: &mut K) -> Status
    ensures does { Does (command_for purpose) INPUT_LIMIT (S.left source.old) (S.left source.new) (K.written sink.old) (K.written sink.new) (K.faults sink.old) (K.faults sink.new) result }
    ensures reported { result ≡ Status.Done → ReportedBy (command_for purpose) (S.left source.old) (K.written sink.old) (K.written sink.new) }
    ensures endless { result ≡ Status.RunTooLong → EndlessBy (command_for purpose) (S.left source.old) }
    ensures read_fault { result ≡ Status.ReadFault → Rose (S.faults source.old) (S.faults source.new) × Keeps (K.written sink.old) (K.written sink.new) }
    ensures input_too_long { result ≡ Status.InputTooLong → TakesMore INPUT_LIMIT (S.left source.old) (S.left source.new) × Keeps (K.written sink.old) (K.written sink.new) }
    ensures later { S.faults source.old ≤ S.faults source.new }
    ensures reads { S.calls source.new ≤ S.calls source.old + INPUT_LIMIT + 1 }
    ensures reads_of { IfSome (S.left source.old) (λ input. S.calls source.new ≤ S.calls source.old + length input + 1) }
    ensures asked { S.asked source.new ≤ max (S.asked source.old) READ_SIZE }
{
    let input = match read_all(alloc, source) {
        Ok(input) => input,
        Err(ReadRefused::Failed) => return Status::ReadFault,
        Err(ReadRefused::TooLong) => return Status::InputTooLong,
        Err(ReadRefused::NoMemory) => return Status::NoMemory,
    };
    serve(alloc, purpose, input.as_slice(), sink)
}

// A run of the scene that the input is, or the check of the report behind it.
fn serve<K: Sink>(alloc: Global, purpose: Purpose, input: &[u8], sink: &mut K) -> Status
    requires { length input.now ≤ INPUT_LIMIT }
    ensures tells { TellsSome (IsDue (command_for purpose) input.now) (K.written sink.old) (K.written sink.new) (K.faults sink.old) (K.faults sink.new) result }
    ensures reported { result ≡ Status.Done → IfSome (plan_of (command_for purpose)) (λ plan. HasScene (scene_by (command_for purpose) input.now) (λ scene. ReportsRun plan.order plan.form scene (K.written sink.old) (K.written sink.new))) }
    ensures endless { result ≡ Status.RunTooLong → IfSome (plan_of (command_for purpose)) (λ plan. HasScene (scene_by (command_for purpose) input.now) (λ scene. IsEndless plan.order scene)) }
{
    match purpose {
        Purpose::Run(plan) => answer(alloc, plan, input, sink),
        Purpose::Check => check(alloc, input, sink),
    }
}

// The input is a scene that is run, or its first fault is told.
#[tactic(auto, using(crate::proofs::Commanding::untold))]
fn answer<K: Sink>(alloc: Global, plan: Plan, input: &[u8], sink: &mut K) -> Status
    requires { length input.now ≤ INPUT_LIMIT }
    ensures tells { TellsSome (IsDue (command_by plan.order plan.form) input.now) (K.written sink.old) (K.written sink.new) (K.faults sink.old) (K.faults sink.new) result }
    ensures reported { result ≡ Status.Done → HasScene (scene_of input.now) (λ scene. ReportsRun plan.order plan.form scene (K.written sink.old) (K.written sink.new)) }
    ensures endless { result ≡ Status.RunTooLong → HasScene (scene_of input.now) (λ scene. IsEndless plan.order scene) }
{
    match read_scene(alloc, input) {
        Ok(scene) => {
            turns_take_bytes();
            let told = run(alloc, plan, &scene, sink);
            drop(scene);
            told
        }
        Err(SceneRefused::Fault(fault)) => tell_fault(alloc, &fault, sink),
        Err(SceneRefused::NoMemory) => Status::NoMemory,
    }
}

// The scene of a seed is run.
#[tactic(auto, using(crate::proofs::Commanding::untold))]
fn make<K: Sink>(alloc: Global, making: Making, sink: &mut K) -> Status
    requires { making.count ≤ 10000 }
    ensures tells { TellsSome (IsDue (Gen making.seed making.count making.form) []) (K.written sink.old) (K.written sink.new) (K.faults sink.old) (K.faults sink.new) result }
    ensures reported { result ≡ Status.Done → ReportsRun Order.Serial making.form (generated making.seed making.count) (K.written sink.old) (K.written sink.new) }
    ensures endless { result ≡ Status.RunTooLong → IsEndless Order.Serial (generated making.seed making.count) }
{
    let Ok(scene) = generated(alloc, making.seed, making.count) else {
        return Status::NoMemory;
    };
    let plan = Plan {
        order: Order::Serial,
        form: making.form,
    };
    let told = run(alloc, plan, &scene, sink);
    drop(scene);
    told
}

fn run<K: Sink>(alloc: Global, plan: Plan, scene: &Scene, sink: &mut K) -> Status
    requires turns { length scene.now.turns ≤ history_limit }
    ensures tells { Tells (due_of_run scene.now plan.form (outturn_of plan.order scene.now)) (K.written sink.old) (K.written sink.new) (K.faults sink.old) (K.faults sink.new) result }
    ensures reported { result ≡ Status.Done → ReportsRun plan.order plan.form scene.now (K.written sink.old) (K.written sink.new) }
    ensures endless { result ≡ Status.RunTooLong → IsEndless plan.order scene.now }
{
    let Ok(kernel) = kernel_of(alloc, scene) else {
        return Status::NoMemory;
    };
    match plan.order {
        Order::Serial => run_serially(alloc, plan.form, kernel, scene, sink),
        Order::Replay => run_turns(alloc, plan.form, kernel, scene, sink),
    }
}

#[tactic(auto, using(crate::proofs::Reporting::tells_due, crate::proofs::Reporting::whole_is_due, crate::proofs::Reporting::unfinished_is_due, crate::proofs::Headline::is_history))]
fn run_serially<C: IpcKernel + Drop, K: Sink>(
    alloc: Global,
    form: Form,
    kernel: C,
    scene: &Scene,
    sink: &mut K,
) -> Status
    requires state { C.state kernel ≡ opening scene.now }
    requires made { C.made kernel ≡ 0 }
    ensures tells { Tells (due_of_run scene.now form (outturn_of Order.Serial scene.now)) (K.written sink.old) (K.written sink.new) (K.faults sink.old) (K.faults sink.new) result }
    ensures reported { result ≡ Status.Done → ReportsRun Order.Serial form scene.now (K.written sink.old) (K.written sink.new) }
    ensures endless { result ≡ Status.RunTooLong → IsEndless Order.Serial scene.now }
{
    match serial(alloc, kernel, scene) {
        Ok(logged) => {
            let told = tell_report(alloc, form, scene, &logged, sink);
            drop(logged);
            told
        }
        Err(RunRefused::TooLong(cut)) => {
            drop(cut);
            tell_too_long(sink)
        }
        Err(RunRefused::NoMemory) => Status::NoMemory,
    }
}

#[tactic(auto, using(crate::proofs::Reporting::tells_due, crate::proofs::Reporting::whole_is_due, crate::proofs::Reporting::refused_is_due, crate::proofs::Headline::is_history))]
fn run_turns<C: IpcKernel + Drop, K: Sink>(
    alloc: Global,
    form: Form,
    kernel: C,
    scene: &Scene,
    sink: &mut K,
) -> Status
    requires state { C.state kernel ≡ opening scene.now }
    requires made { C.made kernel ≡ 0 }
    requires turns { length scene.now.turns ≤ history_limit }
    ensures tells { Tells (due_of_run scene.now form (outturn_of Order.Replay scene.now)) (K.written sink.old) (K.written sink.new) (K.faults sink.old) (K.faults sink.new) result }
    ensures reported { result ≡ Status.Done → ReportsRun Order.Replay form scene.now (K.written sink.old) (K.written sink.new) }
    ensures endless { result ≡ Status.RunTooLong → IsEndless Order.Replay scene.now }
{
    match replay(alloc, kernel, scene) {
        Ok(logged) => {
            let told = tell_report(alloc, form, scene, &logged, sink);
            drop(logged);
            told
        }
        Err(ReplayRefused::Turn(turn)) => tell_turn(alloc, turn, sink),
        Err(ReplayRefused::NoMemory) => Status::NoMemory,
    }
}
