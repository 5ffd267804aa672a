//! The command that checks a report.

ghost use Rattle.std.specs.Prelude.{◌≤◌, length};
ghost use Rattle.history_check.specs.Verdicts.{line_count};
ghost use Rattle.kernel_types.specs.Kernel.{step_limit};
ghost use Rattle.trusty_main.specs.Commanded.{IsDue, IsDueOfCheck, TellsSome};

use crate::status::Status;
use crate::telling::{tell_fault, tell_no, tell_yes};
use command_line::Command;
use history_check::{Verdict, check_text, cut};
use kernel_types::values::Scene;
use outside_io::{INPUT_LIMIT, Sink};
use program_kernel::kernel_of;
use scene_reader::{SceneRefused, read_scene};
use std::alloc::Global;

/// The input is a scene and a report, on which the verdict is told; or the scene's first fault is told.
#[tactic(auto, using(crate::proofs::Commanding::untold))]
pub fn check<K: Sink>(alloc: Global, input: &[u8], sink: &mut K) -> Status
    requires { length input.now ≤ INPUT_LIMIT }
    ensures tells { TellsSome (IsDue Command.Check input.now) (K.written sink.old) (K.written sink.new) (K.faults sink.old) (K.faults sink.new) result }
{
    let (scene, report) = cut(input);
    match read_scene(alloc, scene) {
        Ok(scene) => {
            let told = check_report(alloc, &scene, report, sink);
            drop(scene);
            told
        }
        Err(SceneRefused::Fault(fault)) => tell_fault(alloc, &fault, sink),
        Err(SceneRefused::NoMemory) => Status::NoMemory,
    }
}

#[tactic(auto, using(crate::proofs::Commanding::yes_told, crate::proofs::Commanding::no_told, crate::proofs::Commanding::untold))]
fn check_report<K: Sink>(alloc: Global, scene: &Scene, report: &[u8], sink: &mut K) -> Status
    requires { line_count report.now ≤ step_limit }
    ensures tells { TellsSome (IsDueOfCheck scene.now report.now) (K.written sink.old) (K.written sink.new) (K.faults sink.old) (K.faults sink.new) result }
{
    let Ok(kernel) = kernel_of(alloc, scene) else {
        return Status::NoMemory;
    };
    match check_text(alloc, kernel, scene, report) {
        Ok(Verdict::Yes(count)) => tell_yes(alloc, count, sink),
        Ok(Verdict::No(count)) => tell_no(alloc, count, sink),
        Err(_) => Status::NoMemory,
    }
}
