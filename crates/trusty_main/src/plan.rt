//! What a command without threads is to do.

ghost use Rattle.std.specs.Prelude.{◌≡◌, IfOk, map, option_map, string_bytes};
ghost use Rattle.trusty_main.specs.Plans.{MakesFew, as_command, plain_in};

use command_line::{Command, command_of};
use kernel_types::values::NoMemory;
use report_text::Form;
use std::alloc::Global;

/// The order in which a command takes turns.
#[derive(Clone, Copy, PartialEq, Eq, Debug)]
pub enum Order {
    /// One actor after another.
    Serial,
    /// By the scene's own list.
    Replay,
}

/// A run and its report.
#[derive(Clone, Copy, PartialEq, Eq, Debug)]
pub struct Plan {
    pub order: Order,
    pub form: Form,
}

/// What is done with an input.
#[derive(Clone, Copy, PartialEq, Eq, Debug)]
pub enum Purpose {
    /// To run the scene that it spells and report on it.
    Run(Plan),
    /// To check the report behind the scene.
    Check,
}

/// A scene that is made, and its report's form.
#[derive(Clone, Copy, PartialEq, Eq, Debug)]
pub struct Making {
    pub seed: u64,
    pub count: u32,
    pub form: Form,
}

/// What a command without threads is to do.
#[derive(Clone, Copy, PartialEq, Eq, Debug)]
pub enum Task {
    /// To read the input, for this.
    Read(Purpose),
    /// To run a scene that a seed gives, without reading.
    Make(Making),
}

/// The task that the words command; none where they are no command, or one that takes threads.
#[tactic(auto, unfolding(crate::specs::Plans::plain_in))]
pub fn task_of(alloc: Global, words: &[String]) -> Result<Option<Task>, NoMemory>
    ensures command { IfOk result (λ task. option_map as_command task ≡ plain_in (map string_bytes words.now)) }
    ensures few { IfOk result (λ task. MakesFew task) }
{
    Ok(match command_of(alloc, words)? {
        Some(Command::Serial(form)) => Some(Task::Read(Purpose::Run(Plan {
            order: Order::Serial,
            form,
        }))),
        Some(Command::Replay(form)) => Some(Task::Read(Purpose::Run(Plan {
            order: Order::Replay,
            form,
        }))),
        Some(Command::Gen { seed, count, form }) => Some(Task::Make(Making { seed, count, form })),
        Some(Command::Check) => Some(Task::Read(Purpose::Check)),
        Some(Command::Run(_)) | None => None,
    })
}
