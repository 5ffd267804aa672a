//! Runs of scenes go on, whatever their clients write into memory and rings.

ghost use Rattle.std.specs.Prelude.{◌≡◌, ℕ, List, Option, Some, true};
ghost use Rattle.kernel_values.specs.SceneLaw.{SceneValue, IsLawfulScene};
ghost use Rattle.kernel_values.specs.declared.scene.Turn.{Turn};
ghost use Rattle.kernel_types.specs.Turns.{Run, ran, run_by, next_turn, serial_turns};
ghost use Rattle.run_laws.specs.Progress.{CanBeTaken, IsWholeOrFull, MayTake};

/// After any turns of a scene each turn that the state allows can be taken: that of an actor which runs, or waits
/// and may move, the device's where it has work, and Idle's where it is lawful. So a thread or a client that runs
/// always has a next call, and the kernel has a body for it.
pub fn allowed_turns_can_be_taken()
    ensures { (scene : SceneValue) (turns : List Turn) (run : Run) (due : Turn) → IsLawfulScene scene → run_by scene turns ≡ ran run → MayTake run.state due → CanBeTaken scene run due }
{}

/// After any turns of a scene the turn that the serial order names next can be
/// taken, an actor's, the device's or Idle, whoever took the last one.
pub fn next_turns_can_be_taken()
    ensures { (scene : SceneValue) (turns : List Turn) (run : Run) (last : Option ℕ) (next : Turn) → IsLawfulScene scene → run_by scene turns ≡ ran run
        → next_turn run.state last ≡ Some next → CanBeTaken scene run next }
{}

/// A scene has a run of its serial turns. It is whole, or has as many entries as a
/// run may have: it never stands still before that.
pub fn serial_runs_go_on()
    ensures is_run { (scene : SceneValue) → IsLawfulScene scene → (run : Run) × (run_by scene (serial_turns scene) ≡ ran run) }
    ensures whole { (scene : SceneValue) (run : Run) → IsLawfulScene scene → run_by scene (serial_turns scene) ≡ ran run → IsWholeOrFull run }
{}
