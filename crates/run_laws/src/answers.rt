//! Each call but the last has its answer, in every history; and no actor goes back to an earlier start.

ghost use Rattle.std.specs.Prelude.{◌≡◌, ◌++◌, ◌∷◌, ℕ, List, Some};
ghost use Rattle.kernel_values.specs.SceneLaw.{SceneValue};
ghost use Rattle.kernel_values.specs.declared.call.Call.{Call};
ghost use Rattle.kernel_values.specs.declared.entry.ActorStatus.TheVariants as status;
ghost use Rattle.kernel_values.specs.declared.entry.Entry.{Entry};
ghost use Rattle.kernel_values.specs.declared.entry.Event.TheVariants as event;
ghost use Rattle.kernel_types.specs.Facts.{status_at};
ghost use Rattle.kernel_types.specs.History.{Legal, state_after};
ghost use Rattle.kernel_types.specs.Opening.{opening};
ghost use Rattle.run_laws.specs.Answered.{HasAnswers, IsFrom, Open};

/// In every legal history of a scene's opening state, whether or not it follows the scripts, an actor that runs has an answer to
/// each of its calls by its present start, and one that waits, to each but one. So when a call begins, every earlier call of that
/// start has its answer; and when a wait ends, every one but the last.
pub fn each_call_but_the_last_has_its_answer()
    ensures counts { (scene : SceneValue) (entries : List Entry) (actor : ℕ) → Legal (opening scene) entries → HasAnswers actor entries (status_at (state_after (opening scene) entries) actor) }
    ensures call { (scene : SceneValue) (before : List Entry) (entry : Entry) (after : List Entry) → Legal (opening scene) (before ++ entry ∷ after) → (actor start : ℕ) (asked : Call)
        → entry.event ≡ event.Begin (record { 0 = actor }) start asked → Open 0 actor start before }
    ensures end { (scene : SceneValue) (before : List Entry) (entry : Entry) (after : List Entry) → Legal (opening scene) (before ++ entry ∷ after) → (actor start : ℕ)
        → entry.event ≡ event.Resume (record { 0 = actor }) start → Open 1 actor start before }
{}

/// An actor that runs or waits does so by a start that is not before any by which it ran earlier in the history, and not before the
/// first.
pub fn starts_rise()
    ensures rise { (scene : SceneValue) (before after : List Entry) (actor start : ℕ) → Legal (opening scene) (before ++ after)
        → status_at (state_after (opening scene) before) actor ≡ Some (status.Running start) → IsFrom start (status_at (state_after (opening scene) (before ++ after)) actor) }
    ensures first { (scene : SceneValue) (entries : List Entry) (actor : ℕ) → Legal (opening scene) entries → IsFrom 1 (status_at (state_after (opening scene) entries) actor) }
{}
