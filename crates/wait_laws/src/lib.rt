//! Laws of waits: when one ends with CANCELLED, and that nothing else answers it.
#![tactic(auto)]

ghost use Rattle.std.specs.Prelude.{◌≡◌, ◌≤◌, ◌++◌, ◌∷◌, ◌&&◌, ℕ, IsTrue, List, Some, false, length, not, true};
ghost use Rattle.std.specs.List.{list_all, list_any};
ghost use Rattle.kernel_values.specs.SceneLaw.{IsLawfulScene, SceneValue, scripts_of};
ghost use Rattle.kernel_values.specs.declared.entry.Entry.{Entry};
ghost use Rattle.kernel_values.specs.declared.entry.Event.{Event};
ghost use Rattle.kernel_values.specs.declared.entry.Event.TheVariants as event;
ghost use Rattle.kernel_values.specs.declared.state.State.{State};
ghost use Rattle.kernel_types.specs.Carried.{is_honest};
ghost use Rattle.kernel_types.specs.History.{Legal, state_after};
ghost use Rattle.kernel_types.specs.Opening.{opening};
ghost use Rattle.kernel_types.specs.Step.{Stepped, is_thread, step};
ghost use Rattle.kernel_types.specs.Turns.{history_limit};
ghost use Rattle.kernel_types.specs.Whole.{FollowsScripts};
ghost use Rattle.wait_laws.specs.Cancelling.{BegunWait, cancels, is_cancelled, is_client_told, is_end_of_wait, is_told};

/// In every history from an opening state, the end of a thread's wait answers CANCELLED exactly where nothing is
/// reported to the wait, nor its connect decided, and an Idle cancelled all waits since the wait began. It began
/// with a call of the thread by the same start, whose answer was that it waits, and no other entry of the thread
/// came since.
pub fn cancelled_where_an_idle_cancelled()
    ensures { (scene : SceneValue) (before : List Entry) (entry : Entry) (after : List Entry) → Legal (opening scene) (before ++ entry ∷ after) → (thread start : ℕ)
        → is_thread (state_after (opening scene) before) thread ≡ true → entry.event ≡ event.Resume (record { 0 = thread }) start
        → (begun : BegunWait thread start before) × (is_cancelled entry.answer ≡ (not (is_told (state_after (opening scene) before).core thread) && list_any cancels begun.since)) }
{}

/// The end of a client's wait that has no answer from the other side answers CANCELLED exactly where an Idle
/// cancelled all waits since the wait began, in every history from an opening state. Where it has one, that is
/// its answer: which number a refused connect tells is not said here, since a client that writes memory by itself
/// may write any number where the driver reads it.
pub fn clients_without_an_answer_are_cancelled_by_idle()
    ensures { (scene : SceneValue) (before : List Entry) (entry : Entry) (after : List Entry) → Legal (opening scene) (before ++ entry ∷ after) → (client start : ℕ)
        → is_thread (state_after (opening scene) before) client ≡ false → entry.event ≡ event.Resume (record { 0 = client }) start
        → (begun : BegunWait client start before) × (is_client_told (state_after (opening scene) before) client ≡ false → is_cancelled entry.answer ≡ list_any cancels begun.since) }
{}

/// Where clients write memory and rings through the driver alone and make their scripts' calls, in a history no
/// longer than a run may be, the end of a client's wait answers CANCELLED exactly where it has no answer from the
/// other side and an Idle cancelled all waits since the wait began: nobody refuses a connect by that number.
pub fn honest_clients_are_cancelled_by_idle_alone()
    ensures { (scene : SceneValue) (before : List Entry) (entry : Entry) (after : List Entry) → IsLawfulScene scene → IsTrue (list_all is_honest scene.clients)
        → length (before ++ entry ∷ after) ≤ history_limit → Legal (opening scene) (before ++ entry ∷ after) → FollowsScripts (scripts_of scene) (before ++ entry ∷ after) → (client start : ℕ)
        → is_thread (state_after (opening scene) before) client ≡ false → entry.event ≡ event.Resume (record { 0 = client }) start
        → (begun : BegunWait client start before) × (is_cancelled entry.answer ≡ (not (is_client_told (state_after (opening scene) before) client) && list_any cancels begun.since)) }
{}

/// Only the end of a wait answers CANCELLED: no call of a thread or a client does, nor the device, nor Idle.
pub fn only_ends_of_waits_answer_cancelled()
    ensures { (s : State) (e : Event) (r : Stepped) → step s e ≡ Some r → is_end_of_wait e ≡ false → is_cancelled r.answer ≡ false }
{}
