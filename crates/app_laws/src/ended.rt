//! An application that does not run, since it ended or was not started yet, names no object: its table is
//! empty and none of its threads waits.

ghost use Rattle.std.specs.Prelude.{◌≡◌, ◌++◌, List, Some};
ghost use Rattle.kernel_values.specs.SceneLaw.{SceneValue};
ghost use Rattle.kernel_values.specs.declared.entry.Entry.{Entry};
ghost use Rattle.kernel_values.specs.declared.entry.Event.{Event};
ghost use Rattle.kernel_values.specs.declared.state.State.{State};
ghost use Rattle.kernel_types.specs.History.{Legal, state_after};
ghost use Rattle.kernel_types.specs.Opening.{opening};
ghost use Rattle.kernel_types.specs.Step.{Stepped, step};
ghost use Rattle.app_laws.specs.Ended.{EndedNameNone, IsSettled};

/// Every opening state is settled: no table has an entry, and the threads of an application that its
/// manifest defers are Off.
pub fn openings_are_settled()
    ensures { (scene : SceneValue) → IsSettled (opening scene) }
{}

/// Every step from a settled state leaves a settled one: only an application that runs gets an entry or
/// begins to wait, and the end of one empties its table and ends its threads.
pub fn steps_keep_settled()
    ensures { (s : State) (e : Event) (r : Stepped) → IsSettled s → step s e ≡ Some r → IsSettled r.state }
{}

/// In a settled state the applications that do not run name no object.
pub fn settled_states_name_none()
    ensures { (s : State) → IsSettled s → EndedNameNone s }
{}

/// In every opening state the applications that do not run name no object.
pub fn openings_name_none()
    ensures { (scene : SceneValue) → EndedNameNone (opening scene) }
{}

/// At every point of every history from an opening state, the applications that do not run name no object.
pub fn ended_applications_name_none()
    ensures { (scene : SceneValue) (before after : List Entry) → Legal (opening scene) (before ++ after) → EndedNameNone (state_after (opening scene) before) }
{}
