//! Which actors a state has.

ghost use Rattle.std.specs.Prelude.{◌≡◌, List, Some, length};
ghost use Rattle.kernel_values.specs.declared.entry.Entry.{Entry};
ghost use Rattle.kernel_values.specs.declared.entry.Event.{Event};
ghost use Rattle.kernel_values.specs.declared.state.State.{State};
ghost use Rattle.kernel_types.specs.History.{state_after};
ghost use Rattle.kernel_types.specs.Step.{Stepped, statuses, step};
ghost use Rattle.kernel_laws.specs.Actors.{HasSameActors, kinds};

/// No step adds an actor, takes one away or changes its kind, and none changes a manifest.
pub fn steps_keep_actors()
    ensures { (s : State) (e : Event) (r : Stepped) → step s e ≡ Some r → HasSameActors s r.state }
{}

/// Nor does a history.
pub fn histories_keep_actors()
    ensures { (s : State) (entries : List Entry) → HasSameActors s (state_after s entries) }
{}

/// Each actor has one status.
pub fn actors_have_a_status()
    ensures { (s : State) → length (statuses s) ≡ length (kinds s) }
{}
