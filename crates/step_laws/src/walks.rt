//! What a step does to the core.

ghost use Rattle.std.specs.Prelude.{◌≡◌, Some};
ghost use Rattle.kernel_values.specs.declared.entry.Event.{Event};
ghost use Rattle.kernel_values.specs.declared.state.State.{State};
ghost use Rattle.kernel_types.specs.Step.{Stepped, step};
ghost use Rattle.step_laws.specs.Walks.{IsWalk, asked_by};

/// Every step changes the core by a row of small changes alone, each made under the tests that it names. The messages that
/// they move are those that the step's entry tells of, and where the core changes, the sweep comes last.
pub fn steps_are_walks()
    ensures { (s : State) (e : Event) (r : Stepped) → step s e ≡ Some r → IsWalk (asked_by e) s.core r.seqs r.state.core }
{}
