//! The numbers of objects.

ghost use Rattle.std.specs.Prelude.{◌≡◌, ℕ, List, Some};
ghost use Rattle.kernel_values.specs.SceneLaw.{SceneValue};
ghost use Rattle.kernel_values.specs.declared.entry.Entry.{Entry};
ghost use Rattle.kernel_values.specs.declared.entry.Event.{Event};
ghost use Rattle.kernel_values.specs.declared.state.State.{State};
ghost use Rattle.kernel_types.specs.History.{Legal, state_after};
ghost use Rattle.kernel_types.specs.Opening.{opening};
ghost use Rattle.kernel_types.specs.Step.{Stepped, step};
ghost use Rattle.kernel_laws.specs.Numbers.{HasRisingNumbers, IsSpent};

/// A step from a state whose objects stand in rising order of their numbers, all below the next one,
/// leaves such a state.
pub fn steps_keep_numbers_rising()
    ensures { (s : State) (e : Event) (r : Stepped) → HasRisingNumbers s → step s e ≡ Some r → HasRisingNumbers r.state }
{}

/// In every history from an opening state the objects stand in rising order of their numbers, all below
/// the next one; so no two objects share a number.
pub fn numbers_rise()
    ensures { (scene : SceneValue) (entries : List Entry) → Legal (opening scene) entries → HasRisingNumbers (state_after (opening scene) entries) }
{}

/// A number whose object is gone is never given again.
pub fn numbers_are_given_once()
    ensures by_step { (s : State) (e : Event) (r : Stepped) (number : ℕ) → step s e ≡ Some r → IsSpent number s → IsSpent number r.state }
    ensures by_history { (s : State) (entries : List Entry) (number : ℕ) → Legal s entries → IsSpent number s → IsSpent number (state_after s entries) }
{}
