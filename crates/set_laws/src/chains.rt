//! Chains of sets, each a member of the one before.

ghost use Rattle.std.specs.Prelude.{◌≡◌, ◌<◌, ◌++◌, ◌∷◌, ℕ, List, [], Some};
ghost use Rattle.kernel_values.specs.SceneLaw.{SceneValue};
ghost use Rattle.kernel_values.specs.declared.entry.Event.{Event};
ghost use Rattle.kernel_values.specs.declared.flags.Events.{Events};
ghost use Rattle.kernel_values.specs.declared.state.CoreState.{CoreState};
ghost use Rattle.kernel_values.specs.declared.state.Object.{Object};
ghost use Rattle.kernel_values.specs.declared.state.State.{State};
ghost use Rattle.kernel_types.specs.Events.{events_of, events_within};
ghost use Rattle.kernel_types.specs.Opening.{opening};
ghost use Rattle.kernel_types.specs.Sets.{set_add};
ghost use Rattle.kernel_types.specs.Step.{Stepped, step};
ghost use Rattle.set_laws.specs.Chains.{ChainFrom, HasShortChains, NamesGivenNumbers};

/// Where no chain of sets has more than 8, no set stands in itself, at any depth.
pub fn short_chains_are_no_circles()
    ensures { (objects : List Object) (set : ℕ) (between : List ℕ) → HasShortChains objects → ChainFrom objects set (between ++ set ∷ []) → ⊥ }
{}

/// Where no chain of sets has more than 8, the events of an object are the same, however many more sets
/// one looks through.
pub fn looking_further_sees_no_more()
    ensures { (objects : List Object) (id depth : ℕ) → HasShortChains objects → 8 < depth → events_within depth objects id ≡ events_of objects id }
{}

/// In every opening state no chain of sets has more than 8: there are no sets.
pub fn openings_have_short_chains()
    ensures { (scene : SceneValue) → HasShortChains (opening scene).core.objects }
{}

/// Where no chain of sets has more than 8, none has after an `add`, whatever it answers: no chain through
/// the new membership is longer than what `add` measures, and none goes through it twice.
pub fn adding_keeps_chains_short()
    ensures { (c : CoreState) (app set handle : ℕ) (mask : Events) (cookie : ℕ) → HasShortChains c.objects → HasShortChains (set_add c app set handle mask cookie).core.objects }
{}

/// Where no chain of sets has more than 8, and tables and sets name only objects whose numbers were
/// given, no chain has more than 8 after any step.
pub fn steps_keep_chains_short()
    ensures { (s : State) (e : Event) (r : Stepped) → NamesGivenNumbers s.core → HasShortChains s.core.objects → step s e ≡ Some r → HasShortChains r.state.core.objects }
{}
