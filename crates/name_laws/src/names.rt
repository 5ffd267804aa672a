//! An object is there as long as an entry names it, neither longer nor shorter, by the step.

ghost use Rattle.std.specs.Prelude.{◌≡◌, ◌<◌, ◌++◌, ◌↔◌, ℕ, List, Option, true};
ghost use Rattle.kernel_values.specs.SceneLaw.{SceneValue};
ghost use Rattle.kernel_values.specs.declared.call.Call.{Call};
ghost use Rattle.kernel_values.specs.declared.entry.Entry.{Entry};
ghost use Rattle.kernel_values.specs.declared.state.CoreState.{CoreState};
ghost use Rattle.kernel_types.specs.History.{Legal, state_after};
ghost use Rattle.kernel_types.specs.Names.{names_of, naming};
ghost use Rattle.kernel_types.specs.Objects.{is_there};
ghost use Rattle.kernel_types.specs.Opening.{opening};
ghost use Rattle.step_laws.specs.Walks.{CoreChange, after_core};
ghost use Rattle.count_laws.specs.Thinning.{NamedThere};

/// Where each object that an entry names is there, so it is after every change of which steps are made: no change but the
/// sweep takes an object away, and what comes to be named is there.
pub fn changes_name_what_is_there()
    ensures { (asked : Option Call) (c : CoreState) (change : CoreChange asked c) → NamedThere c → NamedThere (after_core asked c change) }
{}

/// In every history from an opening state each object that an entry names is there: none goes before its last name does.
pub fn named_objects_are_there()
    ensures { (scene : SceneValue) (entries : List Entry) → NamedThere (state_after (opening scene) entries).core }
{}

/// At every point of every history from an opening state an object is there exactly where some entry names it. So it goes in
/// the very step in which its last name goes.
pub fn objects_are_there_exactly_where_named()
    ensures { (scene : SceneValue) (before after : List Entry) (object : ℕ) → Legal (opening scene) (before ++ after)
        → (is_there (state_after (opening scene) before).core.objects object ≡ true) ↔ (0 < names_of (naming (state_after (opening scene) before).core) object) }
{}
