//! How long an object lives: as long as an entry names it, by the step.

ghost use Rattle.std.specs.Prelude.{◌≡◌, ◌<◌, ◌↔◌, ◌++◌, ℕ, List, Some, true};
ghost use Rattle.kernel_values.specs.SceneLaw.{SceneValue};
ghost use Rattle.kernel_values.specs.declared.entry.Entry.{Entry};
ghost use Rattle.kernel_values.specs.declared.state.CoreState.{CoreState};
ghost use Rattle.kernel_types.specs.Facts.{names_at};
ghost use Rattle.kernel_types.specs.History.{Legal, state_after};
ghost use Rattle.kernel_types.specs.Names.{names_of, naming};
ghost use Rattle.kernel_types.specs.Objects.{is_there};
ghost use Rattle.kernel_types.specs.Opening.{opening};
ghost use Rattle.kernel_types.specs.Sweep.{sweep};

/// The sweep, which ends each step that changes what the kernel holds, leaves exactly those of the objects
/// that an entry names after it: it takes none away that is still named, and leaves none that is not.
pub fn sweeps_leave_what_is_named()
    ensures { (c : CoreState) (object : ℕ) → (is_there (sweep c).objects object ≡ true)
        ↔ ((is_there c.objects object ≡ true) × (0 < names_of (naming (sweep c)) object)) }
{}

/// At every point of every history from an opening state, each object that is there is named by some
/// entry: none outlives the step in which its last name goes.
pub fn no_object_outlives_its_names()
    ensures { (scene : SceneValue) (before after : List Entry) (object count : ℕ) → Legal (opening scene) (before ++ after)
        → names_at (state_after (opening scene) before) object ≡ Some count → 0 < count }
{}
