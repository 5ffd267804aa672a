//! What every step keeps: which numbers are named, and with them how deep sets stand in one another.

ghost use Rattle.std.specs.Prelude.{◌≡◌, ◌++◌, ◌∷◌, ℕ, List, [], Some};
ghost use Rattle.kernel_values.specs.SceneLaw.{SceneValue};
ghost use Rattle.kernel_values.specs.declared.entry.Entry.{Entry};
ghost use Rattle.kernel_values.specs.declared.entry.Event.{Event};
ghost use Rattle.kernel_values.specs.declared.state.State.{State};
ghost use Rattle.kernel_types.specs.History.{Legal, state_after};
ghost use Rattle.kernel_types.specs.Opening.{opening};
ghost use Rattle.kernel_types.specs.Step.{Stepped, step};
ghost use Rattle.set_laws.specs.Chains.{ChainFrom};
ghost use Rattle.set_laws.specs.Soundness.{IsSound, NamesAreGiven};

/// In every opening state each name is of an object whose number was given: nothing is named.
pub fn openings_name_given_numbers()
    ensures { (scene : SceneValue) → NamesAreGiven (opening scene).core }
{}

/// Where each table entry, wait, pending end, message and set names only objects whose numbers were
/// given, they do so after any step. No number of an object that is yet to come stands anywhere.
pub fn steps_keep_names_given()
    ensures { (s : State) (e : Event) (r : Stepped) → NamesAreGiven s.core → step s e ≡ Some r → NamesAreGiven r.state.core }
{}

/// Every opening state is sound.
pub fn openings_are_sound()
    ensures { (scene : SceneValue) → IsSound (opening scene) }
{}

/// Every step from a sound state leaves a sound one.
pub fn steps_keep_soundness()
    ensures { (s : State) (e : Event) (r : Stepped) → IsSound s → step s e ≡ Some r → IsSound r.state }
{}

/// In every history from an opening state the objects have rising numbers, only numbers that were given
/// are named, and no chain of sets has more than 8.
pub fn histories_are_sound()
    ensures { (scene : SceneValue) (entries : List Entry) → Legal (opening scene) entries → IsSound (state_after (opening scene) entries) }
{}

/// No history from an opening state leads to a set that stands in itself, at any depth.
pub fn no_set_is_ever_in_itself()
    ensures { (scene : SceneValue) (entries : List Entry) (set : ℕ) (between : List ℕ) → Legal (opening scene) entries
        → ChainFrom (state_after (opening scene) entries).core.objects set (between ++ set ∷ []) → ⊥ }
{}
