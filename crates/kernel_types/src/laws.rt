//! Laws of the definitions, each on a function without a body to run.

ghost use Rattle.std.specs.Prelude.{◌≡◌, ◌↔◌, ℕ, List, true};
ghost use Rattle.kernel_types.specs.Names.{Name};
ghost use Rattle.kernel_types.specs.Reach.{Reached, is_in, reached_by};

/// What is marked in rounds is the least set that holds what a root names and what one of its objects
/// names.
pub fn marks_are_reached()
    ensures { (entries : List Name) (object : ℕ) → (is_in (reached_by entries) object ≡ true) ↔ Reached entries object }
{}
