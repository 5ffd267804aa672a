//! What texts of scenes have in common: laws of their definition, on functions without a body to run.
#![tactic(auto)]

ghost use Rattle.std.specs.Prelude.{◌≡◌, ◌≤◌, ℕ, List, length, Ok};
ghost use Rattle.std.specs.List.{list_all};
ghost use Rattle.kernel_types.specs.Carried.{is_honest};
ghost use Rattle.kernel_values.specs.SceneLaw.{SceneValue};
ghost use Rattle.script_lines.specs.Texts.{lines_of};
ghost use Rattle.scene_laws.specs.DriverWords.{is_driver_line};
ghost use Rattle.scene_reader.specs.Whole.{scene_of};

/// Each turn of a scene takes a byte of its text at least.
pub fn turns_take_bytes()
    ensures { (bytes : List ℕ) (scene : SceneValue) → scene_of bytes ≡ Ok scene → length scene.turns ≤ length bytes }
{}

/// The clients of a scene write memory and rings through their driver alone exactly where no line of its text is `npoke` or
/// `nkick`.
pub fn scenes_are_honest_by_their_lines()
    ensures { (bytes : List ℕ) (scene : SceneValue) → scene_of bytes ≡ Ok scene → list_all is_honest scene.clients ≡ list_all is_driver_line (lines_of bytes) }
{}
