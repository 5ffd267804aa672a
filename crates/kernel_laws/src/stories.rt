//! What happened to the messages of an end, in the order of a history.

ghost use Rattle.std.specs.Prelude.{◌++◌, ℕ, List};
ghost use Rattle.kernel_values.specs.SceneLaw.{SceneValue};
ghost use Rattle.kernel_values.specs.declared.entry.Entry.{Entry};
ghost use Rattle.kernel_values.specs.declared.state.State.{State};
ghost use Rattle.kernel_types.specs.History.{Legal};
ghost use Rattle.kernel_types.specs.Opening.{opening};
ghost use Rattle.kernel_types.specs.Stories.{IsInOrder, story_of};

/// What came first in a history is a history.
pub fn beginnings_are_legal()
    ensures { (s : State) (entries more : List Entry) → Legal s (entries ++ more) → Legal s entries }
{}

/// In every history from an opening state the story of every end is in order: the k-th message that was
/// sent to it has the number k, so has the k-th that was opened there, no more were opened than sent,
/// and those that were retired are opened ones, each retired once. So it is at every point of such a
/// history.
pub fn stories_are_in_order()
    ensures whole { (scene : SceneValue) (entries : List Entry) (end : ℕ) → Legal (opening scene) entries → IsInOrder (story_of entries end) }
    ensures so_far { (scene : SceneValue) (entries more : List Entry) (end : ℕ) → Legal (opening scene) (entries ++ more) → IsInOrder (story_of entries end) }
{}
