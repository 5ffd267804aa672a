//! How large the objects of a state are, and how much an answer holds.

ghost use Rattle.std.specs.Prelude.{◌≡◌, List, Some};
ghost use Rattle.std.specs.List.{All};
ghost use Rattle.kernel_values.specs.SceneLaw.{SceneValue};
ghost use Rattle.kernel_values.specs.declared.entry.Entry.{Entry};
ghost use Rattle.kernel_values.specs.declared.entry.Event.{Event};
ghost use Rattle.kernel_values.specs.declared.state.State.{State};
ghost use Rattle.kernel_types.specs.History.{Legal, state_after};
ghost use Rattle.kernel_types.specs.Opening.{opening};
ghost use Rattle.kernel_types.specs.Step.{Stepped, step};
ghost use Rattle.kernel_types.specs.Limits.{IsWithinLimits, IsSmallAnswer, FitsIn, room_of};

/// Every opening state is within the limits: it has no objects and no connections.
pub fn openings_are_within_limits()
    ensures { (scene : SceneValue) → IsWithinLimits (opening scene) }
{}

/// A step from a state within the limits leaves one within them, and its answer is small.
pub fn steps_stay_within_limits()
    ensures { (s : State) (e : Event) (r : Stepped) → IsWithinLimits s → step s e ≡ Some r → IsWithinLimits r.state × IsSmallAnswer r.answer }
{}

/// No history from an opening state leads out of the limits: no message has more than 4,096 bytes and
/// 8 parts, no end holds more messages than it has slots, which are at most 32, no set has more than 64
/// members, and no memory reference more than 65,536 bytes.
pub fn histories_stay_within_limits()
    ensures { (scene : SceneValue) (entries : List Entry) → Legal (opening scene) entries → IsWithinLimits (state_after (opening scene) entries) }
{}

/// In every history from an opening state each answer holds at most 65,536 bytes and at most 8 handles.
pub fn answers_are_small()
    ensures { (scene : SceneValue) (entries : List Entry) → Legal (opening scene) entries → All (λ entry. IsSmallAnswer entry.answer) entries }
{}

/// Of the calls only `read`, `mread` and `nrecv` answer lists of bytes and handles, the latter also at the end of its wait,
/// and the device may tell a path. Every other answer of a step can be copied without memory.
pub fn answers_fit_their_room()
    ensures { (s : State) (e : Event) (r : Stepped) → IsWithinLimits s → step s e ≡ Some r → FitsIn (room_of s e) r.answer }
{}
