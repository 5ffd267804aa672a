//! What the driver does counts in every world: laws of the model's calls and waits, for who keeps the rest of a world.

ghost use Rattle.ns_driver.specs.Worlds.{CallsAnywhere, WaitsEndAnywhere, WaitsMoveAnywhere};

/// A call changes the memory and the driver by these alone, and its answer comes from them alone. Where it waits, its
/// client gets a wait; all else of the world stays.
pub fn calls_anywhere()
    ensures { CallsAnywhere }
{}

/// A wait ends by what the memory and the driver have for it; where these have nothing, it ends cancelled or late.
pub fn waits_end_anywhere()
    ensures { WaitsEndAnywhere }
{}

/// A wait may move where it would have an answer after a drain, and where it is cancelled or late.
pub fn waits_move_anywhere()
    ensures { WaitsMoveAnywhere }
{}
