//! Laws of the bridge: what the frames that cross it in a history have in common with those that were sent.
#![tactic(auto)]

ghost use Rattle.kernel_types.specs.Carried.{CarriedInOrder};

/// With clients that write memory and rings through the driver alone, what came over the bridge is what was
/// sent, byte for byte and in order, as far as it came, in both directions; and the device never breaks.
pub fn frames_are_carried_in_order()
    ensures { CarriedInOrder }
{}
