//! What the device does counts in every world: laws of the model's step, for who keeps the rest of a world.

ghost use Rattle.ns_device.specs.Worlds.{DeviceStepsAnywhere, DeviceWorksAnywhere};

/// A step of the device changes the core, the memory and the device by these alone, and its answer comes from them alone; the
/// driver and the clients stay.
pub fn device_steps_anywhere()
    ensures { DeviceStepsAnywhere }
{}

/// The device has work where there is a client, and these have a step.
pub fn device_works_anywhere()
    ensures { DeviceWorksAnywhere }
{}
