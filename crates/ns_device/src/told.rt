//! What the device tells of a step.

ghost use Rattle.std.specs.Prelude.{◌≡◌};
ghost use Rattle.kernel_types.specs.Outcome.{no_seqs};

use kernel_values::{DeviceReply, Seqs};

/// What a step of the device did, and which messages it sent, opened and retired.
#[derive(Debug, Drop)]
pub struct DeviceOutcome {
    pub reply: DeviceReply,
    pub seqs: Seqs,
}

/// No message moved.
pub fn no_seqs() -> Seqs
    ensures { result ≡ no_seqs }
{
    Seqs {
        sent: None,
        opened: None,
        retired: None,
    }
}

/// A step that moved no message.
pub fn tells(reply: DeviceReply) -> DeviceOutcome
    ensures { result ≡ record { reply = reply; seqs = no_seqs } }
{
    DeviceOutcome {
        reply,
        seqs: no_seqs(),
    }
}
