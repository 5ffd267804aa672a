//! What a thread does, as others see it.

ghost use Rattle.std.specs.Prelude.{◌≡◌};
ghost use Rattle.kernel_types.specs.CoreStep.{status_of};
ghost use Rattle.kernel_types.specs.Step.{has_begun_and_goes_on, is_running};

use kernel_values::{Activity, ActorStatus};

/// The status of an actor that does this.
pub fn status_of(activity: Activity) -> ActorStatus
    ensures { result ≡ status_of activity }
{
    match activity {
        Activity::Off => ActorStatus::Off,
        Activity::Running { start } => ActorStatus::Running { start },
        Activity::Waiting { start, wait: _ } => ActorStatus::Waiting { start },
        Activity::Ended { start } => ActorStatus::Ended { start },
    }
}

/// Whether an actor of this status has begun and goes on.
pub fn goes_on(status: ActorStatus) -> bool
    ensures { result ≡ has_begun_and_goes_on status }
{
    match status {
        ActorStatus::Running { start: _ } | ActorStatus::Waiting { start: _ } => true,
        ActorStatus::Off | ActorStatus::Ended { start: _ } => false,
    }
}

/// Whether an actor of this status runs.
pub fn is_running(status: ActorStatus) -> bool
    ensures { result ≡ is_running status }
{
    match status {
        ActorStatus::Running { start: _ } => true,
        ActorStatus::Off | ActorStatus::Waiting { start: _ } | ActorStatus::Ended { start: _ } =>
            false,
    }
}
