//! The errors by their numbers, in which the device tells them.

ghost use Rattle.std.specs.Prelude.{◌≡◌};
ghost use Rattle.kernel_types.specs.Errors.{error_of};

use kernel_values::Errno;

/// The error with a number from 1 on; a number past the last is an invalid argument. No refusal has the number 0, which
/// is taken for 1.
#[tactic(auto, unfolding(kernel_types::specs::Errors::error_of))]
pub fn error_of(number: u32) -> Errno
    ensures { result ≡ error_of number }
{
    match number {
        0 | 1 => Errno::BadHandle,
        3 => Errno::NotFound,
        4 => Errno::AccessDenied,
        5 => Errno::AlreadyExists,
        6 => Errno::NoResources,
        7 => Errno::NoMsg,
        8 => Errno::NotReady,
        9 => Errno::ChannelClosed,
        10 => Errno::TooBig,
        11 => Errno::NotEnoughBuffer,
        12 => Errno::NotSupported,
        13 => Errno::RecurseTooDeep,
        14 => Errno::TimedOut,
        15 => Errno::Cancelled,
        _ => Errno::InvalidArgs,
    }
}
