// A failure of the outside, and how failures are counted.
ghost use Rattle.std.specs.Prelude.{◌≡◌};
ghost use Rattle.outside_io.specs.Faults.{later};

/// A read or a write failed. Nothing was taken and nothing was appended.
#[derive(Debug, Clone, Copy, PartialEq, Eq)]
pub struct Failed;

/// One more than the count. At the type's end it stands still.
pub fn counted(count: u64) -> u64
    ensures { result ≡ later count }
{
    if count < u64::MAX { count + 1 } else { count }
}
