// A place that bytes are read from, and the loop that reads all of them.
ghost use Rattle.std.specs.Prelude.{◌≡◌, ◌≢◌, ℕ, ◌+◌, ◌<◌, ◌≤◌, max, List, length, Option, IfOk, IfSome, IsErrOf};
ghost use Rattle.std.specs.Io.{ReadsAtMost};
ghost use Rattle.std.specs.Io.KnownBytes.{ReadConsumes};
ghost use Rattle.std.specs.Prelude.{vec_len};
ghost use Rattle.outside_io.specs.Faults.{HasCause, Rose};
ghost use Rattle.outside_io.specs.Reading.{ReadsWhole, TakesWithin, TakesMore};

use crate::Failed;
use std::alloc::{AllocError, Global};

/// A place that bytes are read from.
pub trait Source {
    /// The bytes that are left, where the source tells them.
    ghost left: { Self → Option (List ℕ) };

    /// How many of its reads failed.
    ghost faults: { Self → ℕ };

    /// How many reads were made, where the source counts them.
    ghost calls: { Self → ℕ } = { λ _. 0 };

    /// The most bytes that one of the reads made asked for, where the source keeps it.
    ghost asked: { Self → ℕ } = { λ _. 0 };

    /// Reads at most as many bytes as the buffer has, into its front. 0 is the end of what is left.
    fn read(&mut self, buf: &mut [u8]) -> Result<usize, Failed>
        requires { 0 < length buf.old }
        ensures bound { ReadsAtMost result buf.new }
        ensures taken { ReadConsumes (left self.old) (left self.new) result buf.new }
        ensures cause { HasCause (faults self.old) (faults self.new) result }
        ensures counted { calls self.new ≤ calls self.old + 1 }
        ensures asked { asked self.new ≤ max (asked self.old) (length buf.old) };
}

/// The most bytes that `read_all` takes as an input.
pub const INPUT_LIMIT: usize = 4_194_304;

/// The most bytes that `read_all` asks for in one read.
pub const READ_SIZE: usize = 65_536;

/// Why an input was not read whole.
#[derive(Debug, Clone, Copy, PartialEq, Eq)]
pub enum ReadRefused {
    /// A read failed.
    Failed,
    /// There were more bytes than `INPUT_LIMIT`.
    TooLong,
    /// Memory for what was read was refused.
    NoMemory,
}

impl From<Failed> for ReadRefused {
    ghost use Rattle.outside_io.specs.declared.reading.ReadRefused.{ReadRefused};

    ghost from_gives = { λ _ r. r ≡ ReadRefused.Failed };

    fn from(_: Failed) -> Self {
        ReadRefused::Failed
    }
}

impl From<AllocError> for ReadRefused {
    ghost use Rattle.outside_io.specs.declared.reading.ReadRefused.{ReadRefused};

    ghost from_gives = { λ _ r. r ≡ ReadRefused.NoMemory };

    fn from(_: AllocError) -> Self {
        ReadRefused::NoMemory
    }
}

// A buffer of this many bytes.
fn zeros(alloc: Global, count: usize) -> Result<Vec<u8>, AllocError>
    ensures { IfOk result (λ buffer. vec_len buffer ≡ count) }
{
    vec![in alloc; 0u8; count]
}

/// Reads all that is left of a source, at most `INPUT_LIMIT` bytes of it. What is kept grows
/// with what was read.
#[tactic(auto, using(crate::proofs::Known::within_left))]
pub fn read_all<S: Source>(alloc: Global, source: &mut S) -> Result<Vec<u8>, ReadRefused>
    ensures limit { INPUT_LIMIT ≡ 4194304 }
    ensures whole { IfOk result (λ bytes. ReadsWhole INPUT_LIMIT (S.left source.old) (S.left source.new) bytes.items) }
    ensures failed { IsErrOf result ReadRefused.Failed → Rose (S.faults source.old) (S.faults source.new)
        × TakesWithin INPUT_LIMIT (S.left source.old) (S.left source.new) }
    ensures long { IsErrOf result ReadRefused.TooLong → TakesMore INPUT_LIMIT (S.left source.old) (S.left source.new) }

    // No other answer follows a fault.
    ensures kept { (result ≢ Err ReadRefused.Failed) → S.faults source.new ≡ S.faults source.old }
    ensures later { S.faults source.old ≤ S.faults source.new }

    // Each read but the last takes a byte at least.
    ensures turns { S.calls source.new ≤ S.calls source.old + INPUT_LIMIT + 1 }
    ensures turns_of { IfOk result (λ bytes. S.calls source.new ≤ S.calls source.old + length bytes.items + 1) }

    ensures turns_left { IfSome (S.left source.old) (λ input. S.calls source.new ≤ S.calls source.old + length input + 1) }

    // No read asks for more than a piece.
    ensures asked { S.asked source.new ≤ max (S.asked source.old) READ_SIZE }
{
    let mut bytes = Vec::new(alloc);
    let mut buffer = zeros(alloc, READ_SIZE)?;
    'reads: loop {
        let count = source.read(buffer.as_mut_slice())?;
        if count == 0 {
            return Ok(bytes);
        }
        bytes.extend_from_slice(&buffer.as_slice()[..count])?;
        if bytes.len() > INPUT_LIMIT {
            return Err(ReadRefused::TooLong);
        }
    }
}
