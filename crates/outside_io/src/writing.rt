// A place that bytes are written to, and the loop that writes all of a text.
ghost use Rattle.std.specs.Prelude.{ℕ, ◌+◌, ◌<◌, ◌≤◌, List, length, Option, OnOk, OnErr};
ghost use Rattle.std.specs.Io.KnownBytes.{Appends, WriteAppends};
ghost use Rattle.outside_io.specs.Faults.{HasCause};
ghost use Rattle.outside_io.specs.Writing.{AppendsFront, TakesSome};

use crate::Failed;

/// A place that bytes are written to.
pub trait Sink {
    /// The bytes that were written, where the sink tells them.
    ghost written: { Self → Option (List ℕ) };

    /// How many of its writes failed.
    ghost faults: { Self → ℕ };

    /// How many writes were made, where the sink counts them.
    ghost calls: { Self → ℕ } = { λ _. 0 };

    /// Appends some of the bytes, from the first on, and answers how many: one at least.
    fn write(&mut self, bytes: &[u8]) -> Result<usize, Failed>
        requires { 0 < length bytes.now }
        ensures some { TakesSome result bytes.now }
        ensures appended { WriteAppends (written self.old) (written self.new) result bytes.now }
        ensures cause { HasCause (faults self.old) (faults self.new) result }
        ensures counted { calls self.new ≤ calls self.old + 1 };
}

/// Writes all the bytes. Where a write fails, those in front of it are written.
pub fn write_all<K: Sink>(sink: &mut K, bytes: &[u8]) -> Result<(), Failed>
    ensures whole { OnOk result (Appends (K.written sink.old) (K.written sink.new) bytes.now) }
    ensures front { OnErr result (AppendsFront (K.written sink.old) (K.written sink.new) bytes.now) }
    ensures cause { HasCause (K.faults sink.old) (K.faults sink.new) result }

    // Each write takes a byte at least.
    ensures turns { K.calls sink.new ≤ K.calls sink.old + length bytes.now }
{
    let mut place = 0;
    while place < bytes.len() {
        let (_, rest) = bytes.split_at(place);
        place += sink.write(rest)?;
    }
    Ok(())
}
