// A source and a sink in memory that fail at no call, as long as the sink's room lasts.
ghost use Rattle.std.specs.Prelude.{◌≡◌, ◌<◌, ◌≤◌, ◌↔◌, ◌++◌, [], length, take, drop, min, IfOk, IsErr, IsTrue, Some};
ghost use Rattle.std.specs.Io.{ReadsAtMost};
ghost use Rattle.std.specs.Io.KnownBytes.{ReadConsumes, WriteAppends};
ghost use Rattle.outside_io.specs.Faults.{HasCause, Rose};
ghost use Rattle.outside_io.specs.Memory.{reach, fed, filled, is_full, after_write, spoiled};
ghost use Rattle.outside_io.specs.Writing.{TakesSome};

use crate::faults::counted;
use crate::{Failed, Sink, Source};
use kernel_values::NoMemory;
use std::alloc::Global;
use std::marker::Model;

/// A source of the given bytes. None of its reads fails.
#[derive(Drop)]
pub struct QuietSource {
    bytes: Vec<u8>,
    at: usize,
    piece: usize,
}

impl Model for QuietSource {
    ghost use Rattle.std.specs.Prelude.{drop, ◌≤◌, vec_len};
    ghost use Rattle.outside_io.specs.Memory.{Feed};

    ghost Value = { Feed };

    ghost view = { λ s. record { left = drop s.at s.bytes.items; piece = s.piece } };

    ghost invariant = { λ s. (s.at ≤ vec_len s.bytes) × (1 ≤ s.piece) };
}

// Copies bytes from the front into the buffer: as many as there are, as the buffer has, and
// no more than `most`. Answers how many.
#[tactic(auto, using(crate::proofs::Feeds::front_again))]
fn copy_front(bytes: &[u8], most: usize, buf: &mut [u8]) -> usize
    ensures count { result ≡ min (min (length bytes.now) most) (length buf.old) }
    ensures buffer { buf.new ≡ take result bytes.now ++ drop result buf.old }
    ensures front { take result buf.new ≡ take result bytes.now }
    ensures end { result ≡ 0 → 0 < most → 0 < length buf.old → bytes.now ≡ [] }
{
    let count = bytes.len().min(most).min(buf.len());
    buf[..count].copy_from_slice(&bytes[..count]);
    count
}

impl QuietSource {
    /// A source of these bytes, which moves at most `piece` of them a read.
    pub fn new(alloc: Global, bytes: &[u8], piece: u32) -> Result<QuietSource, NoMemory>
        requires { 1 ≤ piece }
        ensures { IfOk result (λ source. source ≡ record { left = bytes.now; piece = piece }) }
    {
        Ok(QuietSource {
            bytes: Vec::from_slice(alloc, bytes)?,
            at: 0,
            piece: piece as usize,
        })
    }

    /// How many of its reads failed.
    pub fn faults(&self) -> u64
        ensures { result ≡ 0 }
    {
        0
    }
}

impl Source for QuietSource {
    ghost left = { λ s. Some s.left };

    ghost faults = { λ s. 0 };

    fn read(&mut self, buf: &mut [u8]) -> Result<usize, Failed>
        requires { 0 < length buf.old }
        ensures answer { result ≡ Ok (reach self.old (length buf.old)) }
        ensures state { self.new ≡ fed self.old (length buf.old) }
        ensures buffer { buf.new ≡ filled self.old buf.old }
        ensures bound { ReadsAtMost result buf.new }
        ensures taken { ReadConsumes (Some self.old.left) (Some self.new.left) result buf.new }
    {
        let (_, rest) = self.bytes.as_slice().split_at(self.at);
        let count = copy_front(rest, self.piece, buf);
        self.at += count;
        Ok(count)
    }
}

/// A sink with room for so many bytes, which it takes as it is made. Its writes fail where no
/// room is left.
#[derive(Drop)]
pub struct QuietSink {
    bytes: Vec<u8>,
    room: usize,
    faults: u64,
}

impl Model for QuietSink {
    ghost use Rattle.std.specs.Prelude.{◌+◌, ◌≤◌, vec_len, vec_capacity};
    ghost use Rattle.outside_io.specs.Memory.{Sheet};

    ghost Value = { Sheet };

    ghost view = { λ s. record { written = s.bytes.items; room = s.room; faults = s.faults } };

    ghost invariant = { λ s. vec_len s.bytes + s.room ≤ vec_capacity s.bytes };
}

impl QuietSink {
    /// A sink with room for `room` bytes.
    pub fn new(alloc: Global, room: u32) -> Result<QuietSink, NoMemory>
        ensures { IfOk result (λ sink. sink ≡ record { written = []; room = room; faults = 0 }) }
    {
        Ok(QuietSink {
            bytes: Vec::with_capacity(alloc, room as usize)?,
            room: room as usize,
            faults: 0,
        })
    }

    /// All that was written.
    pub fn written(&self) -> &[u8]
        ensures { result.now ≡ self.now.written }
    {
        self.bytes.as_slice()
    }

    /// How many of its writes failed. At the type's end the count stands still.
    pub fn faults(&self) -> u64
        ensures { result ≡ self.now.faults }
    {
        self.faults
    }

    /// Fails a write: nothing is appended.
    pub fn fail(&mut self)
        ensures state { self.new ≡ spoiled self.old }
        ensures later { self.old.faults ≤ self.new.faults }
        ensures rose { Rose self.old.faults self.new.faults }
    {
        self.faults = counted(self.faults);
    }
}

impl Sink for QuietSink {
    ghost written = { λ s. Some s.written };

    ghost faults = { λ s. s.faults };

    fn write(&mut self, bytes: &[u8]) -> Result<usize, Failed>
        requires { 0 < length bytes.now }
        ensures full { IsErr result ↔ IsTrue (is_full self.old) }
        ensures count { IfOk result (λ n. n ≡ min (length bytes.now) self.old.room) }
        ensures state { self.new ≡ after_write self.old bytes.now }
        ensures some { TakesSome result bytes.now }
        ensures appended { WriteAppends (Some self.old.written) (Some self.new.written) result bytes.now }
        ensures cause { HasCause self.old.faults self.new.faults result }
    {
        if self.room == 0 {
            self.faults = counted(self.faults);
            return Err(Failed);
        }
        let count = bytes.len().min(self.room);
        let (front, _) = bytes.split_at(count);
        // Room for these bytes was taken as the sink was made.
        let _ = self.bytes.extend_from_slice(front);
        self.room -= count;
        Ok(count)
    }
}
