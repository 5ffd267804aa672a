// A source and a sink in memory whose calls fail where they are told to.
ghost use Rattle.std.specs.Prelude.{◌≡◌, ◌+◌, ◌<◌, ◌≤◌, ◌↔◌, [], length, max, min, IfOk, IsErr, IsTrue, Some, if◌then◌else◌};
ghost use Rattle.std.specs.Io.{ReadsAtMost};
ghost use Rattle.std.specs.Io.KnownBytes.{ReadConsumes, WriteAppends};
ghost use Rattle.outside_io.specs.Faults.{HasCause};
ghost use Rattle.outside_io.specs.Plans.{fails_next};
ghost use Rattle.outside_io.specs.Memory.{reach, filled, after_planned_read, planned_write_fails, after_planned_write};
ghost use Rattle.outside_io.specs.Writing.{TakesSome};

use crate::faults::counted;
use crate::plan::Plan;
use crate::{Failed, QuietSink, QuietSource, Sink, Source};
use kernel_values::NoMemory;
use std::alloc::Global;
use std::marker::Model;

/// A source of the given bytes, some of whose reads fail.
#[derive(Drop)]
pub struct MemSource {
    feed: QuietSource,
    plan: Plan,
    faults: u64,
    asked: usize,
}

impl Model for MemSource {
    ghost use Rattle.outside_io.specs.Memory.{PlannedFeed};

    ghost Value = { PlannedFeed };

    ghost view = { λ s. record { feed = s.feed; plan = s.plan; faults = s.faults; asked = s.asked } };
}

impl MemSource {
    /// A source of these bytes, which moves at most `piece` of them a read. The reads whose
    /// numbers, from 0, are in `fails` fail.
    pub fn new(
        alloc: Global,
        bytes: &[u8],
        piece: u32,
        fails: &[u64],
    ) -> Result<MemSource, NoMemory>
        requires { 1 ≤ piece }
        ensures { IfOk result (λ source. source ≡ record {
          feed = record { left = bytes.now; piece = piece };
          plan = record { fails = fails.now; calls = 0 };
          faults = 0;
          asked = 0;
        }) }
    {
        Ok(MemSource {
            feed: QuietSource::new(alloc, bytes, piece)?,
            plan: Plan::new(alloc, fails)?,
            faults: 0,
            asked: 0,
        })
    }

    /// How many of its reads failed. At the type's end the count stands still.
    pub fn faults(&self) -> u64
        ensures { result ≡ self.now.faults }
    {
        self.faults
    }
}

impl Source for MemSource {
    ghost left = { λ s. Some s.feed.left };

    ghost faults = { λ s. s.faults };

    ghost calls = { λ s. s.plan.calls };

    ghost asked = { λ s. s.asked };

    fn read(&mut self, buf: &mut [u8]) -> Result<usize, Failed>
        requires { 0 < length buf.old }
        ensures fails { IsErr result ↔ IsTrue (fails_next self.old.plan) }
        ensures count { IfOk result (λ n. n ≡ reach self.old.feed (length buf.old)) }
        ensures state { self.new ≡ after_planned_read self.old (length buf.old) }
        ensures buffer { buf.new ≡ (if fails_next self.old.plan then buf.old else filled self.old.feed buf.old) }
        ensures bound { ReadsAtMost result buf.new }
        ensures taken { ReadConsumes (Some self.old.feed.left) (Some self.new.feed.left) result buf.new }
        ensures cause { HasCause self.old.faults self.new.faults result }
        ensures counted { self.new.plan.calls ≤ self.old.plan.calls + 1 }
        ensures asked { self.new.asked ≤ max self.old.asked (length buf.old) }
    {
        self.asked = self.asked.max(buf.len());
        if self.plan.next_call() {
            self.faults = counted(self.faults);
            return Err(Failed);
        }
        self.feed.read(buf)
    }
}

/// A sink with room for so many bytes, which it takes as it is made. Some of its writes fail,
/// and so does each that finds no room.
#[derive(Drop)]
pub struct MemSink {
    sheet: QuietSink,
    piece: usize,
    plan: Plan,
}

impl Model for MemSink {
    ghost use Rattle.std.specs.Prelude.{◌≤◌};
    ghost use Rattle.outside_io.specs.Memory.{PlannedSheet};

    ghost Value = { PlannedSheet };

    ghost view = { λ s. record { sheet = s.sheet; piece = s.piece; plan = s.plan } };

    ghost invariant = { λ s. 1 ≤ s.piece };
}

impl MemSink {
    /// A sink with room for `room` bytes, which takes at most `piece` bytes a write. The writes
    /// whose numbers, from 0, are in `fails` fail.
    pub fn new(alloc: Global, room: u32, piece: u32, fails: &[u64]) -> Result<MemSink, NoMemory>
        requires { 1 ≤ piece }
        ensures { IfOk result (λ sink. sink ≡ record {
          sheet = record { written = []; room = room; faults = 0 };
          piece = piece;
          plan = record { fails = fails.now; calls = 0 };
        }) }
    {
        Ok(MemSink {
            sheet: QuietSink::new(alloc, room)?,
            piece: piece as usize,
            plan: Plan::new(alloc, fails)?,
        })
    }

    /// All that was written.
    pub fn written(&self) -> &[u8]
        ensures { result.now ≡ self.now.sheet.written }
    {
        self.sheet.written()
    }

    /// How many of its writes failed. At the type's end the count stands still.
    pub fn faults(&self) -> u64
        ensures { result ≡ self.now.sheet.faults }
    {
        self.sheet.faults()
    }
}

impl Sink for MemSink {
    ghost written = { λ s. Some s.sheet.written };

    ghost faults = { λ s. s.sheet.faults };

    ghost calls = { λ s. s.plan.calls };

    fn write(&mut self, bytes: &[u8]) -> Result<usize, Failed>
        requires { 0 < length bytes.now }
        ensures fails { IsErr result ↔ IsTrue (planned_write_fails self.old) }
        ensures count { IfOk result (λ n. n ≡ min (min (length bytes.now) self.old.piece) self.old.sheet.room) }
        ensures state { self.new ≡ after_planned_write self.old bytes.now }
        ensures some { TakesSome result bytes.now }
        ensures appended { WriteAppends (Some self.old.sheet.written) (Some self.new.sheet.written) result bytes.now }
        ensures cause { HasCause self.old.sheet.faults self.new.sheet.faults result }
        ensures counted { self.new.plan.calls ≤ self.old.plan.calls + 1 }
    {
        if self.plan.next_call() {
            self.sheet.fail();
            return Err(Failed);
        }
        let (front, _) = bytes.split_at(bytes.len().min(self.piece));
        self.sheet.write(front)
    }
}
