//! The bell by which those who share a run wake each other.

use kernel_types::values::{ActorId, NoMemory};
use std::alloc::Global;
use std::sync::atomic::{AtomicBool, AtomicU64, Ordering};
use std::sync::{Arc, Wait};

#[derive(Drop)]
struct Signals {
    strokes: AtomicU64,
    failed: AtomicBool,
    recalled: AtomicU64,
}

// No actor has this number.
const NOBODY: u64 = u64::MAX;

/// A bell that is rung after each step, and when memory was wanted. Who finds nothing to do sleeps until
/// it rings. No clause speaks of it.
#[derive(Drop)]
pub struct Bell {
    signals: Arc<Signals, Global>,
}

impl Bell {
    /// A bell that was not rung yet.
    pub fn new(alloc: Global) -> Result<Bell, NoMemory> {
        let signals = Arc::new(
            alloc,
            Signals {
                strokes: AtomicU64::new(0),
                failed: AtomicBool::new(false),
                recalled: AtomicU64::new(NOBODY),
            },
        )?;
        Ok(Bell { signals })
    }

    /// The same bell, for one more to hold.
    pub fn again(&self) -> Result<Bell, NoMemory> {
        Ok(Bell {
            signals: Arc::try_clone(&self.signals)?,
        })
    }

    /// The same bell, for one more to hold. Where there is no memory, all who share the run end.
    pub fn again_or_fail(&self) -> Result<Bell, NoMemory> {
        let again = self.again();
        if again.is_err() {
            self.fail();
        }
        again
    }

    /// How often it was rung, modulo 2^32.
    pub fn strokes(&self) -> u32 {
        (self.signals.strokes.load(Ordering::SeqCst) % (1 << 32)) as u32
    }

    /// Wakes all who sleep.
    pub fn ring(&self) {
        self.signals.strokes.fetch_add(1, Ordering::SeqCst);
        self.signals.strokes.wake_all();
    }

    /// Marks that memory was wanted, so that all who share the run end, and rings.
    pub fn fail(&self) {
        self.signals.failed.store(true, Ordering::SeqCst);
        self.ring();
    }

    /// Whether memory was wanted.
    pub fn has_failed(&self) -> bool {
        self.signals.failed.load(Ordering::SeqCst)
    }

    /// Tells the actor's worker to come back, where no thread of its own could be started.
    pub fn recall(&self, actor: ActorId) {
        self.signals
            .recalled
            .store(actor.0 as u64, Ordering::SeqCst);
    }

    /// Whether the actor's worker was the last to be told so.
    pub fn is_recalled(&self, actor: ActorId) -> bool {
        self.signals.recalled.load(Ordering::SeqCst) == actor.0 as u64
    }

    /// Sleeps until it is rung again, where it was not since `strokes` was read. It may also return for no
    /// reason.
    pub fn sleep<R: Wait>(&self, rt: &R, strokes: u32) {
        self.signals.strokes.park(rt, strokes);
    }
}
