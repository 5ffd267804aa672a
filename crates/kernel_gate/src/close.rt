//! The end of a gate.
ghost use Rattle.std.specs.Prelude.{◌≡◌, ℕ, All, length, IfOk, IfErr};
ghost use Rattle.std.specs.Vec.{vec_len};

use crate::gate::{Gate, Seat};
use kernel_log::Logged;
use kernel_types::IpcKernel;
use std::alloc::Global;

/// There was no memory. The gate comes back with all seats.
#[derive(Drop)]
pub struct CloseRefused<K: IpcKernel + Drop> {
    pub gate: Gate<K>,
    pub seats: Vec<Seat>,
}

impl<K: IpcKernel + Drop> Gate<K> {
    ghost use Rattle.kernel_gate.specs.Seats.{IsSeatOf, origin_of, seats_of};
    ghost use Rattle.kernel_types.specs.History.{Legal};
    ghost use Rattle.turnstile.specs.Closing.{owners, AllSaw, HasWhole};
    ghost use Rattle.turnstile.specs.Numbers.{once_below};

    /// Hands the kernel over with its history, for all the seats that the gate was made for, so a caller splits them all off before. What
    /// each seat has seen begins the history, and each place of it is the own place of exactly one of the seats. The seat that comes
    /// back, into which all were joined, has seen the whole.
    pub fn close(
        self,
        alloc: Global,
        seats: Vec<Seat>,
    ) -> Result<(Logged<K>, Seat), CloseRefused<K>>
        requires seats { All (λ seat. IsSeatOf self seat) seats.items }
        requires all { length seats.items ≡ seats_of self }
        ensures origin { IfOk result (λ r. r.0.origin ≡ origin_of self) }
        ensures legal { IfOk result (λ r. Legal (origin_of self).state r.0.journal.entries) }
        ensures saw { IfOk result (λ r. AllSaw seats.items r.0.journal.entries) }
        ensures places { IfOk result (λ r. (k : ℕ) → owners k seats.items ≡ once_below k (length r.0.journal.entries)) }
        ensures whole { IfOk result (λ r. HasWhole r.1 r.0.journal.entries) }
        ensures refused { IfErr result (λ r. (r.gate ≡ self) × (r.seats.items ≡ seats.items)) }
    {
        let Gate { turnstile } = self;
        match turnstile.close(alloc, seats) {
            Ok((logged, seat)) => {
                logged.legal();
                Ok((logged, seat))
            }
            Err(refused) => Err(CloseRefused {
                gate: Gate {
                    turnstile: refused.turnstile,
                },
                seats: refused.passes,
            }),
        }
    }
}
