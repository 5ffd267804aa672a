//! The gate and its seats.
ghost use Rattle.std.specs.Prelude.{◌≡◌, ◌<◌, ◌≤◌, [], IfOk, IfErr};

use kernel_log::Logged;
use kernel_types::IpcKernel;
use std::alloc::Global;
use turnstile::{Pass, SplitRefused, Turnstile};

/// The right to make steps at one gate, and to split further seats off. Between calls it never has the turn. Contracts see what its
/// holder has seen and done as `view`.
pub type Seat = Pass;

/// A kernel behind a lock, with the history of its steps since then. It is for as many seats as it was made for.
#[derive(Drop)]
pub struct Gate<K: IpcKernel + Drop> {
    pub(crate) turnstile: Turnstile<Logged<K>>,
}

/// There was no memory. The kernel comes back; no step of it was made.
#[derive(Drop)]
pub struct NewRefused<K: Drop> {
    pub kernel: K,
}

impl<K: IpcKernel + Drop> Gate<K> {
    ghost use Rattle.kernel_gate.specs.Seats.{IsSeatOf, origin_of, seats_of};
    ghost use Rattle.kernel_gate.specs.Steps.{Parts};
    ghost use Rattle.turnstile.specs.Passes.{view};
    ghost use Rattle.turnstile.specs.Splitting.{Refuses};
    ghost use Rattle.turnstile.specs.Views.{counted};

    /// A gate to the kernel for `seats` seats, at least one, and the first of them. The history is empty.
    pub fn new(alloc: Global, kernel: K, seats: u32) -> Result<(Gate<K>, Seat), NewRefused<K>>
        requires { 0 < seats }
        ensures state { IfOk result (λ r. (origin_of r.0).state ≡ K.state kernel) }
        ensures made { IfOk result (λ r. (origin_of r.0).made ≡ K.made kernel) }
        ensures scripts { IfOk result (λ r. (origin_of r.0).scripts ≡ []) }
        ensures seats { IfOk result (λ r. seats_of r.0 ≡ seats) }
        ensures seat { IfOk result (λ r. IsSeatOf r.0 r.1) }
        ensures seen { IfOk result (λ r. ((view r.1).seen ≡ []) × ((view r.1).mine ≡ [])) }
        ensures refused { IfErr result (λ r. (K.state r.kernel ≡ K.state kernel) × (K.made r.kernel ≡ K.made kernel)) }
    {
        match Turnstile::new(alloc, Logged::new(alloc, kernel), seats) {
            Ok((turnstile, seat)) => Ok((Gate { turnstile }, seat)),
            Err(refused) => Err(NewRefused {
                kernel: refused.value.into_kernel(),
            }),
        }
    }

    /// One more seat, which has seen what this one has, and has no entry of its own. There is none left exactly where this seat finds
    /// that as many were drawn as the gate has.
    pub fn split(&self, seat: &mut Seat) -> Result<Seat, SplitRefused>
        requires { IsSeatOf self.now seat.old }
        ensures seat { IsSeatOf self.now seat.new }
        ensures other { IfOk result (λ other. IsSeatOf self.now other) }
        ensures parts { IfOk result (λ other. Parts (seats_of self.now) (view seat.old) (view other)) }
        ensures same { IfOk result (λ _. view seat.new ≡ view seat.old) }
        ensures refused { IfErr result (λ why. Refuses why (view seat.old) (view seat.new)) }
    {
        self.turnstile.split(seat)
    }

    /// How many entries the history has, and no fewer than this seat knew of. It does not wait.
    pub fn glance(&self, seat: &mut Seat) -> u64
        requires { IsSeatOf self.now seat.old }
        ensures seat { IsSeatOf self.now seat.new }
        ensures known { (view seat.old).known ≤ result }
        ensures view { view seat.new ≡ counted (view seat.old) result }
    {
        self.turnstile.count(seat)
    }
}
