// The calls of a source or a sink that are to fail.
ghost use Rattle.std.specs.Prelude.{◌≡◌, IfOk};
ghost use Rattle.outside_io.specs.Plans.{fails_next, went_on};

use crate::faults::counted;
use kernel_values::{Items, NoMemory};
use std::alloc::Global;

/// The numbers of the calls that are to fail, from 0, and how many calls were made.
#[derive(Drop)]
pub struct Plan {
    fails: Items<u64>,
    calls: u64,
}

impl Plan {
    /// A plan of the calls that are to fail, before the first call.
    pub fn new(alloc: Global, fails: &[u64]) -> Result<Plan, NoMemory>
        ensures { IfOk result (λ plan. plan ≡ record { fails = fails.now; calls = 0 }) }
    {
        Ok(Plan {
            fails: Items::from_slice(alloc, fails)?,
            calls: 0,
        })
    }

    /// Counts a call, and answers whether it is to fail.
    pub fn next_call(&mut self) -> bool
        ensures answer { result ≡ fails_next self.old }
        ensures state { self.new ≡ went_on self.old }
    {
        let fails = self.fails.as_slice().contains(&self.calls);
        self.calls = counted(self.calls);
        fails
    }
}
