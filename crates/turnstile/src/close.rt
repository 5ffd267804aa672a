//! The end of a turnstile.
ghost use Rattle.std.specs.Prelude.{◌≡◌, ◌+◌, ◌<◌, ◌≤◌, ℕ, false, [], length, IfOk, IfErr};
ghost use Rattle.std.specs.Vec.{vec_len};

use crate::lock::Turnstile;
use crate::pass::Pass;
use crate::rule::Gather;
use kernel_values::Recorded;
use std::alloc::Global;

/// There was no memory. The turnstile comes back with all passes.
#[derive(Drop)]
pub struct CloseRefused<V: Recorded + Drop> {
    pub turnstile: Turnstile<V>,
    pub passes: Vec<Pass>,
}

impl<V: Recorded + Drop> Turnstile<V> {
    ghost use Rattle.turnstile.specs.Names.{first_of, IsPassOf, AllRest, IsWholeOf};
    ghost use Rattle.turnstile.specs.Numbers.{times, once_below};
    ghost use Rattle.turnstile.specs.Passes.{view};
    ghost use Rattle.turnstile.specs.Views.{both, numbers, entered};
    ghost use Rattle.turnstile.specs.Steps.{Continues, HasAllIfAlone};
    ghost use Rattle.turnstile.specs.Closing.{owners, AllSaw, HasWhole, Gathers};

    /// Hands the value over, with one pass that all were joined into. Each place of its history is the own place of exactly one of the passes.
    pub fn close(self, _alloc: Global, passes: Vec<Pass>) -> Result<(V, Pass), CloseRefused<V>>
        requires rest { AllRest V.origin self passes.items }
        requires all { length passes.items ≡ self.seats }
        ensures saw { IfOk result (λ r. AllSaw passes.items (V.history r.0)) }
        ensures places { IfOk result (λ r. (k : ℕ) → owners k passes.items ≡ once_below k (length (V.history r.0))) }
        ensures origin { IfOk result (λ r. V.origin r.0 ≡ V.origin (first_of self)) }
        ensures whole { IfOk result (λ r. IsPassOf V.origin self r.1 × HasWhole r.1 (V.history r.0)) }
        ensures refused { IfErr result (λ r. (r.turnstile ≡ self) × (r.passes.items ≡ passes.items)) }
    {
        let mut pass = self.join_all(passes);
        let value = self.take_last(&mut pass);
        Ok((value, pass))
    }

    // Joins the passes into one.
    fn join_all(&self, passes: Vec<Pass>) -> Pass
        requires rest { AllRest V.origin self.now passes.items }
        requires some { 0 < length passes.items }
        ensures whole { IsWholeOf V.origin self.now result }
        ensures gathers { Gathers passes.items [] (view result) }
    {
        let mut passes = passes;
        let mut whole = passes.pop().unwrap();
        while let Some(other) = passes.pop() {
            self.join(&mut whole, other);
        }
        whole
    }

    // Joins the other pass into this one.
    fn join(&self, pass: &mut Pass, other: Pass)
        requires pass { IsWholeOf V.origin self.now pass.old }
        requires other { IsPassOf V.origin self.now other }
        requires rests { (view other).has_turn ≡ false }
        ensures pass { IsWholeOf V.origin self.now pass.new }
        ensures view { view pass.new ≡ both (view pass.old) (view other) }
    {
        let mut other = other;
        let mut seat = pass.take_seat::<V>();
        let given = other.take_seat::<V>();
        self.table.shared.join_seat::<Gather>(&mut seat, given);
        pass.return_seat(seat);
        pass.drawn = pass.drawn.max(other.drawn);
    }

    // Takes the value, when no other pass is left.
    fn take_last(&self, pass: &mut Pass) -> V
        requires pass { IsWholeOf V.origin self.now pass.old }
        requires last { self.now.seats ≤ length (numbers (view pass.old)) }
        ensures pass { IsPassOf V.origin self.now pass.new }
        ensures view { view pass.new ≡ entered (view pass.old) (V.history result) }
        ensures history { Continues (view pass.old) (V.history result) }
        ensures places { (k : ℕ) → times k (view pass.old).mine ≡ once_below k (length (V.history result)) }
        ensures origin { V.origin result ≡ V.origin (first_of self.now) }
    {
        let number = pass.number;
        let mut seat = pass.take_seat::<V>();
        let Ok(()) = self.take_turn(&mut seat, number) else {
            unreachable!()
        };
        let value = self.take_value(&mut seat);
        pass.return_seat(seat);
        value
    }
}
