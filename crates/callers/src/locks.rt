//! A caller of `turnstile`.

ghost use Rattle.std.specs.Prelude.{◌≡◌, false, length};
ghost use Rattle.turnstile.specs.Names.{IsPassOf};
ghost use Rattle.turnstile.specs.Passes.{view};
ghost use Rattle.turnstile.specs.Steps.{Continues};

use kernel_values::Recorded;
use std::sync::Wait;
use turnstile::{Pass, Turnstile};

/// Waits for the turn, reads how long the history is, and gives the value back as it was. The pass has then seen that
/// history, which begins with what it had seen before.
pub fn entries_so_far<V: Recorded + Drop>(
    rt: &impl Wait,
    lock: &Turnstile<V>,
    pass: &mut Pass,
) -> u64
    requires pass { IsPassOf V.origin lock.now pass.old }
    requires rests { (view pass.old).has_turn ≡ false }
    ensures pass { IsPassOf V.origin lock.now pass.new }
    ensures rests { (view pass.new).has_turn ≡ false }
    ensures entries { result ≡ length (view pass.new).seen }
    ensures history { Continues (view pass.old) (view pass.new).seen }
    ensures mine { (view pass.new).mine ≡ (view pass.old).mine }
{
    let value = lock.enter(rt, pass);
    let entries = value.recorded();
    lock.leave(pass, value);
    entries
}
