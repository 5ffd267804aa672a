//! A caller of `kernel_gate`.

ghost use Rattle.std.specs.Prelude.{◌≡◌, IfSome, IfNone};
ghost use Rattle.kernel_gate.specs.Seats.{IsSeatOf};
ghost use Rattle.kernel_gate.specs.Steps.{Goes, Wrote};
ghost use Rattle.kernel_values.specs.declared.call.Call.TheVariants as call;
ghost use Rattle.kernel_values.specs.declared.entry.Event.TheVariants as event;
ghost use Rattle.turnstile.specs.Passes.{view};

use kernel_gate::{Gate, Seat};
use kernel_log::Receipt;
use kernel_types::IpcKernel;
use kernel_types::values::{ActorId, Call, Event};
use std::sync::Wait;

/// Waits for the kernel and ends the thread by `finish`: the entry is then the last that the seat has seen, and its place the
/// only one that became its own. `None` where no step was made.
pub fn finish_through<K: IpcKernel + Drop>(
    rt: &impl Wait,
    gate: &Gate<K>,
    seat: &mut Seat,
    actor: ActorId,
    start: u32,
) -> Option<Receipt>
    requires { IsSeatOf gate.now seat.old }
    ensures seat { IsSeatOf gate.now seat.new }
    ensures goes { Goes (view seat.old) (view seat.new) }
    ensures wrote { IfSome result (λ receipt. Wrote (event.Begin actor start call.Finish) (view seat.old) (view seat.new) receipt) }
    ensures none { IfNone result ((view seat.new).mine ≡ (view seat.old).mine) }
{
    let finish = Event::Begin {
        actor,
        start,
        call: Call::Finish,
    };
    match gate.call(rt, seat, finish) {
        Ok(receipt) => Some(receipt),
        Err(refused) => {
            drop(refused);
            None
        }
    }
}
