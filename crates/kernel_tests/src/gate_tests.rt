//! A gate to the plain kernel of a scene, for two callers.
ghost use Rattle.std.specs.Prelude.{◌≡◌, ◌+◌, length, IfOk, All};
ghost use Rattle.kernel_gate.specs.Seats.{IsSeatOf, seats_of};

use crate::play::text;
use kernel_gate::{Gate, GateCause, GateRefused, Seat, SplitRefused};
use kernel_log::Receipt;
use kernel_types::IpcKernel;
use kernel_types::values::{
    ActorId, ActorStatus, Answer, Call, ConnectFlags, Event, NoMemory, PortFlags, Reply,
};
use plain_kernel::PlainKernel;
use scene_reader::read_scene;
use std::alloc::Global;
use std::sync::Wait;
use std::test::Fail;

const SCENE: &str = "scene 1\napp server\nthread\napp client\nthread\n";

// The first call of an actor that runs for the first time.
fn begins(actor: u32, call: Call) -> Event {
    Event::Begin {
        actor: ActorId(actor),
        start: 1,
        call,
    }
}

// The seats, and one more.
fn with_seat<K: IpcKernel + Drop>(
    gate: &Gate<K>,
    seats: Vec<Seat>,
    seat: Seat,
) -> Result<Vec<Seat>, NoMemory>
    requires seats { All (λ s. IsSeatOf gate.now s) seats.items }
    requires seat { IsSeatOf gate.now seat }
    ensures seats { IfOk result (λ v. All (λ s. IsSeatOf gate.now s) v.items) }
    ensures len { IfOk result (λ v. length v.items ≡ length seats.items + 1) }
{
    let mut seats = seats;
    seats.push(seat)?;
    Ok(seats)
}

fn is_handle_at(made: &Result<Receipt, GateRefused>, wanted: u64) -> bool {
    match made {
        Ok(
            Receipt {
                place,
                answer: Answer::Gives(Reply::Handle(0)),
            },
        ) => *place == wanted,
        _ => false,
    }
}

// A resume that is refused, since the actor runs; the event comes back.
fn is_refused(made: &Result<Receipt, GateRefused>) -> bool {
    matches!(
        made,
        Err(GateRefused {
            event: Event::Resume { .. },
            cause: GateCause::NotMovable(Some(ActorStatus::Running { start: 1 })),
        })
    )
}

// The event's step by a seat that waits for the turn gives handle 0 at this place.
fn gives_handle<R: Wait, K: IpcKernel + Drop>(
    rt: &R,
    gate: &Gate<K>,
    seat: &mut Seat,
    event: Event,
    place: u64,
) -> bool
    requires { IsSeatOf gate.now seat.old }
    ensures { IsSeatOf gate.now seat.new }
{
    let made = gate.call(rt, seat, event);
    let is_so = is_handle_at(&made, place);
    drop(made);
    is_so
}

// As before, by a seat that tries once.
fn tries_for_handle<K: IpcKernel + Drop>(
    gate: &Gate<K>,
    seat: &mut Seat,
    event: Event,
    place: u64,
) -> bool
    requires { IsSeatOf gate.now seat.old }
    ensures { IsSeatOf gate.now seat.new }
{
    let made = gate.try_call(seat, event);
    let is_so = is_handle_at(&made, place);
    drop(made);
    is_so
}

// The server runs, so that its resume is refused, and comes back.
fn refuses_resume<R: Wait, K: IpcKernel + Drop>(rt: &R, gate: &Gate<K>, seat: &mut Seat) -> bool
    requires { IsSeatOf gate.now seat.old }
    ensures { IsSeatOf gate.now seat.new }
{
    let resume = Event::Resume {
        actor: ActorId(0),
        start: 1,
    };
    let made = gate.call(rt, seat, resume);
    let is_so = is_refused(&made);
    drop(made);
    is_so
}

// What two seats of a gate met.
#[derive(Clone, Copy, PartialEq, Eq, Debug)]
struct Met {
    first_glance: u64,
    is_port_at_0: bool,
    is_connected_at_1: bool,
    is_refused: bool,
    last_glance: u64,
}

// The server's port by the first seat, the client's connect by the second, and a resume that is not lawful.
fn seen_by_two<R: Wait, K: IpcKernel + Drop>(
    rt: &R,
    alloc: Global,
    gate: &Gate<K>,
    first: &mut Seat,
    second: &mut Seat,
) -> Result<Met, NoMemory>
    requires first { IsSeatOf gate.now first.old }
    requires second { IsSeatOf gate.now second.old }
    ensures first { IsSeatOf gate.now first.new }
    ensures second { IsSeatOf gate.now second.new }
{
    let first_glance = gate.glance(first);
    let port = Call::PortCreate {
        path: text(alloc, b"svc".as_slice())?,
        bufs: 2,
        size: 16,
        flags: PortFlags::TA,
    };
    let is_port_at_0 = gives_handle(rt, gate, first, begins(0, port), 0);
    let connect = Call::Connect {
        path: text(alloc, b"svc".as_slice())?,
        flags: ConnectFlags::ASYNC,
    };
    let is_connected_at_1 = tries_for_handle(gate, second, begins(1, connect), 1);
    let is_refused = refuses_resume(rt, gate, first);
    let last_glance = gate.glance(first);
    Ok(Met {
        first_glance,
        is_port_at_0,
        is_connected_at_1,
        is_refused,
        last_glance,
    })
}

// The length of the journal that both seats get out of the gate.
fn closed<K: IpcKernel + Drop>(
    alloc: Global,
    gate: Gate<K>,
    first: Seat,
    second: Seat,
) -> Result<u64, NoMemory>
    requires seats { seats_of gate ≡ 2 }
    requires first { IsSeatOf gate first }
    requires second { IsSeatOf gate second }
{
    let seats = with_seat(&gate, Vec::new(alloc), first)?;
    let seats = with_seat(&gate, seats, second)?;
    match gate.close(alloc, seats) {
        Ok((logged, _seat)) => Ok(logged.journal().len()),
        Err(_) => Err(NoMemory),
    }
}

// What the seats of a new gate met, whether a third was refused, and the length of the journal.
fn two_seats<R: Wait, K: IpcKernel + Drop>(
    rt: &R,
    alloc: Global,
    kernel: K,
) -> Result<(Met, bool, u64), NoMemory> {
    let Ok((gate, mut first)) = Gate::new(alloc, kernel, 2) else {
        return Err(NoMemory);
    };
    let Ok(mut second) = gate.split(&mut first) else {
        return Err(NoMemory);
    };
    let met = seen_by_two(rt, alloc, &gate, &mut first, &mut second)?;
    let is_third_refused = matches!(gate.split(&mut first), Err(SplitRefused::NoneLeft));
    Ok((met, is_third_refused, closed(alloc, gate, first, second)?))
}

fn opened(alloc: Global) -> Result<PlainKernel, NoMemory> {
    match read_scene(alloc, SCENE.as_bytes()) {
        Ok(scene) => PlainKernel::new(alloc, &scene),
        Err(_) => Err(NoMemory),
    }
}

#[test]
fn two_seats_share_the_kernel_of_a_scene(rt: HostRuntime) -> Result<(), Fail> {
    let kernel = opened(rt.alloc())?;
    let (met, is_third_refused, journal) = two_seats(&rt, rt.alloc(), kernel)?;
    assert_eq!(rt;
        met,
        Met {
            first_glance: 0,
            is_port_at_0: true,
            is_connected_at_1: true,
            is_refused: true,
            last_glance: 2,
        }
    );
    assert!(rt; is_third_refused);
    assert_eq!(rt; journal, 2);
    Ok(())
}
