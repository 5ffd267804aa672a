//! A call or the end of a wait: most begin with a drain, and what comes after it is planned first, and written then.

ghost use Rattle.std.specs.Prelude.{◌≡◌, ◌<◌, ◌≤◌, length, Some, None, IfOk, IfSome, OnOk, OnErr};
ghost use Rattle.std.specs.Option.{option_map};
ghost use Rattle.std.specs.List.{All, fold};
ghost use Rattle.virtqueue.specs.Layout.{IsQueue};
ghost use Rattle.kernel_types.specs.GuestMemory.{ring, given};
ghost use Rattle.ns_driver.specs.Value.{IsSound, wait_of};
ghost use Rattle.ns_driver.specs.Acts.{bare, acted, told, awaited, new_wait_of, wait_if, MayAct, MayFollow, HasRoom};
ghost use Rattle.ns_driver.specs.Plans.{outcome, outcome_of, planned, alone, memory_after};

use crate::calls::{FIRST_ADDRESS, Planned, connect, send};
use crate::direct::act_directly;
use crate::drain::look;
use crate::inboxes::{close, recv, resume};
use crate::memory::{BUFFER_SIZE, give, send as send_frame};
use kernel_values::{
    Answer, Bytes, Call, CallKind, ClientWaitOn, Copied, Driver as DriverState, NoMemory,
};
use virtqueue::MEMORY_SIZE;

/// What a client waits for.
pub fn wait_of(waits: &[Option<ClientWaitOn>], client: u32) -> Option<ClientWaitOn>
    ensures { result ≡ wait_of waits.now client }
{
    match waits.get(client as usize) {
        Some(wait) => *wait,
        None => None,
    }
}

/// What a call waits for, where it waits.
fn awaited(driver: &DriverState, call: &Call) -> Option<ClientWaitOn>
    requires { HasRoom driver.now call.now }
    ensures { result ≡ awaited driver.now call.now }
{
    match call {
        Call::NsConnect { .. } => Some(ClientWaitOn::Connect {
            conn: FIRST_ADDRESS + driver.connections.len() as u32,
        }),
        Call::NsRecv { conn, .. } => Some(ClientWaitOn::Receive { conn: *conn }),
        _ => None,
    }
}

/// What the client waits for after the call or the end of its wait, if it waits then.
pub fn new_wait_of(
    driver: &DriverState,
    before: Option<ClientWaitOn>,
    call: &Option<Call>,
) -> Option<ClientWaitOn>
    requires { MayAct driver.now before call.now }
    ensures { result ≡ new_wait_of driver.now before call.now }
{
    match call {
        Some(call) => awaited(driver, call),
        None => before,
    }
}

/// Only what waits has a wait.
pub fn wait_if(answer: &Answer, wait: Option<ClientWaitOn>) -> Option<ClientWaitOn>
    ensures { result ≡ wait_if wait answer.now }
{
    match answer {
        Answer::Waits => wait,
        _ => None,
    }
}

/// Gives the device the buffers of these descriptors, in their order.
pub fn give_all(mem: &mut [u8], size: u32, places: &[u32])
    requires memory { length mem.old ≡ MEMORY_SIZE }
    requires queue { IsQueue (ring 0 size) }
    requires places { All (λ place. place < 32) places.now }
    ensures { mem.new ≡ fold (given size) mem.old places.now }
{
    for place in places {
        give(mem, size, *place);
    }
}

/// What the call or the end of the wait comes to on a driver that has drained.
#[tactic(auto, unfolding(crate::specs::Plans::planned))]
fn plan(
    driver: &mut DriverState,
    client: u32,
    before: Option<ClientWaitOn>,
    call: Option<Call>,
) -> Result<Planned, NoMemory>
    requires { MayFollow driver.old before call }
    ensures done { IfOk result (λ p. Some (outcome p.answer p.frame driver.new) ≡ option_map outcome_of (planned client before call (alone driver.old))) }
    ensures short { IfOk result (λ p. IfSome p.frame (λ frame. length frame ≤ BUFFER_SIZE)) }
{
    match (call, before) {
        (Some(Call::NsConnect { path }), _) => connect(driver, client, path.as_slice()),
        (Some(Call::NsSend { conn, bytes }), _) => send(driver, client, conn, bytes.as_slice()),
        (Some(Call::NsRecv { conn, timeout }), _) => recv(driver, client, conn, timeout),
        (Some(Call::NsClose { conn }), _) => close(driver, client, conn),
        (None, Some(on)) => resume(driver, on),
        _ => unreachable!(),
    }
}

/// A frame goes out in the buffer of the least free descriptor, where there is a frame.
fn send_planned(mem: &mut [u8], size: u32, free: &[u32], frame: &Option<Bytes>)
    requires memory { length mem.old ≡ MEMORY_SIZE }
    requires queue { IsQueue (ring 1 size) }
    requires places { All (λ place. place < 32) free.now }
    requires short { IfSome frame.now (λ frame. length frame ≤ BUFFER_SIZE) }
    ensures { mem.new ≡ memory_after size free.now frame.now mem.old }
{
    if let (Some(frame), [place, ..]) = (frame, free) {
        send_frame(mem, size, *place, frame.as_slice());
    }
}

/// Drains, and makes the call or ends the wait.
fn act_drained(
    driver: &mut DriverState,
    mem: &mut [u8],
    client: u32,
    before: Option<ClientWaitOn>,
    call: Option<Call>,
) -> Result<Answer, NoMemory>
    requires memory { length mem.old ≡ MEMORY_SIZE }
    requires sound { IsSound driver.old }
    requires lawful { MayFollow driver.old before call }
    ensures told { IfOk result (λ answer. option_map told (acted client before call (bare mem.old driver.old)) ≡ Some (record { answer = answer; memory = mem.new; driver = driver.new })) }
    ensures sound { IsSound driver.new }
    ensures memory { OnErr result (mem.new ≡ mem.old) }
    ensures driver { OnErr result (driver.new ≡ driver.old) }
{
    let mut found = look(driver, mem)?;
    let free = found.driver.free.copied()?;
    let planned = plan(&mut found.driver, client, before, call)?;
    give_all(mem, driver.size, found.again.as_slice());
    send_planned(mem, driver.size, free.as_slice(), &planned.frame);
    *driver = found.driver;
    Ok(planned.answer)
}

/// Makes the call or ends the wait: a call past the driver at once, all else after a drain.
#[tactic(auto, using(crate::proofs::Carrying::may_follow))]
pub fn act_on(
    driver: &mut DriverState,
    mem: &mut [u8],
    client: u32,
    before: Option<ClientWaitOn>,
    call: Option<Call>,
) -> Result<Answer, NoMemory>
    requires memory { length mem.old ≡ MEMORY_SIZE }
    requires sound { IsSound driver.old }
    requires lawful { MayAct driver.old before call }
    ensures told { IfOk result (λ answer. option_map told (acted client before call (bare mem.old driver.old)) ≡ Some (record { answer = answer; memory = mem.new; driver = driver.new })) }
    ensures sound { IsSound driver.new }
    ensures memory { OnErr result (mem.new ≡ mem.old) }
    ensures driver { OnErr result (driver.new ≡ driver.old) }
{
    match call {
        Some(call) if call.kind() == CallKind::Direct => {
            let answer = act_directly(driver, mem, &call);
            drop(call);
            Ok(answer)
        }
        call => act_drained(driver, mem, client, before, call),
    }
}
