//! Clients: they begin to wait, run again and end; and which go on, run and have a deadline.

ghost use Rattle.std.specs.Prelude.{◌≡◌, map, IfOk};
ghost use Rattle.kernel_types.specs.Clients.{client_cancelled, client_changed, client_ended, client_running, client_waiting, new_wait};
ghost use Rattle.kernel_types.specs.CoreStep.{sooner};
ghost use Rattle.kernel_types.specs.Objects.{map_at};
ghost use Rattle.kernel_types.specs.Opening.{opening_client};
ghost use Rattle.kernel_types.specs.Step.{client_deadline, client_status, least_client_deadline};
ghost use Rattle.kernel_types.specs.Waits.{deadline_of, is_due};
ghost use Rattle.std.specs.List.{list_any};
ghost use Rattle.ns_bridge.specs.Wholes.{goes_on, runs};
ghost use Rattle.ns_driver.specs.Worlds.{clients_with, deadline_after};

use kernel_values::{
    ActorStatus, Call, Client, ClientActivity, ClientState, ClientWait, ClientWaitOn, Items,
    NoMemory, Timeout,
};
use std::alloc::Global;

/// Every client runs from the beginning.
pub fn opening_clients(alloc: Global, clients: &[Client]) -> Result<Items<ClientState>, NoMemory>
    ensures { IfOk result (λ states. states ≡ map opening_client clients.now) }
{
    let mut states = Items::new(alloc);
    for _client in clients {
        states.push(ClientState {
            activity: ClientActivity::Running { start: 1 },
        })?;
    }
    Ok(states)
}

/// The client begins to wait, where there is something to wait for.
pub fn begin_to_wait(
    clients: &mut Items<ClientState>,
    client: u32,
    deadline: Option<u64>,
    on: Option<ClientWaitOn>,
)
    ensures { clients.new ≡ clients_with client deadline on clients.old }
{
    if let Some(on) = on {
        if let Some(waiter) = clients.get_mut(client as usize) {
            if let ClientActivity::Running { start } = waiter.activity {
                let wait = ClientWait {
                    on,
                    deadline,
                    cancelled: false,
                };
                waiter.activity = ClientActivity::Waiting { start, wait };
            }
        }
    }
}

/// A client that waits runs again.
pub fn run_again(clients: &mut Items<ClientState>, client: u32)
    ensures { clients.new ≡ map_at (client_changed client_running) clients.old client }
{
    if let Some(waiter) = clients.get_mut(client as usize) {
        if let ClientActivity::Waiting { start, wait: _ } = waiter.activity {
            waiter.activity = ClientActivity::Running { start };
        }
    }
}

/// A client that runs ends.
pub fn end(clients: &mut Items<ClientState>, client: u32)
    ensures { clients.new ≡ map_at (client_changed client_ended) clients.old client }
{
    if let Some(caller) = clients.get_mut(client as usize) {
        if let ClientActivity::Running { start } = caller.activity {
            caller.activity = ClientActivity::Ended { start };
        }
    }
}

fn cancel(clients: &mut Items<ClientState>, client: usize)
    ensures { clients.new ≡ map_at (client_changed client_cancelled) clients.old client }
{
    if let Some(waiter) = clients.get_mut(client) {
        if let ClientActivity::Waiting { start, mut wait } = waiter.activity {
            wait.cancelled = true;
            waiter.activity = ClientActivity::Waiting { start, wait };
        }
    }
}

/// Every wait is cancelled.
#[tactic(auto, using(crate::proofs::Lists::mapped_more))]
pub fn cancel_all(clients: &mut Items<ClientState>)
    ensures { clients.new ≡ map (client_changed client_cancelled) clients.old }
{
    for client in 0..clients.len() {
        cancel(clients, client);
    }
}

/// When a wait of the call ends that begins now; nothing where the number of milliseconds ends.
pub fn deadline_after(clock: u64, call: &Call) -> Result<Option<u64>, NoMemory>
    ensures { IfOk result (λ deadline. deadline ≡ deadline_after clock call.now) }
{
    match call {
        Call::NsRecv {
            conn: _,
            timeout: Timeout::Millis(millis),
        } => match clock.checked_add(u64::from(*millis)) {
            Some(deadline) => Ok(Some(deadline)),
            None => Err(NoMemory),
        },
        _ => Ok(None),
    }
}

pub fn is_due(clock: u64, deadline: Option<u64>) -> bool
    ensures { result ≡ is_due clock deadline }
{
    match deadline {
        None => false,
        Some(deadline) => deadline <= clock,
    }
}

pub fn status_of(activity: ClientActivity) -> ActorStatus
    ensures { result ≡ client_status activity }
{
    match activity {
        ClientActivity::Running { start } => ActorStatus::Running { start },
        ClientActivity::Waiting { start, wait: _ } => ActorStatus::Waiting { start },
        ClientActivity::Ended { start } => ActorStatus::Ended { start },
    }
}

#[tactic(auto, unfolding(crate::specs::Wholes::goes_on))]
fn goes_on(client: &ClientState) -> bool
    ensures { result ≡ goes_on client.now }
{
    !matches!(client.activity, ClientActivity::Ended { start: _ })
}

#[tactic(auto, unfolding(crate::specs::Wholes::runs))]
fn runs(client: &ClientState) -> bool
    ensures { result ≡ runs client.now }
{
    matches!(client.activity, ClientActivity::Running { start: _ })
}

/// Whether some client has not ended.
pub fn any_goes_on(clients: &[ClientState]) -> bool
    ensures { result ≡ list_any goes_on clients.now }
{
    for client in clients {
        if goes_on(client) {
            return true;
        }
    }
    false
}

/// Whether some client runs.
pub fn any_runs(clients: &[ClientState]) -> bool
    ensures { result ≡ list_any runs clients.now }
{
    for client in clients {
        if runs(client) {
            return true;
        }
    }
    false
}

/// The sooner of two deadlines.
pub fn sooner(one: Option<u64>, other: Option<u64>) -> Option<u64>
    ensures { result ≡ sooner one other }
{
    match (one, other) {
        (Some(one), Some(other)) => Some(one.min(other)),
        (Some(one), None) => Some(one),
        (None, other) => other,
    }
}

fn deadline_in(activity: ClientActivity) -> Option<u64>
    ensures { result ≡ client_deadline activity }
{
    match activity {
        ClientActivity::Waiting { start: _, wait } => wait.deadline,
        _ => None,
    }
}

/// The least deadline of all waits.
pub fn least_deadline(clients: &[ClientState]) -> Option<u64>
    ensures { result ≡ least_client_deadline clients.now }
{
    match clients {
        [] => None,
        [client, rest @ ..] => sooner(deadline_in(client.activity), least_deadline(rest)),
    }
}
