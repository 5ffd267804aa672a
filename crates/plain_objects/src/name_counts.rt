//! How much room the entries that name objects need.

ghost use Rattle.std.specs.Prelude.{◌≡◌, ◌+◌, IfOk, length};
ghost use Rattle.kernel_types.specs.Names.{table_names, wait_names, message_objects, object_names, naming};
ghost use Rattle.std.specs.List.{flat_map};

use kernel_values::{
    Activity, Application, Body, CoreState, Message, NoMemory, Object, Thread, WaitOn,
};

fn sum(one: usize, other: usize) -> Result<usize, NoMemory>
    ensures { IfOk result (λ sum. sum ≡ one + other) }
{
    match one.checked_add(other) {
        Some(sum) => Ok(sum),
        None => Err(NoMemory),
    }
}

fn count_in_tables(apps: &[Application]) -> Result<usize, NoMemory>
    ensures { IfOk result (λ count. count ≡ length (flat_map table_names apps.now)) }
{
    let mut count: usize = 0;
    for app in apps {
        count = sum(count, app.table.len())?;
    }
    Ok(count)
}

fn count_of_wait(thread: &Thread) -> usize
    ensures { result ≡ length (wait_names thread.now) }
{
    match thread.activity {
        Activity::Waiting { start: _, wait } => match wait.on {
            WaitOn::Object { .. } | WaitOn::Connect { .. } => 1,
            WaitOn::Any => 0,
        },
        _ => 0,
    }
}

fn count_in_waits(threads: &[Thread]) -> Result<usize, NoMemory>
    ensures { IfOk result (λ count. count ≡ length (flat_map wait_names threads.now)) }
{
    let mut count: usize = 0;
    for thread in threads {
        count = sum(count, count_of_wait(thread))?;
    }
    Ok(count)
}

fn count_in_messages(messages: &[Message]) -> Result<usize, NoMemory>
    ensures { IfOk result (λ count. count ≡ length (message_objects messages.now)) }
{
    let mut count: usize = 0;
    for message in messages {
        count = sum(count, message.parts.len())?;
    }
    Ok(count)
}

fn count_in(object: &Object) -> Result<usize, NoMemory>
    ensures { IfOk result (λ count. count ≡ length (object_names object.now)) }
{
    match &object.body {
        Body::Port(port) => Ok(port.pending.len()),
        Body::End(end) => count_in_messages(end.messages.as_slice()),
        Body::Set(set) => Ok(set.members.len()),
        Body::Memory(_) => Ok(0),
    }
}

fn count_in_objects(objects: &[Object]) -> Result<usize, NoMemory>
    ensures { IfOk result (λ count. count ≡ length (flat_map object_names objects.now)) }
{
    let mut count: usize = 0;
    for object in objects {
        count = sum(count, count_in(object)?)?;
    }
    Ok(count)
}

/// How many entries name objects.
#[tactic(auto, unfolding(kernel_types::specs::Names::naming))]
pub fn count_naming(core: &CoreState) -> Result<usize, NoMemory>
    ensures { IfOk result (λ count. count ≡ length (naming core.now)) }
{
    let roots = sum(count_in_tables(core.apps.as_slice())?, core.bridged.len())?;
    let waits = sum(roots, count_in_waits(core.threads.as_slice())?)?;
    sum(waits, count_in_objects(core.objects.as_slice())?)
}
