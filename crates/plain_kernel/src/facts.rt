//! What a kernel tells of its state.

ghost use Rattle.std.specs.Prelude.{◌≡◌, OnOk, ◌++◌, map, IfOk, sum_by, not};
ghost use Rattle.kernel_types.specs.CoreStep.{status_of};
ghost use Rattle.kernel_types.specs.Step.{has_begun_and_goes_on, is_running};
ghost use Rattle.plain_kernel.specs.CoreSteps.{core_statuses};
ghost use Rattle.plain_objects.specs.Predicates.{names_on};
ghost use Rattle.kernel_types.specs.Names.{naming};
ghost use Rattle.kernel_types.specs.Facts.{facts_of};
ghost use Rattle.kernel_laws.specs.Numbers.{RisesFrom};
ghost use Rattle.std.specs.List.{list_any, list_all};

use kernel_values::{Activity, ActorStatus, CoreState, EndFacts, Items, NoMemory, Object, Thread};
use plain_objects::names::{Naming, count_names};

fn status_of(activity: Activity) -> ActorStatus
    ensures { result ≡ status_of activity }
{
    match activity {
        Activity::Off => ActorStatus::Off,
        Activity::Running { start } => ActorStatus::Running { start },
        Activity::Waiting { start, wait: _ } => ActorStatus::Waiting { start },
        Activity::Ended { start } => ActorStatus::Ended { start },
    }
}

fn add_threads(statuses: &mut Items<ActorStatus>, threads: &[Thread]) -> Result<(), NoMemory>
    ensures { OnOk result (statuses.new ≡ statuses.old ++ map (λ thread. status_of thread.activity) threads.now) }
{
    for thread in threads {
        statuses.push(status_of(thread.activity))?;
    }
    Ok(())
}

/// Every thread's status.
#[tactic(auto, unfolding(crate::specs::CoreSteps::core_statuses))]
pub fn statuses_of(core: &CoreState) -> Result<Items<ActorStatus>, NoMemory>
    ensures { IfOk result (λ others. others ≡ core_statuses core.now) }
{
    let mut statuses = Items::new(core.apps.allocator());
    add_threads(&mut statuses, core.threads.as_slice())?;
    Ok(statuses)
}

/// How many entries name this object.
#[tactic(auto, unfolding(plain_objects::specs::Predicates::names_on))]
fn names_on(names: &[Naming], object: &Object) -> u64
    ensures { result ≡ names_on names.now object.now }
{
    count_names(names, object.id) as u64
}

/// The sum of the names of objects whose numbers are distinct is at most the number of names.
fn sum_names(names: &[Naming], objects: &[Object], next: u64) -> u64
    requires { RisesFrom 0 objects.now next }
    ensures { result ≡ sum_by (names_on names.now) objects.now }
{
    let mut sum: u64 = 0;
    for object in objects {
        sum += names_on(names, object);
    }
    sum
}

/// The clock, the number of objects, and the sum of their names.
#[tactic(auto, unfolding(plain_objects::specs::Predicates::names_on))]
pub fn facts_of(core: &CoreState, names: &[Naming]) -> EndFacts
    requires numbers { RisesFrom 0 core.now.objects core.now.next }
    requires names { names.now ≡ naming core.now }
    ensures { result ≡ facts_of core.now }
{
    EndFacts {
        clock: core.clock,
        objects: core.objects.len() as u64,
        names: sum_names(names, core.objects.as_slice(), core.next),
    }
}

fn goes_on(status: ActorStatus) -> bool
    ensures { result ≡ has_begun_and_goes_on status }
{
    match status {
        ActorStatus::Running { start: _ } | ActorStatus::Waiting { start: _ } => true,
        ActorStatus::Off | ActorStatus::Ended { start: _ } => false,
    }
}

/// Whether some actor has begun and goes on.
pub fn any_goes_on(statuses: &[ActorStatus]) -> bool
    ensures { result ≡ list_any has_begun_and_goes_on statuses.now }
{
    for status in statuses {
        if goes_on(*status) {
            return true;
        }
    }
    false
}

/// Whether no actor has begun and goes on.
pub fn none_goes_on(statuses: &[ActorStatus]) -> bool
    ensures { result ≡ list_all (λ status. not (has_begun_and_goes_on status)) statuses.now }
{
    for status in statuses {
        if goes_on(*status) {
            return false;
        }
    }
    true
}

/// Whether some actor runs.
pub fn any_runs(statuses: &[ActorStatus]) -> bool
    ensures { result ≡ list_any is_running statuses.now }
{
    for status in statuses {
        if let ActorStatus::Running { start: _ } = status {
            return true;
        }
    }
    false
}
