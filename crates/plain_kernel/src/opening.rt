//! The state in which a scene begins.

ghost use Rattle.std.specs.Prelude.{IfOk, ◌≡◌, map, OnOk, ◌++◌};
ghost use Rattle.kernel_types.specs.Opening.{opening_app, opening_activity, opening_core};
ghost use Rattle.plain_objects.specs.Predicates.{place_threads};
ghost use Rattle.std.specs.List.{flat_map, enumerate_from};

use kernel_values::{
    Activity, App, Application, Copied, CoreState, Items, Manifest, NoMemory, Thread,
};
use std::alloc::Global;

fn opening_app(alloc: Global, app: &App) -> Result<Application, NoMemory>
    ensures { IfOk result (λ application. application ≡ opening_app app.now) }
{
    let starts = if app.manifest.deferred { 0 } else { 1 };
    Ok(Application {
        manifest: app.manifest.copied()?,
        starts,
        running: !app.manifest.deferred,
        table: Items::new(alloc),
        last: None,
    })
}

fn opening_apps(alloc: Global, apps: &[App]) -> Result<Items<Application>, NoMemory>
    ensures { IfOk result (λ others. others ≡ map opening_app apps.now) }
{
    let mut others = Items::new(alloc);
    for app in apps {
        others.push(opening_app(alloc, app)?)?;
    }
    Ok(others)
}

fn opening_activity(manifest: &Manifest) -> Activity
    ensures { result ≡ opening_activity manifest.now }
{
    if manifest.deferred {
        Activity::Off
    } else {
        Activity::Running { start: 1 }
    }
}

/// A thread for each script of the application at this place.
#[tactic(auto, unfolding(plain_objects::specs::Predicates::place_threads))]
fn add_threads(threads: &mut Items<Thread>, place: u32, app: &App) -> Result<(), NoMemory>
    ensures { OnOk result (threads.new ≡ threads.old ++ place_threads (place, app.now)) }
{
    for _script in app.threads.as_slice() {
        let activity = opening_activity(&app.manifest);
        threads.push(Thread {
            app: place,
            activity,
        })?;
    }
    Ok(())
}

fn opening_threads(alloc: Global, apps: &[App]) -> Result<Items<Thread>, NoMemory>
    ensures { IfOk result (λ threads. threads ≡ flat_map place_threads (enumerate_from 0 apps.now)) }
{
    let mut threads = Items::new(alloc);
    let mut place: u32 = 0;
    for app in apps {
        add_threads(&mut threads, place, app)?;
        let Some(next) = place.checked_add(1) else {
            return Err(NoMemory);
        };
        place = next;
    }
    Ok(threads)
}

/// The state of the kernel: the clock is 0, and there are no objects.
#[tactic(auto, unfolding(plain_objects::specs::Predicates::place_threads))]
pub fn opening_core(alloc: Global, apps: &[App]) -> Result<CoreState, NoMemory>
    ensures { IfOk result (λ core. core ≡ opening_core apps.now) }
{
    Ok(CoreState {
        apps: opening_apps(alloc, apps)?,
        threads: opening_threads(alloc, apps)?,
        objects: Items::new(alloc),
        next: 0,
        clock: 0,
        bridged: Items::new(alloc),
    })
}
