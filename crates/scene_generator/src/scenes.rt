//! The scene of a seed.

ghost use Rattle.std.specs.Prelude.{◌≡◌, ◌≤◌, ◌<◌, IfOk, map};
ghost use Rattle.std.specs.List.{range_with_len};
ghost use Rattle.scene_generator.specs.Generated.{app_of, generated};

use crate::scripts::{name_of, script_of};
use kernel_values::{
    App, AppList, ClientList, Manifest, NoMemory, Scene, ScriptList, StartPortList, TurnList,
};
use std::alloc::Global;

/// The most commands that a generated scene may have.
pub const MOST_COMMANDS: u32 = 10_000;

// The application with this number, of four.
fn app_of(alloc: Global, seed: u64, count: u32, app: u32) -> Result<App, NoMemory>
    requires { app < 4 }
    ensures { IfOk result (λ made. made ≡ app_of seed count app) }
{
    let mut threads = ScriptList::new(alloc);
    threads.push(script_of(alloc, seed, count, app)?)?;
    Ok(App {
        name: name_of(alloc, app)?,
        manifest: Manifest {
            uuid: app as u128 + 1,
            restart: false,
            deferred: false,
            ports: StartPortList::new(alloc),
        },
        threads,
    })
}

fn apps_of(alloc: Global, seed: u64, count: u32) -> Result<AppList, NoMemory>
    ensures { IfOk result (λ apps. apps ≡ map (app_of seed count) (range_with_len 0 4)) }
{
    let mut apps = AppList::new(alloc);
    for app in 0..4 {
        apps.push(app_of(alloc, seed, count, app)?)?;
    }
    Ok(apps)
}

/// A scene of four applications, `g0` to `g3`, with `count` commands in all, at most 10,000: each
/// publishes a port, connects to the next one's and accepts; every later command is drawn from a linear
/// congruential sequence modulo 2^64 that begins with the seed. The same seed and count give the same
/// scene on every machine.
pub fn generated(alloc: Global, seed: u64, count: u32) -> Result<Scene, NoMemory>
    requires { count ≤ MOST_COMMANDS }
    ensures { IfOk result (λ scene. scene ≡ generated seed count) }
{
    Ok(Scene {
        apps: apps_of(alloc, seed, count)?,
        clients: ClientList::new(alloc),
        queue: 16,
        turns: TurnList::new(alloc),
    })
}
