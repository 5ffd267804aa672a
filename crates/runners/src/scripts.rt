//! The scripts of a scene, by the numbers of their actors.

ghost use Rattle.std.specs.Prelude.{◌≡◌, ◌≤◌, ◌++◌, length, IfOk, OnOk, map};
ghost use Rattle.std.specs.List.{flat_map};
ghost use Rattle.kernel_values.specs.SceneLaw.{IsLawfulScene, scripts_of};
ghost use Rattle.runners.specs.Places.{first_place, most_actors};

use crate::place::Place;
use kernel_types::values::{App, Client, Copied, Items, NoMemory, Scene, Script, ScriptList};
use std::alloc::Global;

fn add_scripts(scripts: &mut ScriptList, threads: &[Script]) -> Result<(), NoMemory>
    ensures { OnOk result (scripts.new ≡ scripts.old ++ threads.now) }
{
    for script in threads {
        scripts.push(script.copied()?)?;
    }
    Ok(())
}

fn add_threads(scripts: &mut ScriptList, apps: &[App]) -> Result<(), NoMemory>
    ensures { OnOk result (scripts.new ≡ scripts.old ++ flat_map (λ app. app.threads) apps.now) }
{
    for app in apps {
        add_scripts(scripts, app.threads.as_slice())?;
    }
    Ok(())
}

fn add_clients(scripts: &mut ScriptList, clients: &[Client]) -> Result<(), NoMemory>
    ensures { OnOk result (scripts.new ≡ scripts.old ++ map (λ client. client.script) clients.now) }
{
    for client in clients {
        scripts.push(client.script.copied()?)?;
    }
    Ok(())
}

/// What a scene keeps: every limit on what it may hold.
pub fn is_lawful(scene: &Scene)
    ensures { IsLawfulScene scene.now }
{
    let _ = &scene.apps;
}

/// A copy of every script: the threads' first, then the clients'. There are at most 136.
pub fn scripts_of(alloc: Global, scene: &Scene) -> Result<ScriptList, NoMemory>
    ensures few { IfOk result (λ scripts. length scripts ≤ most_actors) }
    ensures scripts { IfOk result (λ scripts. scripts ≡ scripts_of scene.now) }
{
    let mut scripts = Items::new(alloc);
    add_threads(&mut scripts, scene.apps.as_slice())?;
    add_clients(&mut scripts, scene.clients.as_slice())?;
    Ok(scripts)
}

/// Each actor at the beginning of its script, by its first start.
pub fn places_of(alloc: Global, scripts: &[Script]) -> Result<Vec<Place>, NoMemory>
    ensures { IfOk result (λ places. places.items ≡ map first_place scripts.now) }
{
    let mut places = Vec::new(alloc);
    for script in scripts {
        places.push(Place::new(alloc, script, 1)?)?;
    }
    Ok(places)
}
