//! What applications are registered with, and which of them a connect to a path starts.

ghost use Rattle.std.specs.Prelude.{◌≡◌, ◌≤◌, ◌<◌, ℕ, List, Some, map, length, option_copied, slice_get, OnOk, IfOk};
ghost use Rattle.std.specs.Option.{option_or};
ghost use Rattle.app_life.specs.Inside.{manifest_of};
ghost use Rattle.app_life.specs.Places.{place_at, place_in, place_from, place_if};

use kernel_values::{App, AppId, Copied, Items, Manifest, NoMemory, PortFlags, StartPort};
use std::alloc::Global;
use std::collections::BTreeMap;
use std::marker::Model;

/// Where a connect to a start port leads: its application, and who may connect.
#[derive(Clone, Copy, PartialEq, Eq, Debug)]
pub struct StartPlace {
    pub app: AppId,
    pub flags: PortFlags,
}

/// The manifests of all applications in order.
#[derive(Drop)]
pub struct Registry {
    manifests: Items<Manifest>,
    // Each start port by its path; of equal paths, the first.
    starts: BTreeMap<Vec<u8>, StartPlace>,
}

impl Model for Registry {
    ghost use Rattle.std.specs.Prelude.{List};
    ghost use Rattle.kernel_values.specs.declared.scene.Manifest.{Manifest};
    ghost use Rattle.app_life.specs.Places.{IsIndex};

    ghost Value = { List Manifest };

    ghost view = { λ r. r.manifests };

    ghost invariant = { λ r. IsIndex r.starts r.manifests };
}

// The port is found by its path from now on, unless an earlier one has that path.
fn add_port(
    alloc: Global,
    starts: &mut BTreeMap<Vec<u8>, StartPlace>,
    app: AppId,
    port: &StartPort,
) -> Result<(), NoMemory>
    ensures { OnOk result ((path : List ℕ) → place_at starts.new path ≡ option_or (place_at starts.old path) (place_if path app.0 port.now)) }
{
    let path = port.path.as_slice();
    if starts.contains_key(path) {
        return Ok(());
    }
    let place = StartPlace {
        app,
        flags: port.flags,
    };
    starts.insert(Vec::from_slice(alloc, path)?, place)?;
    Ok(())
}

// The ports are found by their paths from now on, each unless an earlier one has that path.
fn add_ports(
    alloc: Global,
    starts: &mut BTreeMap<Vec<u8>, StartPlace>,
    app: AppId,
    ports: &[StartPort],
) -> Result<(), NoMemory>
    ensures { OnOk result ((path : List ℕ) → place_at starts.new path ≡ option_or (place_at starts.old path) (place_in path app.0 ports.now)) }
{
    for port in ports {
        add_port(alloc, starts, app, port)?;
    }
    Ok(())
}

impl Registry {
    /// What the applications of a scene are registered with.
    pub fn new(alloc: Global, apps: &[App]) -> Result<Registry, NoMemory>
        requires { length apps.now ≤ 32 }
        ensures { IfOk result (λ registry. registry ≡ map manifest_of apps.now) }
    {
        let mut manifests = Items::new(alloc);
        let mut starts = BTreeMap::new(alloc);
        for app in apps {
            let number = AppId(manifests.len() as u32);
            add_ports(alloc, &mut starts, number, app.manifest.ports.as_slice())?;
            manifests.push(app.manifest.copied()?)?;
        }
        Ok(Registry { manifests, starts })
    }

    /// Where a connect to the path leads, where it is a start port.
    pub fn start_place(&self, path: &[u8]) -> Option<StartPlace>
        ensures { result ≡ place_from path.now 0 self.now }
    {
        self.starts.get(path).copied()
    }

    /// The manifest of the application at the place.
    pub fn get(&self, at: usize) -> Option<&Manifest>
        ensures { option_copied result ≡ slice_get self.now at }
    {
        self.manifests.get(at)
    }
}
