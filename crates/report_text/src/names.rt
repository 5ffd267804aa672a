//! The names of a scene's actors.

ghost use Rattle.std.specs.Prelude.{◌≡◌, ◌++◌, OnOk, IfOk};
ghost use Rattle.report_text.specs.Names.{thread_name, thread_names, actor_names};

use itoa::Buffer;
use kernel_types::values::{App, Bytes, Copied, Items, NoMemory, Scene};
use std::alloc::Global;

/// Names of actors, by their numbers.
pub type NameList = Items<Bytes>;

fn thread_name(alloc: Global, app: &[u8], thread: usize) -> Result<Bytes, NoMemory>
    ensures { IfOk result (λ name. name ≡ thread_name app.now thread) }
{
    let mut buffer = Buffer::new();
    let mut name = Vec::from_slice(alloc, app)?;
    name.push(b'.')?;
    name.extend_from_slice(buffer.format(thread).as_bytes())?;
    Ok(Items::from_vec(name))
}

fn add_threads(alloc: Global, names: &mut NameList, app: &App) -> Result<(), NoMemory>
    ensures { OnOk result (names.new ≡ names.old ++ thread_names app.now) }
{
    for thread in 0..app.threads.len() {
        names.push(thread_name(alloc, app.name.as_slice(), thread)?)?;
    }
    Ok(())
}

/// The threads of each application in order, then the clients.
#[tactic(auto, unfolding(crate::specs::Names::actor_names))]
pub fn actor_names(alloc: Global, scene: &Scene) -> Result<NameList, NoMemory>
    ensures { IfOk result (λ names. names ≡ actor_names scene.now) }
{
    let mut names = Items::new(alloc);
    let apps = scene.apps.as_slice();
    for app in apps {
        add_threads(alloc, &mut names, app)?;
    }
    let clients = scene.clients.as_slice();
    for client in clients {
        names.push(client.name.copied()?)?;
    }
    Ok(names)
}
