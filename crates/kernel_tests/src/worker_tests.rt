//! One worker of a run, over a lock of one seat.
ghost use Rattle.std.specs.Prelude.{◌≡◌, ◌<◌, All, IfOk, length};
ghost use Rattle.kernel_types.specs.Opening.{opening};
ghost use Rattle.runners.specs.Workers.{Rests};

use kernel_log::Logged;
use kernel_types::IpcKernel;
use kernel_types::values::{ActorId, Answer, Call, Entry, Event, NoMemory, Recorded, Reply, Scene};
use program_kernel::kernel_of;
use runners::{NoHook, Shared, Worked, work};
use scene_reader::read_scene;
use std::alloc::Global;
use std::sync::Wait;
use std::test::Fail;
use turnstile::{Pass, Turnstile};

const ONE_THREAD: &str = "scene 1\napp a\nthread\nset\n";

fn alone<K: IpcKernel + Drop>(
    alloc: Global,
    turnstile: &Turnstile<Shared<K>>,
    pass: Pass,
) -> Result<Vec<Pass>, NoMemory>
    requires { Rests turnstile.now pass }
    ensures all { IfOk result (λ passes. All (Rests turnstile.now) passes.items) }
    ensures len { IfOk result (λ passes. length passes.items ≡ 1) }
{
    let mut passes = Vec::new(alloc);
    passes.push(pass)?;
    Ok(passes)
}

// How the run ended for the worker of actor 0, who had it alone, and the kernel with its journal.
fn worked_alone<R: Wait, K: IpcKernel + Drop>(
    rt: &R,
    alloc: Global,
    shared: Shared<K>,
) -> Result<(Worked, Logged<K>), NoMemory>
    requires { 0 < length shared.origin.scripts }
{
    let Ok((turnstile, mut pass)) = Turnstile::new(alloc, shared, 1) else {
        return Err(NoMemory);
    };
    let worked = work(rt, &turnstile, &mut pass, ActorId(0), &NoHook)?;
    let passes = alone(alloc, &turnstile, pass)?;
    match turnstile.close(alloc, passes) {
        Ok((shared, _pass)) => Ok((worked, shared.into_logged())),
        Err(_) => Err(NoMemory),
    }
}

fn is_set(entry: &Entry) -> bool {
    matches!(
        (&entry.event, &entry.answer),
        (
            Event::Begin {
                actor: ActorId(0),
                start: 1,
                call: Call::SetCreate,
            },
            Answer::Gives(Reply::Handle(0)),
        )
    )
}

fn is_finish(entry: &Entry) -> bool {
    matches!(
        (&entry.event, &entry.answer),
        (
            Event::Begin {
                actor: ActorId(0),
                start: 1,
                call: Call::Finish,
            },
            Answer::Gives(Reply::Done),
        )
    )
}

// The call of the script and the one that ends it, each once, and nothing else.
fn is_whole_script(entries: &[Entry]) -> bool {
    match entries {
        [first, second] => is_set(first) && is_finish(second),
        _ => false,
    }
}

// How the run of the scene by the worker of actor 0 ended, and whether its journal is that of the whole script.
fn run_by_one<R: Wait, K: IpcKernel + Drop>(
    rt: &R,
    alloc: Global,
    kernel: K,
    scene: &Scene,
) -> Result<Option<(Worked, bool)>, NoMemory>
    requires state { K.state kernel ≡ opening scene.now }
    requires made { K.made kernel ≡ 0 }
{
    let shared = Shared::new(alloc, kernel, scene)?;
    if shared.actors() == 0 {
        return Ok(None);
    }
    let (worked, logged) = worked_alone(rt, alloc, shared)?;
    Ok(Some((worked, is_whole_script(logged.journal().entries()))))
}

#[test]
fn a_worker_alone_makes_its_whole_script(rt: HostRuntime) -> Result<(), Fail> {
    let alloc = rt.alloc();
    let Ok(scene) = read_scene(alloc, ONE_THREAD.as_bytes()) else {
        panic!(rt; "the scene is refused")
    };
    let kernel = kernel_of(alloc, &scene)?;
    assert_eq!(rt;
        run_by_one(&rt, alloc, kernel, &scene)?,
        Some((Worked::Whole, true))
    );
    Ok(())
}
