//! The life of applications.
ghost use Rattle.std.specs.Prelude.{◌≡◌, [], ◌∷◌, IfOk, codes, true, false};

use app_life::Apps;
use kernel_values::{
    ActorId, ActorStatus, App, AppId, Bytes, Handle, Items, Manifest, NoMemory, PortFlags, Scene,
    Script, StartPort,
};
use object_store::ObjKey;
use std::alloc::Global;
use std::test::Fail;

// An application that waits for a connect to its start port `svc`, with one thread.
fn service(alloc: Global) -> Result<App, NoMemory>
    ensures { IfOk result (λ app. app ≡ record { name = codes "s"; manifest = record { uuid = 0x11111111_2222_3333_4444_555555555555; restart = false; deferred = true; ports = record { path = codes "svc"; flags = record { 0 = 1 } } ∷ [] }; threads = [] ∷ [] }) }
{
    let mut ports = Items::new(alloc);
    ports.push(StartPort {
        path: Bytes::from_slice(alloc, b"svc")?,
        flags: PortFlags(1),
    })?;
    let mut threads = Items::new(alloc);
    threads.push(Script::new(alloc))?;
    Ok(App {
        name: Bytes::from_slice(alloc, b"s")?,
        manifest: Manifest {
            uuid: 0x11111111_2222_3333_4444_555555555555,
            restart: false,
            deferred: true,
            ports,
        },
        threads,
    })
}

// An application that starts with the scene and again whenever it ends, with two threads.
fn worker(alloc: Global) -> Result<App, NoMemory>
    ensures { IfOk result (λ app. app ≡ record { name = codes "t"; manifest = record { uuid = 2; restart = true; deferred = false; ports = [] }; threads = [] ∷ [] ∷ [] }) }
{
    let mut threads = Items::new(alloc);
    threads.push(Script::new(alloc))?;
    threads.push(Script::new(alloc))?;
    Ok(App {
        name: Bytes::from_slice(alloc, b"t")?,
        manifest: Manifest {
            uuid: 2,
            restart: true,
            deferred: false,
            ports: Items::new(alloc),
        },
        threads,
    })
}

fn scene(alloc: Global) -> Result<Scene, NoMemory> {
    let mut apps = Items::new(alloc);
    apps.push(service(alloc)?)?;
    apps.push(worker(alloc)?)?;
    Ok(Scene {
        apps,
        clients: Items::new(alloc),
        queue: 2,
        turns: Items::new(alloc),
    })
}

// What an application answers where it may be asked.

fn start(apps: &mut Apps, app: u32) -> Option<bool> {
    if app as usize >= apps.len() || apps.table(AppId(app)).free() != 64 {
        return None;
    }
    Some(apps.start(AppId(app)))
}

fn end(apps: &mut Apps, app: u32) -> Option<bool> {
    if app as usize >= apps.len() || apps.table(AppId(app)).free() != 64 {
        return None;
    }
    if !apps.runs(AppId(app)) {
        return None;
    }
    Some(apps.end(AppId(app)))
}

fn free_numbers(apps: &Apps, app: u32) -> Option<u32> {
    if app as usize >= apps.len() {
        return None;
    }
    Some(apps.table(AppId(app)).free())
}

fn install(apps: &mut Apps, app: u32, serial: u64) -> Option<Handle> {
    if app as usize >= apps.len() {
        return None;
    }
    apps.table_mut(AppId(app))
        .install(ObjKey { slot: 0, serial })
        .ok()
}

fn uuid(apps: &Apps, app: u32) -> Option<u128> {
    if app as usize >= apps.len() {
        return None;
    }
    Some(apps.uuid(AppId(app)))
}

// What a thread does, where it is one.

fn status(apps: &Apps, actor: u32) -> Option<ActorStatus> {
    if actor as usize >= apps.threads() {
        return None;
    }
    Some(apps.status(ActorId(actor)))
}

fn app_of(apps: &Apps, actor: u32) -> Option<AppId> {
    if actor as usize >= apps.threads() {
        return None;
    }
    Some(apps.app_of(ActorId(actor)))
}

fn finish(apps: &mut Apps, actor: u32) -> Option<bool> {
    if actor as usize >= apps.threads() {
        return None;
    }
    let ActorStatus::Running { .. } = apps.status(ActorId(actor)) else {
        return None;
    };
    Some(apps.finish(ActorId(actor)))
}

fn wait(apps: &mut Apps, actor: u32) {
    if actor as usize >= apps.threads() {
        return;
    }
    let ActorStatus::Running { .. } = apps.status(ActorId(actor)) else {
        return;
    };
    apps.set_waiting(ActorId(actor), true);
}

fn resume(apps: &mut Apps, actor: u32) {
    if actor as usize >= apps.threads() {
        return;
    }
    let ActorStatus::Waiting { .. } = apps.status(ActorId(actor)) else {
        return;
    };
    apps.set_waiting(ActorId(actor), false);
}

// A deferred application starts once it is asked to, and not while it runs; it ends with its last thread.
#[test]
fn deferred_application(rt: HostRuntime) -> Result<(), Fail> {
    let mut apps = Apps::new(rt.alloc(), &scene(rt.alloc())?)?;
    let path = Bytes::from_slice(rt.alloc(), b"svc")?;
    assert_eq!(rt; apps.by_start_port(&path), Some(AppId(0)));
    assert_eq!(rt; apps.start_flags(&path), Some(PortFlags(1)));
    assert_eq!(rt; status(&apps, 0), Some(ActorStatus::Off));
    assert_eq!(rt; start(&mut apps, 0), Some(true));
    assert_eq!(rt; start(&mut apps, 0), Some(false));
    assert_eq!(rt; status(&apps, 0), Some(ActorStatus::Running { start: 1 }));
    assert_eq!(rt; finish(&mut apps, 0), Some(true));
    assert_eq!(rt; end(&mut apps, 0), Some(false));
    assert_eq!(rt; status(&apps, 0), Some(ActorStatus::Ended { start: 1 }));
    Ok(())
}

// An application that restarts runs 4 times, and each start forgets the last reported number.
#[test]
fn four_starts(rt: HostRuntime) -> Result<(), Fail> {
    let mut apps = Apps::new(rt.alloc(), &scene(rt.alloc())?)?;
    apps.set_last(AppId(1), 7);
    assert_eq!(rt; apps.last(AppId(1)), Some(7));
    assert_eq!(rt; end(&mut apps, 1), Some(true));
    assert_eq!(rt; apps.last(AppId(1)), None);
    assert_eq!(rt; end(&mut apps, 1), Some(true));
    assert_eq!(rt; end(&mut apps, 1), Some(true));
    assert_eq!(rt; end(&mut apps, 1), Some(false));
    assert_eq!(rt; status(&apps, 2), Some(ActorStatus::Ended { start: 4 }));
    assert_eq!(rt; start(&mut apps, 1), Some(false));
    Ok(())
}

// Threads wait and finish each by itself; the table is its application's.
#[test]
fn two_threads(rt: HostRuntime) -> Result<(), Fail> {
    let mut apps = Apps::new(rt.alloc(), &scene(rt.alloc())?)?;
    assert_eq!(rt; app_of(&apps, 1), Some(AppId(1)));
    assert_eq!(rt; uuid(&apps, 1), Some(2));
    assert_eq!(rt; install(&mut apps, 1, 5), Some(0));
    assert_eq!(rt; free_numbers(&apps, 1), Some(63));
    assert_eq!(rt; free_numbers(&apps, 0), Some(64));
    wait(&mut apps, 2);
    assert_eq!(rt; status(&apps, 2), Some(ActorStatus::Waiting { start: 1 }));
    assert_eq!(rt; finish(&mut apps, 1), Some(false));
    resume(&mut apps, 2);
    assert_eq!(rt; finish(&mut apps, 2), Some(true));
    Ok(())
}
