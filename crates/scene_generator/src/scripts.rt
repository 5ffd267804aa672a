//! The commands that a seed gives.

ghost use Rattle.std.specs.Prelude.{◌≡◌, ◌≤◌, ◌<◌, ◌+◌, ◌-◌, ◌/◌, ◌^◌, IfOk};
ghost use Rattle.scene_generator.specs.Generated.{stepped, name_of, connected, seldom, drawn, call_by, command_by, script_of};

use kernel_values::{
    Bytes, Call, Command, ConnectFlags, Handles, NoMemory, PortFlags, RegList, RegReadList, Script,
    Timeout,
};
use std::alloc::Global;

const MULTIPLIER: u64 = 6_364_136_223_846_793_005;

const INCREMENT: u64 = 1_442_695_040_888_963_407;

// The next number of the sequence.
#[tactic(auto, unfolding(crate::specs::Generated::stepped))]
fn stepped(x: u64) -> u64
    ensures { result ≡ stepped x }
{
    x.wrapping_mul(MULTIPLIER).wrapping_add(INCREMENT)
}

/// The name of the application with this number, which is also the path of its port.
pub fn name_of(alloc: Global, app: u32) -> Result<Bytes, NoMemory>
    requires { app < 4 }
    ensures { IfOk result (λ name. name ≡ name_of app) }
{
    Bytes::from_slice(alloc, &[b'g', b'0' + app as u8])
}

fn connect(alloc: Global, app: u32) -> Result<Call, NoMemory>
    requires { app < 4 }
    ensures { IfOk result (λ call. call ≡ connected app) }
{
    Ok(Call::Connect {
        path: name_of(alloc, app)?,
        flags: ConnectFlags::ASYNC,
    })
}

fn seldom(alloc: Global, handle: u32, v: u32) -> Result<Call, NoMemory>
    requires { handle < 8 }
    ensures { IfOk result (λ call. call ≡ seldom handle v) }
{
    match v / 8192 % 4 {
        0 => connect(alloc, v / 128 % 4),
        1 => Ok(Call::Accept { port: 0 }),
        2 => Ok(Call::Close { handle: handle + 1 }),
        _ => Ok(Call::Dup { handle }),
    }
}

#[tactic(auto, unfolding(crate::specs::Generated::drawn))]
fn drawn(alloc: Global, at: u32, v: u32) -> Result<Call, NoMemory>
    ensures { IfOk result (λ call. call ≡ drawn at v) }
{
    let handle = v / 16 % 8;
    match v % 10 {
        0 | 1 | 2 => Ok(Call::Send {
            chan: handle,
            bytes: Bytes::from_vec(vec![in alloc; (at % 256) as u8; 1 + (v / 128 % 64) as usize]?),
            parts: Handles::new(alloc),
        }),
        3 | 4 => Ok(Call::Get { chan: handle }),
        5 => Ok(Call::Read {
            chan: handle,
            id: 1,
            offset: 0,
            room: 64,
            parts: 0,
        }),
        6 | 7 => Ok(Call::Put {
            chan: handle,
            id: 1,
        }),
        8 => Ok(Call::Wait {
            handle,
            timeout: Timeout::Millis(3),
        }),
        _ => seldom(alloc, handle, v),
    }
}

#[tactic(auto, unfolding(crate::specs::Generated::call_by))]
fn call_by(alloc: Global, at: u32, x: u64) -> Result<Call, NoMemory>
    ensures { IfOk result (λ call. call ≡ call_by at x) }
{
    if at < 4 {
        Ok(Call::PortCreate {
            path: name_of(alloc, at % 4)?,
            bufs: 4,
            size: 64,
            flags: PortFlags::TA,
        })
    } else if at < 8 {
        connect(alloc, (at + 1) % 4)
    } else if at < 12 {
        Ok(Call::Accept { port: 0 })
    } else {
        drawn(alloc, at, (x / 8_589_934_592) as u32)
    }
}

fn command_by(alloc: Global, at: u32, x: u64) -> Result<Command, NoMemory>
    ensures { IfOk result (λ command. command ≡ command_by at x) }
{
    Ok(Command {
        call: call_by(alloc, at, x)?,
        reads: RegReadList::new(alloc),
        sets: RegList::new(alloc),
    })
}

/// The commands of this application, of so many in all.
#[tactic(auto, unfolding(crate::specs::Generated::is_of))]
pub fn script_of(alloc: Global, seed: u64, count: u32, app: u32) -> Result<Script, NoMemory>
    ensures { IfOk result (λ script. script ≡ script_of seed count app) }
{
    let mut x = seed;
    let mut script = Script::new(alloc);
    for at in 0..count {
        if at >= 12 {
            x = stepped(x);
        }
        if at % 4 == app {
            script.push(command_by(alloc, at, x)?)?;
        }
    }
    Ok(script)
}
