//! Scenes: the applications and clients of a run with their scripts, and a list of turns.

use crate::copied::Copied;
use crate::flags::PortFlags;
use crate::items::{Bytes, Items, NoMemory};
use crate::script::Script;
use std::marker::Model;

pub type AppList = Items<App>;

pub type ClientList = Items<Client>;

pub type ScriptList = Items<Script>;

pub type StartPortList = Items<StartPort>;

pub type TurnList = Items<Turn>;

/// A port for which a connect starts its application.
#[derive(Debug, Drop)]
pub struct StartPort {
    pub path: Bytes,
    pub flags: PortFlags,
}

/// What an application is registered with: its UUID (RFC 9562), whether it starts again when it has
/// ended, whether its first start waits for a connect, and its start ports.
#[derive(Debug, Drop)]
pub struct Manifest {
    pub uuid: u128,
    pub restart: bool,
    pub deferred: bool,
    pub ports: StartPortList,
}

/// An application, with the scripts of its threads.
#[derive(Debug, Drop)]
pub struct App {
    pub name: Bytes,
    pub manifest: Manifest,
    pub threads: ScriptList,
}

/// A client of the normal world, with its script.
#[derive(Debug, Drop)]
pub struct Client {
    pub name: Bytes,
    pub script: Script,
}

/// One turn of a replay.
#[derive(Clone, Copy, PartialEq, Eq, Debug)]
pub enum Turn {
    /// The actor with this number takes its next event.
    Actor(u32),
    Device,
    Idle,
}

/// The applications and clients of a run, the size of the two queues to the normal world, and the
/// turns of a replay. It keeps every limit on what a scene may hold.
#[derive(Debug, Drop)]
pub struct Scene {
    pub apps: AppList,
    pub clients: ClientList,
    pub queue: u32,
    pub turns: TurnList,
}

impl Model for Scene {
    ghost use Rattle.kernel_values.specs.SceneLaw.{SceneValue, IsLawfulScene};

    ghost Value = { SceneValue };

    ghost view = { λ s. record { apps = s.apps; clients = s.clients; queue = s.queue; turns = s.turns } };

    ghost invariant = { λ s. IsLawfulScene (record { apps = s.apps; clients = s.clients; queue = s.queue; turns = s.turns }) };
}

impl Copied for StartPort {
    fn copied(&self) -> Result<StartPort, NoMemory> {
        Ok(StartPort {
            path: self.path.copied()?,
            flags: self.flags,
        })
    }
}

impl Copied for Manifest {
    fn copied(&self) -> Result<Manifest, NoMemory> {
        Ok(Manifest {
            uuid: self.uuid,
            restart: self.restart,
            deferred: self.deferred,
            ports: self.ports.copied()?,
        })
    }
}
