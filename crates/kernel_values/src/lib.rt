//! The plain values that every crate of the kernel speaks of: lists, flags, error numbers, calls and
//! their answers, the entries of a history, scenes, and the state of the model.
//! Nothing here says what a call does: that is `kernel_types`, which passes these types on.
#![tactic(auto)]

pub mod call;
pub mod copied;
pub mod entry;
pub mod errno;
pub mod flags;
pub mod ids;
pub mod items;
pub mod recorded;
pub mod reply;
pub mod scene;
pub mod script;
pub mod state;
pub mod world;

pub use call::{Call, CallKind, Timeout};
pub use copied::Copied;
pub use entry::{ActorStatus, EndFacts, EndSeq, Entry, Event, Seqs};
pub use errno::Errno;
pub use flags::{ConnectFlags, Events, MemFlags, PortFlags};
pub use ids::{ActorId, AppId, Handle, INVALID_IPC_HANDLE, ObjId};
pub use items::{Bytes, Handles, Items, NoMemory};
pub use recorded::Recorded;
pub use reply::{Answer, BreakCause, DeviceReply, IgnoreCause, Reply};
pub use scene::{
    App, AppList, Client, ClientList, Manifest, Scene, ScriptList, StartPort, StartPortList, Turn,
    TurnList,
};
pub use script::{Command, RegList, RegRead, RegReadList, Script};
pub use state::{
    Activity, Application, Body, ChannelEnd, Connector, CoreState, EndState, HandleSet, Member,
    MemoryRef, Message, Object, Port, State, TableEntry, Thread, Wait, WaitOn,
};
pub use world::{
    BridgeEntry, ClientActivity, ClientState, ClientWait, ClientWaitOn, Connection,
    ConnectionStatus, Device, Driver, Refusal, World,
};
