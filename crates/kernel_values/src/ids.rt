//! The numbers that name applications, actors, objects and table entries.

/// An application's number: its place in the scene, from 0.
#[derive(Clone, Copy, PartialEq, Eq, Debug)]
pub struct AppId(pub u32);

/// An actor's number: the threads of application 0 in order, those of application 1, and so on, then
/// the clients of the normal world.
#[derive(Clone, Copy, PartialEq, Eq, Debug)]
pub struct ActorId(pub u32);

/// An object's number. Numbers are given in order of creation, from 0, and each once.
#[derive(Clone, Copy, PartialEq, Eq, Debug)]
pub struct ObjId(pub u64);

/// A number of an application's handle table, from 0 to 63.
pub type Handle = u32;

/// The number that no table entry has; an empty register reads as this.
pub const INVALID_IPC_HANDLE: u32 = 4_294_967_295;
