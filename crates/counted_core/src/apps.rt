//! Applications, with handle tables that keep keys.

ghost use Rattle.std.specs.Prelude.{◌≡◌, ◌+◌, ◌++◌, ◌<◌, ◌≤◌, false, length, vec_capacity, IfOk, OnErr, OnOk, Some};
ghost use Rattle.std.specs.Option.{option_map};
ghost use Rattle.handle_table.specs.Places.{slot_entry};
ghost use Rattle.handle_table.specs.Tables.{IsTableFrom};
ghost use Rattle.kernel_types.specs.Messages.{all_handles, all_installed};
ghost use Rattle.kernel_types.specs.Tables.{entry_at, free_handle, installed, is_full, with_cookie, without};

use crate::sweep::key_of;
use handle_table::{Full, Slot, Table};
use kernel_values::{Manifest, StartPort};
use object_store::ObjKey;
use std::marker::Model;

/// An application with its table. Contracts see the application of the model.
#[derive(Drop)]
pub struct AppState {
    manifest: Manifest,
    starts: u32,
    running: bool,
    table: Table,
    last: Option<u32>,
}

impl Model for AppState {
    ghost use Rattle.kernel_values.specs.declared.state.Application.{Application};

    ghost Value = { Application };

    ghost view = { λ a. record { manifest = a.manifest; starts = a.starts; running = a.running; table = a.table; last = a.last } };
}

impl AppState {
    /// What the number stands for, where it is in use.
    pub fn get(&self, handle: u32) -> Option<Slot>
        ensures { option_map (slot_entry handle) result ≡ entry_at self.now.table handle }
    {
        self.table.get(handle)
    }

    /// Takes the number out of use.
    pub fn take(&mut self, handle: u32) -> Option<Slot>
        ensures slot { option_map (slot_entry handle) result ≡ entry_at self.old.table handle }
        ensures rest { self.new ≡ record self.old { table = without self.old.table handle } }
    {
        self.table.take(handle)
    }

    /// Gives the object the least free number.
    pub fn install(&mut self, key: ObjKey) -> Result<u32, Full>
        ensures full { OnErr result (length self.old.table ≡ 64) }
        ensures room { OnOk result (length self.old.table < 64) }
        ensures number { IfOk result (λ handle. handle ≡ free_handle self.old.table) }
        ensures entry { OnOk result (self.new ≡ record self.old { table = installed self.old.table key.serial }) }
        ensures same { OnErr result (self.new ≡ self.old) }
    {
        self.table.install(key)
    }

    /// Gives the object the least free number, where one is left.
    #[tactic(auto, unfolding(kernel_types::specs::Tables::is_full))]
    pub fn give(&mut self, key: ObjKey) -> u32
        requires { is_full self.old.table ≡ false }
        ensures handle { result ≡ free_handle self.old.table }
        ensures entry { self.new ≡ record self.old { table = installed self.old.table key.serial } }
    {
        match self.table.install(key) {
            Ok(handle) => handle,
            Err(Full) => 0,
        }
    }

    /// Gives each object the least free number that is left. The numbers go last in the list, which has room for them.
    #[tactic(auto, unfolding(kernel_types::specs::Tables::is_full))]
    pub fn give_all(&mut self, objects: &[u64], handles: &mut Vec<u32>)
        requires room { length self.old.table + length objects.now ≤ 64 }
        requires list { length handles.old.items + length objects.now ≤ vec_capacity handles.old }
        ensures table { self.new ≡ record self.old { table = all_installed self.old.table objects.now } }
        ensures handles { handles.new.items ≡ handles.old.items ++ all_handles self.old.table objects.now }
    {
        match objects {
            [] => {}
            [object, rest @ ..] => {
                let handle = self.give(key_of(*object));
                handles.push_reserved(handle);
                self.give_all(rest, handles);
            }
        }
    }

    /// How many numbers are free.
    pub fn free(&self) -> u32
        ensures { result + length self.now.table ≡ 64 }
    {
        self.table.free()
    }

    /// Keeps another cookie with the number, where it is in use.
    pub fn set_cookie(&mut self, handle: u32, cookie: u64)
        ensures { self.new ≡ record self.old { table = with_cookie self.old.table handle cookie } }
    {
        self.table.set_cookie(handle, cookie);
    }

    /// Notes the number that a wait for any reported last.
    pub fn set_last(&mut self, handle: u32)
        ensures { self.new ≡ record self.old { last = Some handle } }
    {
        self.last = Some(handle);
    }

    /// What holds of its table: the numbers rise and are below 64. It does nothing.
    pub fn sound(&self)
        ensures { IsTableFrom 0 self.now.table }
    {
        self.table.sound();
    }
}

// What a connect looks for.
impl AppState {
    ghost use Rattle.std.specs.Option.{option_copied};
    ghost use Rattle.kernel_types.specs.Applications.{has_start_port};
    ghost use Rattle.kernel_types.specs.Connects.{may_serve, start_flags, uuid_of_app};

    /// Whether it has this start port.
    pub fn has_start_port(&self, path: &[u8]) -> bool
        ensures { result ≡ has_start_port path.now self.now }
    {
        for port in self.manifest.ports.as_slice() {
            if port.path.as_slice() == path {
                return true;
            }
        }
        false
    }

    /// The start port of this path, where it has one.
    pub fn start_port(&self, path: &[u8]) -> Option<&StartPort>
        ensures { option_copied result ≡ start_flags path.now self.now }
    {
        for port in self.manifest.ports.as_slice() {
            if port.path.as_slice() == path {
                return Some(port);
            }
        }
        None
    }

    /// Whether it runs or has a start left.
    pub fn may_serve(&self) -> bool
        ensures { result ≡ may_serve self.now }
    {
        self.running || self.starts < 4
    }

    /// Its UUID.
    pub fn uuid(&self) -> u128
        ensures { result ≡ uuid_of_app (Some self.now) }
    {
        self.manifest.uuid
    }
}
