//! Pending server ends.

ghost use Rattle.std.specs.Prelude.{◌≡◌, ◌∷◌, false, true, IfOk, OnErr, OnOk, Some};
ghost use Rattle.core_changes.specs.Changes.{accepting};
ghost use Rattle.core_changes.specs.Looks.{pending_in};
ghost use Rattle.counted_core.specs.Accepting.{listing};
ghost use Rattle.counted_core.specs.Held.{changed_if};
ghost use Rattle.kernel_types.specs.Connects.{accept_client, peer_of};
ghost use Rattle.kernel_types.specs.Objects.{end_of, is_there, on_port, port_changed, port_of};
ghost use Rattle.kernel_types.specs.Tables.{free_handle, install, is_full, table_of};

use crate::counts::CountedCore;
use crate::ends::EndChange;
use crate::room::reserve_names;
use crate::sweep::key_of;
use kernel_values::{Body, Items, NoMemory};
use object_store::Store;

fn list_in(body: &mut Body, pending: Items<u64>)
    ensures { body.new ≡ on_port (listing pending) body.old }
{
    if let Body::Port(port) = body {
        port.pending = pending;
    }
}

/// The port lists these pending server ends.
fn set_pending(store: &mut Store<Body>, port: u64, pending: Items<u64>)
    ensures items { store.new.items ≡ changed_if (on_port (listing pending)) (Some port) store.old.items }
    ensures next { store.new.next ≡ store.old.next }
{
    store.sound();
    let Some(body) = store.get_mut(key_of(port)) else {
        return;
    };
    list_in(body, pending);
}

impl CountedCore {
    pub(crate) fn peer_of(&self, end: u64) -> Option<u64>
        ensures { result ≡ peer_of (end_of self.now.objects end) }
    {
        match self.find_end(end) {
            Some(end) => end.peer,
            None => None,
        }
    }

    /// The first pending server end of the port is pending no more.
    pub(crate) fn take_first(&mut self, port: u64, server: u64, rest: Items<u64>)
        requires { pending_in (port_of self.old.objects port) ≡ server ∷ rest }
        ensures { self.new ≡ port_changed (listing rest) port self.old }
    {
        self.store.sound();
        set_pending(&mut self.store, port, rest);
        self.store.unname(key_of(server));
    }

    /// The object gets the least free number of the application's table.
    fn hand_out(&mut self, app: u32, object: u64) -> Result<u32, NoMemory>
        requires there { is_there self.old.objects object ≡ true }
        requires room { is_full (table_of self.old app) ≡ false }
        ensures ok { IfOk result (λ handle. handle ≡ free_handle (table_of self.old app)) }
        ensures installed { OnOk result (self.new ≡ install app object self.old) }
        ensures err { OnErr result (self.new ≡ self.old) }
    {
        self.store.sound();
        reserve_names(&self.store, &self.threads, 1)?;
        let Some(state) = self.apps.get_mut(app as usize) else {
            return Err(NoMemory);
        };
        let key = key_of(object);
        let Ok(handle) = state.install(key) else {
            return Err(NoMemory);
        };
        self.store.name(key);
        Ok(handle)
    }

    fn accept_client(&mut self, client: Option<u64>)
        ensures { self.new ≡ accept_client client self.old }
    {
        if let Some(client) = client {
            self.change_end(client, EndChange::Accept { ready: true });
        }
    }

    /// The first pending server end of a port is accepted. Refused where nothing is pending or names run out.
    pub fn accept(&mut self, app: u32, port: u64) -> Result<u32, NoMemory>
        requires room { is_full (table_of self.old app) ≡ false }
        ensures ok { IfOk result (λ handle. handle ≡ free_handle (table_of self.old app)) }
        ensures accepted { OnOk result (self.new ≡ accepting app port (pending_in (port_of self.old.objects port)) self.old) }
        ensures err { OnErr result (self.new ≡ self.old) }
    {
        let Some(found) = self.find_port(port) else {
            return Err(NoMemory);
        };
        let [server, rest @ ..] = found.pending.as_slice() else {
            return Err(NoMemory);
        };
        let server = *server;
        let rest = Items::from_slice(self.allocator(), rest)?;
        let client = self.peer_of(server);
        self.sound_ports();
        let handle = self.hand_out(app, server)?;
        self.take_first(port, server, rest);
        self.change_end(server, EndChange::Accept { ready: false });
        self.accept_client(client);
        Ok(handle)
    }
}
