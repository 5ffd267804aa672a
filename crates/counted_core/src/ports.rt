//! Ports by their paths: what is published, and where a connect goes.

ghost use Rattle.std.specs.Prelude.{◌≡◌, ℕ, slice_get, ◌<◌, true, false, IfNone, IfSome, Some};
ghost use Rattle.std.specs.List.{position_or_len};
ghost use Rattle.std.specs.Option.{is_some, option_map};
ghost use Rattle.core_changes.specs.Looks.{look_of_way};
ghost use Rattle.counted_core.specs.Paths.{has_path_at, id_of};
ghost use Rattle.kernel_types.specs.Applications.{has_start_port};
ghost use Rattle.kernel_types.specs.Connects.{app_place, peer_of, peer_uuid, uuid_of, way_by_app, way_of};
ghost use Rattle.kernel_types.specs.Objects.{end_of, object_of, published};

use crate::apps::AppState;
use crate::counts::CountedCore;
use crate::sweep::key_of;
use core_changes::looks::WayLook;
use kernel_values::{Body, Bytes, Connector};
use object_store::Store;

fn has_path_at(store: &Store<Body>, at: u64, path: &[u8]) -> bool
    ensures { result ≡ has_path_at path.now store.now.items at }
{
    match store.get(key_of(at)) {
        Some(Body::Port(port)) => port.path.as_slice() == path,
        _ => false,
    }
}

/// The least number of a port with this path.
fn first_with_path(store: &Store<Body>, path: &[u8]) -> Option<u64>
    ensures some { IfSome result (λ at. has_path_at path.now store.now.items at ≡ true) }
    ensures least { IfSome result (λ at. (o : ℕ) → o < at → has_path_at path.now store.now.items o ≡ false) }
    ensures none { IfNone result ((o : ℕ) → o < store.now.next → has_path_at path.now store.now.items o ≡ false) }
{
    for at in 0..store.next() {
        if has_path_at(store, at, path) {
            return Some(at);
        }
    }
    None
}

/// The place of the application that has this start port; past the end where none has it.
fn place_of_server(apps: &[AppState], path: &[u8]) -> usize
    ensures { result ≡ position_or_len (has_start_port path.now) apps.now }
{
    for (at, app) in apps.iter().enumerate() {
        if app.has_start_port(path) {
            return at;
        }
    }
    apps.len()
}

fn way_by_app(app: &AppState, path: &[u8]) -> WayLook
    ensures { (place : ℕ) → result ≡ look_of_way (way_by_app path.now place (Some app.now)) }
{
    match app.start_port(path) {
        Some(port) if app.may_serve() => WayLook::ToStart(port.flags),
        _ => WayLook::ToNothing,
    }
}

impl CountedCore {
    /// The number of the port that is published under the path.
    pub(crate) fn find_published(&self, path: &[u8]) -> Option<u64>
        ensures id { result ≡ option_map id_of (published self.now.objects path.now) }
        ensures object { IfSome result (λ id. object_of self.now.objects id ≡ published self.now.objects path.now) }
    {
        self.store.sound();
        first_with_path(&self.store, path)
    }

    /// Whether a port is published under the path.
    pub fn is_published(&self, path: &Bytes) -> bool
        ensures { result ≡ is_some (published self.now.objects path.now) }
    {
        self.find_published(path.as_slice()).is_some()
    }

    fn way_to_server(&self, path: &[u8]) -> WayLook
        ensures { result ≡ look_of_way (way_by_app path.now (app_place path.now self.now) (slice_get self.now.apps (app_place path.now self.now))) }
    {
        let place = place_of_server(self.apps.as_slice(), path);
        match self.apps.get(place) {
            Some(app) => way_by_app(app, path),
            None => WayLook::ToNothing,
        }
    }

    /// Where a connect to the path goes.
    pub fn way(&self, path: &Bytes) -> WayLook
        ensures { result ≡ look_of_way (way_of self.now path.now) }
    {
        let Some(id) = self.find_published(path.as_slice()) else {
            return self.way_to_server(path.as_slice());
        };
        match self.find_port(id) {
            Some(port) => WayLook::ToPort(port.flags),
            None => WayLook::ToNothing,
        }
    }

    fn uuid_of(&self, client: Option<Connector>) -> u128
        ensures { result ≡ uuid_of self.now client }
    {
        match client {
            Some(Connector::App(app)) => match self.apps.get(app as usize) {
                Some(application) => application.uuid(),
                None => 0,
            },
            _ => 0,
        }
    }

    fn peer_uuid(&self, client: Option<u64>) -> u128
        ensures { result ≡ peer_uuid self.now client }
    {
        let Some(id) = client else {
            return 0;
        };
        match self.find_end(id) {
            Some(end) => self.uuid_of(end.client),
            None => 0,
        }
    }

    /// The UUID of who made the connection of a server end; the normal world's is 0.
    pub fn maker_uuid(&self, server: u64) -> u128
        ensures { result ≡ peer_uuid self.now (peer_of (end_of self.now.objects server)) }
    {
        match self.find_end(server) {
            Some(end) => self.peer_uuid(end.peer),
            None => 0,
        }
    }
}
