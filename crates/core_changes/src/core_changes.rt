//! The trait of cores: one state of the model, what a call looks at, and the small changes that calls are made of.

ghost use Rattle.std.specs.Prelude.{◌≡◌, ◌≤◌, ◌<◌, [], true, false, drop, length, min, slice_get, take, IfOk, OnErr, OnOk, Some};
ghost use Rattle.std.specs.List.{find, list_all, list_any};
ghost use Rattle.std.specs.Option.{is_some, option_map};
ghost use Rattle.kernel_types.specs.Applications.{application_ended, is_elsewhere_or_over, thread_ended};
ghost use Rattle.kernel_types.specs.Bridge.{is_full_peer, unbridged};
ghost use Rattle.kernel_types.specs.Connects.{peer_of, peer_uuid, way_of};
ghost use Rattle.kernel_types.specs.CoreStep.{core_idle};
ghost use Rattle.kernel_types.specs.Events.{events_of, is_filled, is_ready_member};
ghost use Rattle.kernel_types.specs.Memories.{is_lawful_size, new_memory, written};
ghost use Rattle.kernel_types.specs.Messages.{all_handles, all_installed, entry_object, free_id, is_in_table, is_opened_as, part_objects, with_message, with_opened, without_opened};
ghost use Rattle.kernel_types.specs.Objects.{added, end_changed, end_of, is_there, map_at, memory_changed, memory_of, port_of, published, set_changed, set_of};
ghost use Rattle.kernel_types.specs.Ports.{is_lawful_port, new_port, publish};
ghost use Rattle.kernel_types.specs.Reports.{has_events, in_turn, last_of, with_last, with_last_reported};
ghost use Rattle.kernel_types.specs.Sets.{chain_through, is_label_in, is_or_contains, new_member, remasked, with_member, without_label};
ghost use Rattle.kernel_types.specs.Tables.{entry_at, free_handle, has_room, install, is_full, remove_entry, table_of, with_cookie, with_table};
ghost use Rattle.kernel_types.specs.Threads.{running_activity, with_activity};
ghost use Rattle.kernel_types.specs.Waits.{can_have_events};
ghost use Rattle.kernel_values.specs.declared.state.Body.TheVariants as body;
ghost use Rattle.kernel_values.specs.declared.state.CoreState.{CoreState};
ghost use Rattle.kernel_values.specs.declared.state.WaitOn.TheVariants as wait_on;
ghost use Rattle.core_changes.specs.Changes.{accepting, awaits, bridge_connecting, connecting, is_within, marked, waited_entry};
ghost use Rattle.core_changes.specs.Looks.{bytes_in, look_of_end, look_of_memory, look_of_message, look_of_port, look_of_way, members_in, message_bytes, message_parts, messages_in, pending_in};

use crate::looks::{EndLook, MemoryLook, MessageLook, PortLook, WayLook};
use kernel_values::{
    Bytes, Events, Handles, MemFlags, Member, NoMemory, PortFlags, TableEntry, Thread,
};
use std::alloc::Global;

/// A mark of an end, which leaves its messages, its state and its peer.
#[derive(Clone, Copy, PartialEq, Eq, Debug)]
pub enum Mark {
    /// A send found the peer full.
    Blocked,
    /// The peer has room again.
    Unblocked,
    /// The decision on its connect was taken.
    Decided,
    /// These events were reported.
    Reported(Events),
    /// The normal world broke.
    Failed,
}

/// A core stands for one state of the model, also within a call. A change that answers nothing takes no memory. One
/// that is refused leaves the state as it was; it is refused where memory runs out, and for nothing else.
pub trait CoreChanges {
    /// The state that the core stands for.
    ghost state: { Self → CoreState };

    fn allocator(&self) -> Global;

    // What a call looks at.

    /// The clock.
    fn clock(&self) -> u64
        ensures { result ≡ (state self.now).clock };

    /// All threads.
    fn threads(&self) -> &[Thread]
        ensures { result.now ≡ (state self.now).threads };

    /// The thread of this number.
    fn thread(&self, thread: u32) -> Option<Thread>
        ensures { result ≡ slice_get (state self.now).threads thread };

    /// Whether every thread of the application is Ended or was never started.
    fn is_over(&self, app: u32) -> bool
        ensures { result ≡ list_all (is_elsewhere_or_over app) (state self.now).threads };

    /// What a number of the application's table stands for.
    fn entry(&self, app: u32, handle: u32) -> Option<TableEntry>
        ensures { result ≡ entry_at (table_of (state self.now) app) handle };

    /// Whether the application's table has no number left.
    fn is_full(&self, app: u32) -> bool
        ensures { result ≡ is_full (table_of (state self.now) app) };

    /// Whether the application's table has so many numbers left.
    fn has_room(&self, app: u32, count: usize) -> bool
        ensures { result ≡ has_room count (table_of (state self.now) app) };

    /// Whether there is an object with this number.
    fn is_there(&self, id: u64) -> bool
        ensures { result ≡ is_there (state self.now).objects id };

    /// The channel end of this number.
    fn end(&self, id: u64) -> Option<EndLook>
        ensures { result ≡ option_map look_of_end (end_of (state self.now).objects id) };

    /// The oldest filled message of an end.
    fn first_filled(&self, id: u64) -> Option<MessageLook>
        ensures { result ≡ option_map look_of_message (find is_filled (messages_in (end_of (state self.now).objects id))) };

    /// The message of an end that is opened under this id.
    fn opened(&self, id: u64, number: u32) -> Option<MessageLook>
        ensures { result ≡ option_map look_of_message (find (is_opened_as number) (messages_in (end_of (state self.now).objects id))) };

    /// The least id from 1 that no opened message of the end has. Out of memory, where an end holds more messages than ids can tell.
    fn free_id(&self, id: u64) -> Result<u32, NoMemory>
        ensures { IfOk result (λ number. number ≡ free_id (messages_in (end_of (state self.now).objects id))) };

    /// At most `room` bytes of the message that is opened under this id, from `offset` on.
    fn message_bytes(&self, id: u64, number: u32, offset: u32, room: u32) -> Result<Bytes, NoMemory>
        ensures { IfOk result (λ bytes. bytes ≡ take room (drop offset (message_bytes (find (is_opened_as number) (messages_in (end_of (state self.now).objects id)))))) };

    /// The bytes of the oldest filled message of an end.
    fn filled_bytes(&self, id: u64) -> Result<Bytes, NoMemory>
        ensures { IfOk result (λ bytes. bytes ≡ message_bytes (find is_filled (messages_in (end_of (state self.now).objects id)))) };

    /// The port of this number.
    fn port(&self, id: u64) -> Option<PortLook>
        ensures { result ≡ option_map look_of_port (port_of (state self.now).objects id) };

    /// Whether a port is published under the path.
    fn is_published(&self, path: &Bytes) -> bool
        ensures { result ≡ is_some (published (state self.now).objects path.now) };

    /// Where a connect to the path goes.
    fn way(&self, path: &Bytes) -> WayLook
        ensures { result ≡ look_of_way (way_of (state self.now) path.now) };

    /// The UUID of who made the connection of a server end; the normal world's is 0.
    fn maker_uuid(&self, server: u64) -> u128
        ensures { result ≡ peer_uuid (state self.now) (peer_of (end_of (state self.now).objects server)) };

    /// The memory reference of this number.
    fn memory(&self, id: u64) -> Option<MemoryLook>
        ensures { result ≡ option_map look_of_memory (memory_of (state self.now).objects id) };

    /// `len` bytes of a memory reference, from `offset` on.
    fn memory_bytes(&self, id: u64, offset: u32, len: u32) -> Result<Bytes, NoMemory>
        requires { is_within (memory_of (state self.now).objects id) offset len ≡ true }
        ensures { IfOk result (λ bytes. bytes ≡ take len (drop offset (bytes_in (memory_of (state self.now).objects id)))) };

    /// The number of members of a set.
    fn member_count(&self, id: u64) -> Option<usize>
        ensures { result ≡ option_map (λ set. length set.members) (set_of (state self.now).objects id) };

    /// Whether a member of the set has this label.
    fn has_label(&self, id: u64, label: u32) -> bool
        ensures { result ≡ is_label_in (members_in (set_of (state self.now).objects id)) label };

    /// Whether `inner` is `outer` itself, or is in it at any depth.
    fn is_or_contains(&self, outer: u64, inner: u64) -> Result<bool, NoMemory>
        ensures { IfOk result (λ found. found ≡ is_or_contains (state self.now).objects outer inner) };

    /// The number of sets on the longest chain through a membership of the object in the set.
    fn chain_through(&self, set: u64, object: u64) -> u32
        ensures { result ≡ chain_through (state self.now).objects set object };

    /// The events of an object.
    fn events(&self, id: u64) -> u32
        ensures { result ≡ events_of (state self.now).objects id };

    /// The first member of a set that has an event of its mask.
    fn ready_member(&self, id: u64) -> Option<Member>
        ensures { result ≡ find (is_ready_member (events_of (state self.now).objects)) (members_in (set_of (state self.now).objects id)) };

    /// The entry that a wait for any of the application reports: the first with an event, after the number last reported, and then from 0 on.
    fn entry_in_turn(&self, app: u32) -> Option<TableEntry>
        ensures { result ≡ find (has_events (state self.now).objects) (in_turn (last_of (slice_get (state self.now).apps app)) (table_of (state self.now) app)) };

    /// Whether an entry of the application's table names a port, an end or a set.
    fn can_have_events(&self, app: u32) -> bool
        ensures { result ≡ list_any (can_have_events (state self.now).objects) (table_of (state self.now) app) };

    // Tables.

    /// Another cookie is kept with a number.
    fn set_cookie(&mut self, app: u32, handle: u32, cookie: u64)
        ensures { state self.new ≡ with_table (λ table. with_cookie table handle cookie) app (state self.old) };

    /// A number goes from the table.
    fn remove_entry(&mut self, app: u32, handle: u32)
        ensures { state self.new ≡ remove_entry app handle (state self.old) };

    /// The object of a number gets one more number, which is the answer.
    fn copy_entry(&mut self, app: u32, handle: u32) -> Result<u32, NoMemory>
        requires held { is_in_table (table_of (state self.old) app) handle ≡ true }
        requires room { is_full (table_of (state self.old) app) ≡ false }
        ensures ok { IfOk result (λ copy. copy ≡ free_handle (table_of (state self.old) app)) }
        ensures copied { OnOk result (state self.new ≡ install app (entry_object (entry_at (table_of (state self.old) app) handle)) (state self.old)) }
        ensures err { OnErr result (state self.new ≡ state self.old) };

    /// The first objects of a message that is opened under this id get numbers of the table, which are the answer.
    fn install_parts(
        &mut self,
        app: u32,
        id: u64,
        number: u32,
        count: u32,
    ) -> Result<Handles, NoMemory>
        requires room { has_room (min count (length (message_parts (find (is_opened_as number) (messages_in (end_of (state self.old).objects id)))))) (table_of (state self.old) app) ≡ true }
        ensures ok { IfOk result (λ handles. handles ≡ all_handles (table_of (state self.old) app) (take count (message_parts (find (is_opened_as number) (messages_in (end_of (state self.old).objects id)))))) }
        ensures installed { OnOk result (state self.new ≡ with_table (λ table. all_installed table (take count (message_parts (find (is_opened_as number) (messages_in (end_of (state self.old).objects id)))))) app (state self.old)) }
        ensures err { OnErr result (state self.new ≡ state self.old) };

    /// The number that a wait for any reported last is noted.
    fn set_last(&mut self, app: u32, handle: u32)
        ensures { state self.new ≡ with_last_reported app handle (state self.old) };

    // New objects, each with a number of the application's table, which is the answer.

    /// A memory reference.
    fn make_memory(&mut self, app: u32, size: u32, flags: MemFlags) -> Result<u32, NoMemory>
        requires size { is_lawful_size size ≡ true }
        requires room { is_full (table_of (state self.old) app) ≡ false }
        ensures ok { IfOk result (λ handle. handle ≡ free_handle (table_of (state self.old) app)) }
        ensures made { OnOk result (state self.new ≡ install app (state self.old).next (added (body.Memory (new_memory size flags)) (state self.old))) }
        ensures err { OnErr result (state self.new ≡ state self.old) };

    /// An empty set.
    fn make_set(&mut self, app: u32) -> Result<u32, NoMemory>
        requires room { is_full (table_of (state self.old) app) ≡ false }
        ensures ok { IfOk result (λ handle. handle ≡ free_handle (table_of (state self.old) app)) }
        ensures made { OnOk result (state self.new ≡ install app (state self.old).next (added (body.Set (record { members = [] })) (state self.old))) }
        ensures err { OnErr result (state self.new ≡ state self.old) };

    /// A port, which decides the ends that wait for its path.
    fn publish(
        &mut self,
        app: u32,
        path: &Bytes,
        bufs: u32,
        size: u32,
        flags: PortFlags,
    ) -> Result<u32, NoMemory>
        requires lawful { is_lawful_port path.now bufs size ≡ true }
        requires free { is_some (published (state self.old).objects path.now) ≡ false }
        requires room { is_full (table_of (state self.old) app) ≡ false }
        ensures ok { IfOk result (λ handle. handle ≡ free_handle (table_of (state self.old) app)) }
        ensures made { OnOk result (state self.new ≡ install app (state self.old).next (publish (new_port path.now bufs size flags) (state self.old))) }
        ensures err { OnErr result (state self.new ≡ state self.old) };

    /// A client end of a connect to the path, and what its way asks besides; the thread, where there is one, waits for the decision.
    fn connect(&mut self, app: u32, path: &Bytes, waiter: Option<u32>) -> Result<u32, NoMemory>
        requires room { is_full (table_of (state self.old) app) ≡ false }
        ensures ok { IfOk result (λ handle. handle ≡ free_handle (table_of (state self.old) app)) }
        ensures made { OnOk result (state self.new ≡ connecting (way_of (state self.old) path.now) app path.now waiter (state self.old)) }
        ensures err { OnErr result (state self.new ≡ state self.old) };

    /// The first pending server end of a port is accepted.
    fn accept(&mut self, app: u32, port: u64) -> Result<u32, NoMemory>
        requires room { is_full (table_of (state self.old) app) ≡ false }
        ensures ok { IfOk result (λ handle. handle ≡ free_handle (table_of (state self.old) app)) }
        ensures accepted { OnOk result (state self.new ≡ accepting app port (pending_in (port_of (state self.old).objects port)) (state self.old)) }
        ensures err { OnErr result (state self.new ≡ state self.old) };

    // Ends and their messages.

    /// An end is marked.
    fn mark_end(&mut self, id: u64, mark: Mark)
        ensures { state self.new ≡ end_changed (marked mark) id (state self.old) };

    /// A message with the objects of these numbers of the application's table comes to an end that has a slot left.
    fn deliver(&mut self, to: u64, bytes: &Bytes, app: u32, parts: &[u32]) -> Result<(), NoMemory>
        requires there { is_some (end_of (state self.old).objects to) ≡ true }
        requires slot { is_full_peer (end_of (state self.old).objects to) ≡ false }
        requires held { list_all (is_in_table (table_of (state self.old) app)) parts.now ≡ true }
        requires few { length parts.now ≤ 8 }
        ensures ok { OnOk result (state self.new ≡ end_changed (with_message bytes.now (part_objects (table_of (state self.old) app) parts.now)) to (state self.old)) }
        ensures err { OnErr result (state self.new ≡ state self.old) };

    /// The oldest filled message of an end is opened under the id.
    fn open_message(&mut self, id: u64, number: u32)
        ensures { state self.new ≡ end_changed (with_opened number) id (state self.old) };

    /// The message of an end that is opened under the id is retired.
    fn retire_message(&mut self, id: u64, number: u32)
        ensures { state self.new ≡ end_changed (without_opened number) id (state self.old) };

    // Memory references and sets.

    /// Bytes of a memory reference are overwritten from `offset` on.
    fn write_memory(&mut self, id: u64, offset: u32, bytes: &Bytes) -> Result<(), NoMemory>
        requires { is_within (memory_of (state self.old).objects id) offset (length bytes.now) ≡ true }
        ensures ok { OnOk result (state self.new ≡ memory_changed (written offset bytes.now) id (state self.old)) }
        ensures err { OnErr result (state self.new ≡ state self.old) };

    /// The object of a number of the application's table becomes a member of a set, with the number as its label.
    fn add_member(
        &mut self,
        id: u64,
        app: u32,
        handle: u32,
        mask: Events,
        cookie: u64,
    ) -> Result<(), NoMemory>
        requires held { is_in_table (table_of (state self.old) app) handle ≡ true }
        requires few { length (members_in (set_of (state self.old).objects id)) < 64 }
        ensures ok { OnOk result (state self.new ≡ set_changed (with_member (new_member handle (entry_object (entry_at (table_of (state self.old) app) handle)) mask cookie)) id (state self.old)) }
        ensures err { OnErr result (state self.new ≡ state self.old) };

    /// The member of a set under this label goes.
    fn remove_member(&mut self, id: u64, label: u32)
        ensures { state self.new ≡ set_changed (without_label label) id (state self.old) };

    /// The member of a set under this label gets another mask and cookie.
    fn remask_member(&mut self, id: u64, label: u32, mask: Events, cookie: u64)
        ensures { state self.new ≡ set_changed (remasked label mask cookie) id (state self.old) };

    /// The first ready member of a set goes last.
    fn put_last(&mut self, id: u64, member: Member)
        requires { find (is_ready_member (events_of (state self.old).objects)) (members_in (set_of (state self.old).objects id)) ≡ Some member }
        ensures { state self.new ≡ set_changed (with_last member) id (state self.old) };

    // Threads, applications and time.

    /// The thread, where it runs, waits for an event of a number of the application's table, until the deadline where there is one.
    fn await_entry(&mut self, thread: u32, app: u32, handle: u32, deadline: Option<u64>)
        requires { is_in_table (table_of (state self.old) app) handle ≡ true }
        ensures { state self.new ≡ awaits thread (waited_entry (entry_at (table_of (state self.old) app) handle)) deadline (state self.old) };

    /// The thread, where it runs, waits for an event of any number of its application's table, until the deadline where there is one.
    fn await_any(&mut self, thread: u32, deadline: Option<u64>)
        ensures { state self.new ≡ awaits thread wait_on.Any deadline (state self.old) };

    /// The thread, where it waits, runs again.
    fn run_again(&mut self, thread: u32)
        ensures { state self.new ≡ with_activity running_activity thread (state self.old) };

    /// The thread ends.
    fn end_thread(&mut self, thread: u32)
        ensures { state self.new ≡ record (state self.old) { threads = map_at thread_ended (state self.old).threads thread } };

    /// The application ends, and starts again where its manifest says so and a start is left.
    fn end_app(&mut self, app: u32)
        ensures { state self.new ≡ application_ended app (state self.old) };

    /// The clock moves to the deadline; without one, every wait is cancelled.
    fn pass_time(&mut self, deadline: Option<u64>)
        ensures { state self.new ≡ core_idle deadline (state self.old) };

    // The ends that the bridge names.

    /// A client end of a connect of the normal world, which the bridge names, and what its way asks besides. The end gets the
    /// next number, which is the answer.
    fn bridge_connect(&mut self, path: &Bytes) -> Result<u64, NoMemory>
        ensures ok { IfOk result (λ end. end ≡ (state self.old).next) }
        ensures made { OnOk result (state self.new ≡ bridge_connecting (way_of (state self.old) path.now) path.now (state self.old)) }
        ensures err { OnErr result (state self.new ≡ state self.old) };

    /// The bridge names the end no more.
    fn unbridge(&mut self, id: u64)
        ensures { state self.new ≡ unbridged id (state self.old) };
}
