//! An end of a channel, over its queue.

ghost use Rattle.std.specs.Prelude.{◌≡◌, ◌≤◌, ◌<◌, ◌+◌, ◌-◌, ◌^◌, [], length, true, false, Some, None, bit_and, option_map, option_copied, ok_or, slice_get, count_by, IfOk, IfNone, OnOk, OnErr};
ghost use Rattle.kernel_values.specs.declared.errno.Errno.TheVariants as errno;
ghost use Rattle.kernel_values.specs.declared.state.EndState.TheVariants as end_state;
ghost use Rattle.kernel_types.specs.Bridge.{with_error};
ghost use Rattle.kernel_types.specs.Connects.{accepted_end, unready};
ghost use Rattle.kernel_types.specs.Events.{end_events, is_disconnected, is_filled, has_event, where_marked};
ghost use Rattle.kernel_types.specs.Messages.{blocked_end, is_full_end, is_unconnected, unblocked_end, with_message, with_opened, without_opened};
ghost use Rattle.kernel_types.specs.Objects.{new_end};
ghost use Rattle.kernel_types.specs.Ports.{denied_end, is_waiting};
ghost use Rattle.kernel_types.specs.Reports.{reported_end};
ghost use Rattle.msg_queue.specs.Messages.{first_filled, free_id, length_of, opened_answer, opened_at, parts_of, read_count, read_out, retired_answer};
ghost use Rattle.object_store.specs.Keys.{serial_of};
ghost use Rattle.channel.specs.Ends.{disconnected, got, let_in, nothing_filled, send_checked, viewed};

use kernel_types::EndView;
use kernel_values::{Bytes, Connector, EndState, Errno, Events, NoMemory};
use msg_queue::{Full, Opened, Queue, Retired};
use object_store::{ObjKey, Parts};
use std::alloc::Global;
use std::marker::Model;
use std::mem;

/// One end of a channel. Contracts see it as the end of the model, with its peer by serial number.
#[derive(Drop)]
pub struct End {
    peer: Option<ObjKey>,
    state: EndState,
    path: Option<Bytes>,
    client: Option<Connector>,
    // The port that lists the end's server, to look there first. No contract speaks of it.
    port: Option<ObjKey>,
    queue: Queue,
    accepted: bool,
    ready: bool,
    blocked: bool,
    unblocked: bool,
    error: bool,
}

impl Model for End {
    ghost use Rattle.std.specs.Prelude.{◌≡◌, true, option_map};
    ghost use Rattle.kernel_values.specs.declared.state.ChannelEnd.{ChannelEnd};
    ghost use Rattle.kernel_types.specs.Ports.{is_waiting};
    ghost use Rattle.object_store.specs.Keys.{serial_of};
    ghost use Rattle.channel.specs.Queues.{no_queue};

    ghost Value = { ChannelEnd };

    ghost view = { λ e. record {
      peer = option_map serial_of e.peer;
      state = e.state;
      path = e.path;
      client = e.client;
      slots = e.queue.slots;
      size = e.queue.size;
      messages = e.queue.messages;
      sent = e.queue.next;
      accepted = e.accepted;
      ready = e.ready;
      blocked = e.blocked;
      unblocked = e.unblocked;
      error = e.error;
    } };

    ghost invariant = { λ e. is_waiting e.state ≡ true → e.queue ≡ no_queue };
}

fn is_disconnected(state: EndState) -> bool
    ensures { result ≡ is_disconnected state }
{
    match state {
        EndState::Disconnected => true,
        EndState::Waiting | EndState::Connecting | EndState::Connected => false,
    }
}

fn is_unconnected(state: EndState) -> bool
    ensures { result ≡ is_unconnected state }
{
    match state {
        EndState::Waiting | EndState::Connecting => true,
        EndState::Connected | EndState::Disconnected => false,
    }
}

// An event where the mark stands, else none.
fn where_marked(mark: bool, event: u32) -> u32
    ensures value { result ≡ where_marked mark event }
    ensures bound { result ≤ event }
{
    if mark { event } else { 0 }
}

fn has_event(events: u32, event: u32) -> bool
    ensures { result ≡ has_event events event }
{
    events & event != 0
}

impl End {
    /// An end whose port is there: it is Connecting, with so many slots of so many bytes each.
    pub fn new(alloc: Global, state: EndState, slots: u32, size: u32) -> Result<End, NoMemory>
        requires connecting { state ≡ end_state.Connecting }
        requires some { 1 ≤ slots }
        requires few { slots ≤ 32 }
        requires filled { 1 ≤ size }
        requires short { size ≤ 4096 }
        ensures { IfOk result (λ end. end ≡ new_end None state None None slots size) }
    {
        let queue = Queue::new(alloc, slots, size)?;
        Ok(End {
            peer: None,
            state,
            path: None,
            client: None,
            port: None,
            queue,
            accepted: false,
            ready: false,
            blocked: false,
            unblocked: false,
            error: false,
        })
    }

    /// An end that waits for a port of the path. It has no slots, and nothing is allocated.
    pub fn waiting(path: Bytes) -> End
        ensures { result ≡ new_end None end_state.Waiting (Some path) None 0 0 }
    {
        let queue = Queue::without_slots(path.allocator());
        End {
            peer: None,
            state: EndState::Waiting,
            path: Some(path),
            client: None,
            port: None,
            queue,
            accepted: false,
            ready: false,
            blocked: false,
            unblocked: false,
            error: false,
        }
    }

    /// The path for whose port the end waits.
    pub fn waits_for(&self) -> Option<&Bytes>
        ensures { option_copied result ≡ self.now.path }
    {
        self.path.as_ref()
    }

    /// The waiting end is let in, with a queue to which nothing was sent yet: it is Connecting.
    pub fn attach(&mut self, queue: Queue)
        requires waiting { self.old.state ≡ end_state.Waiting }
        requires unused { queue ≡ record { slots = queue.slots; size = queue.size; next = 0; messages = [] } }
        ensures { self.new ≡ let_in queue.slots queue.size self.old }
    {
        drop(mem::replace(&mut self.queue, queue));
        self.state = EndState::Connecting;
        self.path = None;
    }

    /// The waiting end is not let in: it is Disconnected.
    pub fn deny(&mut self)
        ensures { self.new ≡ denied_end self.old }
    {
        self.state = EndState::Disconnected;
        self.path = None;
    }

    /// The key of the other end.
    pub fn peer(&self) -> Option<ObjKey>
        ensures { option_map serial_of result ≡ self.now.peer }
    {
        self.peer
    }

    /// Sets the other end.
    pub fn set_peer(&mut self, peer: ObjKey)
        ensures { self.new ≡ record self.old { peer = Some peer.serial } }
    {
        self.peer = Some(peer);
    }

    /// Who made the connection, at the end that it made.
    pub fn client(&self) -> Option<Connector>
        ensures { result ≡ self.now.client }
    {
        self.client
    }

    /// Sets who made the connection.
    pub fn set_client(&mut self, client: Connector)
        ensures { self.new ≡ record self.old { client = Some client } }
    {
        self.client = Some(client);
    }

    /// The key that `set_port` kept: where the end's server is likely to be pending.
    pub fn port(&self) -> Option<ObjKey> {
        self.port
    }

    /// Keeps the key of the port at which the end's server is pending, to look there first. It is no part
    /// of the end as contracts see it.
    pub fn set_port(&mut self, port: ObjKey)
        ensures { self.new ≡ self.old }
    {
        self.port = Some(port);
    }

    /// How far the end has come.
    pub fn state(&self) -> EndState
        ensures { result ≡ self.now.state }
    {
        self.state
    }

    /// Whether the end was accepted.
    pub fn is_accepted(&self) -> bool
        ensures { result ≡ self.now.accepted }
    {
        self.accepted
    }

    /// The number of slots.
    pub fn slots(&self) -> u32
        ensures { result ≡ self.now.slots }
    {
        self.queue.slots()
    }

    /// The number of bytes of a slot.
    pub fn size(&self) -> u32
        ensures { result ≡ self.now.size }
    {
        self.queue.size()
    }

    /// Whether a message of `len` bytes may be sent from here: NOT_READY, CHANNEL_CLOSED, TOO_BIG.
    pub fn send_check(&self, len: u32) -> Result<(), Errno>
        ensures { result ≡ send_checked self.now len }
    {
        if is_unconnected(self.state) {
            return Err(Errno::NotReady);
        }
        if is_disconnected(self.state) {
            return Err(Errno::ChannelClosed);
        }
        if self.queue.size() < len {
            return Err(Errno::TooBig);
        }
        Ok(())
    }

    /// A message comes in; its sequence number is told. It is refused exactly where the end is full.
    pub fn deliver(&mut self, bytes: &[u8], parts: &Parts) -> Result<u32, Full>
        requires fits { length bytes.now ≤ self.old.size }
        requires next { self.old.sent < 2 ^ 32 - 1 }
        ensures full { OnErr result (is_full_end self.old ≡ true) }
        ensures room { OnOk result (is_full_end self.old ≡ false) }
        ensures seq { IfOk result (λ seq. seq ≡ self.old.sent) }
        ensures message { OnOk result (self.new ≡ with_message bytes.now parts.now self.old) }
        ensures same { OnErr result (self.new ≡ self.old) }
    {
        self.queue.push(bytes, parts)
    }

    /// Opens the oldest filled message: NOT_READY; with nothing filled, CHANNEL_CLOSED or NO_MSG.
    pub fn get(&mut self) -> Result<Opened, Errno>
        ensures answer { result ≡ got self.old }
        ensures opened { OnOk result (self.new ≡ with_opened (free_id self.old.messages) self.old) }
        ensures same { OnErr result (self.new ≡ self.old) }
    {
        if is_unconnected(self.state) {
            return Err(Errno::NotReady);
        }
        match self.queue.open_next() {
            Some(opened) => Ok(opened),
            None => Err(self.nothing_filled()),
        }
    }

    /// Opens the oldest filled message, however far the end has come.
    pub fn open_next(&mut self) -> Option<Opened>
        ensures opened { result ≡ option_map (opened_answer (free_id self.old.messages)) (first_filled self.old.messages) }
        ensures end { self.new ≡ with_opened (free_id self.old.messages) self.old }
        ensures same { IfNone result (self.new ≡ self.old) }
    {
        self.queue.open_next()
    }

    // Why there is no message to open: no more can come, or none has come yet.
    fn nothing_filled(&self) -> Errno
        ensures { result ≡ nothing_filled self.now }
    {
        if is_disconnected(self.state) {
            Errno::ChannelClosed
        } else {
            Errno::NoMsg
        }
    }

    /// Reads the message opened under the id as `Queue::read` does. INVALID_ARGS where there is none or
    /// the offset is past its length.
    pub fn read(&self, id: u32, offset: u32, out: &mut [u8]) -> Result<usize, Errno>
        ensures count { result ≡ ok_or (read_count offset (length out.old) (opened_at self.now.messages id)) errno.InvalidArgs }
        ensures out { out.new ≡ read_out offset out.old (opened_at self.now.messages id) }
    {
        match self.queue.read(id, offset, out) {
            Some(count) => Ok(count),
            None => Err(Errno::InvalidArgs),
        }
    }

    /// Retires the message opened under the id. INVALID_ARGS where there is none.
    pub fn put(&mut self, id: u32) -> Result<Retired, Errno>
        ensures answer { result ≡ ok_or (option_map retired_answer (opened_at self.old.messages id)) errno.InvalidArgs }
        ensures retired { self.new ≡ without_opened id self.old }
        ensures same { OnErr result (self.new ≡ self.old) }
    {
        match self.queue.retire(id) {
            Some(retired) => Ok(retired),
            None => Err(Errno::InvalidArgs),
        }
    }

    /// The peer had no free slot for a message from here.
    pub fn note_blocked(&mut self)
        ensures { self.new ≡ blocked_end self.old }
    {
        self.blocked = true;
        self.unblocked = false;
    }

    /// The peer has a free slot again.
    pub fn note_room(&mut self)
        ensures { self.new ≡ unblocked_end self.old }
    {
        self.unblocked = self.unblocked || self.blocked;
        self.blocked = false;
    }

    /// The decision on the connect was reported.
    pub fn note_decided(&mut self)
        ensures { self.new ≡ unready self.old }
    {
        self.ready = false;
    }

    /// The connection broke.
    pub fn note_error(&mut self)
        ensures { self.new ≡ with_error self.old }
    {
        self.error = true;
    }

    /// The pending connection is accepted. The client's end is ready then.
    pub fn accept(&mut self, client: bool)
        requires { self.old.state ≡ end_state.Connecting }
        ensures { self.new ≡ accepted_end client self.old }
    {
        self.state = EndState::Connected;
        self.accepted = true;
        self.ready = client || self.ready;
    }

    /// The other end is gone, or the connection broke. Messages and marks stay.
    pub fn disconnect(&mut self, broken: bool)
        ensures { self.new ≡ disconnected broken self.old }
    {
        self.state = EndState::Disconnected;
        self.error = broken || self.error;
    }

    /// The events of the end.
    pub fn events(&self) -> Events
        ensures { result.0 ≡ end_events self.now }
    {
        Events(
            where_marked(self.ready, 1)
                + where_marked(self.error, 2)
                + where_marked(is_disconnected(self.state), 4)
                + where_marked(self.queue.has_filled(), 8)
                + where_marked(self.unblocked, 16),
        )
    }

    /// Reports the events that are in the mask. READY and SEND_UNBLOCKED are reported once.
    pub fn report(&mut self, mask: Events) -> Events
        ensures events { result.0 ≡ bit_and (end_events self.old) mask.0 }
        ensures end { self.new ≡ reported_end result.0 self.old }
    {
        let events = self.events().0 & mask.0;
        self.ready = self.ready && !has_event(events, 1);
        self.unblocked = self.unblocked && !has_event(events, 16);
        Events(events)
    }

    /// The length of the oldest filled message, as `Queue::peek` tells it.
    pub fn peek(&self, out: &mut [u8]) -> Option<u32>
        ensures len { result ≡ option_map length_of (first_filled self.now.messages) }
        ensures out { out.new ≡ read_out 0 out.old (first_filled self.now.messages) }
    {
        self.queue.peek(out)
    }

    /// The keys of the message opened under the id, where there is one.
    pub fn parts(&self, id: u32) -> Option<Parts>
        ensures { result ≡ option_map parts_of (opened_at self.now.messages id) }
    {
        self.queue.parts(id)
    }

    /// The keys of the message at a place, filled or opened, counted from 0.
    pub fn parts_at(&self, at: usize) -> Option<&Parts>
        ensures { option_copied result ≡ option_map parts_of (slice_get self.now.messages at) }
    {
        self.queue.parts_at(at)
    }

    /// Whether the messages are as many as the slots.
    pub fn full(&self) -> bool
        ensures { result ≡ is_full_end self.now }
    {
        self.queue.is_full()
    }

    /// What the bridge sees of the end, but for its peer.
    pub fn view(&self) -> EndView
        ensures { result ≡ viewed self.now }
    {
        EndView {
            state: self.state,
            accepted: self.accepted,
            filled: self.queue.filled(),
            size: self.queue.size(),
            slots: self.queue.slots(),
            peer_full: false,
        }
    }
}
