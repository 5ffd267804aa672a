//! The entries that name objects.

ghost use Rattle.std.specs.Prelude.{◌≡◌, ◌++◌, ◌+◌, ◌≤◌, map, length, vec_capacity};
ghost use Rattle.kernel_types.specs.Names.{root, held_by, table_names, wait_names, message_objects, object_names, naming, names_of};
ghost use Rattle.std.specs.List.{flat_map};

use kernel_values::{
    Activity, Application, Body, CoreState, Member, Message, NoMemory, Object, Thread, WaitOn,
};
use std::marker::Model;

/// One entry that names an object, held by an object or by none.
#[derive(Debug, Drop)]
pub struct Naming {
    pub holder: Option<u64>,
    pub object: u64,
}

impl Model for Naming {
    ghost use Rattle.kernel_types.specs.Names.{Name};

    ghost Value = { Name };

    ghost view = { λ n. record { holder = n.holder; object = n.object } };
}

impl Naming {
    ghost use Rattle.kernel_types.specs.Names.{root, held_by};

    /// An entry that no object holds.
    pub fn root(object: u64) -> Naming
        ensures { result ≡ root object }
    {
        Naming {
            holder: None,
            object,
        }
    }

    /// An entry that an object holds.
    pub fn held_by(holder: u64, object: u64) -> Naming
        ensures { result ≡ held_by holder object }
    {
        Naming {
            holder: Some(holder),
            object,
        }
    }
}

// Each of these writes into the room of the list, so that none takes memory.

fn add_table_names(names: &mut Vec<Naming>, app: &Application)
    requires { length names.old.items + length (table_names app.now) ≤ vec_capacity names.old }
    ensures items { names.new.items ≡ names.old.items ++ table_names app.now }
    ensures room { vec_capacity names.new ≡ vec_capacity names.old }
{
    for entry in app.table.as_slice() {
        names.push_reserved(Naming::root(entry.object));
    }
}

fn add_bridge_names(names: &mut Vec<Naming>, bridged: &[u64])
    requires { length names.old.items + length bridged.now ≤ vec_capacity names.old }
    ensures items { names.new.items ≡ names.old.items ++ map root bridged.now }
    ensures room { vec_capacity names.new ≡ vec_capacity names.old }
{
    for end in bridged {
        names.push_reserved(Naming::root(*end));
    }
}

fn add_wait_names(names: &mut Vec<Naming>, thread: &Thread)
    requires { length names.old.items + length (wait_names thread.now) ≤ vec_capacity names.old }
    ensures items { names.new.items ≡ names.old.items ++ wait_names thread.now }
    ensures room { vec_capacity names.new ≡ vec_capacity names.old }
{
    match thread.activity {
        Activity::Waiting { start: _, wait } => match wait.on {
            WaitOn::Object {
                object,
                handle: _,
                cookie: _,
            } => names.push_reserved(Naming::root(object)),
            WaitOn::Connect { end, handle: _ } => names.push_reserved(Naming::root(end)),
            WaitOn::Any => {}
        },
        _ => {}
    }
}

/// Adds that the holder names these objects, in order.
fn add_all_held(names: &mut Vec<Naming>, holder: u64, objects: &[u64])
    requires { length names.old.items + length objects.now ≤ vec_capacity names.old }
    ensures items { names.new.items ≡ names.old.items ++ map (held_by holder) objects.now }
    ensures room { vec_capacity names.new ≡ vec_capacity names.old }
{
    for object in objects {
        names.push_reserved(Naming::held_by(holder, *object));
    }
}

fn add_message_names(names: &mut Vec<Naming>, holder: u64, messages: &[Message])
    requires { length names.old.items + length (message_objects messages.now) ≤ vec_capacity names.old }
    ensures items { names.new.items ≡ names.old.items ++ map (held_by holder) (message_objects messages.now) }
    ensures room { vec_capacity names.new ≡ vec_capacity names.old }
{
    for message in messages {
        add_all_held(names, holder, message.parts.as_slice());
    }
}

fn add_member_names(names: &mut Vec<Naming>, holder: u64, members: &[Member])
    requires { length names.old.items + length members.now ≤ vec_capacity names.old }
    ensures items { names.new.items ≡ names.old.items ++ map (held_by holder) (map (λ member. member.object) members.now) }
    ensures room { vec_capacity names.new ≡ vec_capacity names.old }
{
    for member in members {
        names.push_reserved(Naming::held_by(holder, member.object));
    }
}

fn add_object_names(names: &mut Vec<Naming>, object: &Object)
    requires { length names.old.items + length (object_names object.now) ≤ vec_capacity names.old }
    ensures items { names.new.items ≡ names.old.items ++ object_names object.now }
    ensures room { vec_capacity names.new ≡ vec_capacity names.old }
{
    match &object.body {
        Body::Port(port) => add_all_held(names, object.id, port.pending.as_slice()),
        Body::End(end) => add_message_names(names, object.id, end.messages.as_slice()),
        Body::Set(set) => add_member_names(names, object.id, set.members.as_slice()),
        Body::Memory(_) => {}
    }
}

fn add_names_of_tables(names: &mut Vec<Naming>, apps: &[Application])
    requires { length names.old.items + length (flat_map table_names apps.now) ≤ vec_capacity names.old }
    ensures items { names.new.items ≡ names.old.items ++ flat_map table_names apps.now }
    ensures room { vec_capacity names.new ≡ vec_capacity names.old }
{
    for app in apps {
        add_table_names(names, app);
    }
}

fn add_names_of_waits(names: &mut Vec<Naming>, threads: &[Thread])
    requires { length names.old.items + length (flat_map wait_names threads.now) ≤ vec_capacity names.old }
    ensures items { names.new.items ≡ names.old.items ++ flat_map wait_names threads.now }
    ensures room { vec_capacity names.new ≡ vec_capacity names.old }
{
    for thread in threads {
        add_wait_names(names, thread);
    }
}

fn add_names_of_objects(names: &mut Vec<Naming>, objects: &[Object])
    requires { length names.old.items + length (flat_map object_names objects.now) ≤ vec_capacity names.old }
    ensures items { names.new.items ≡ names.old.items ++ flat_map object_names objects.now }
    ensures room { vec_capacity names.new ≡ vec_capacity names.old }
{
    for object in objects {
        add_object_names(names, object);
    }
}

/// Lists anew every entry of a state that names an object.
#[tactic(auto, unfolding(kernel_types::specs::Names::naming))]
pub fn list_names(names: &mut Vec<Naming>, core: &CoreState)
    requires { length (naming core.now) ≤ vec_capacity names.old }
    ensures items { names.new.items ≡ naming core.now }
    ensures room { vec_capacity names.new ≡ vec_capacity names.old }
{
    names.clear();
    add_names_of_tables(names, core.apps.as_slice());
    add_bridge_names(names, core.bridged.as_slice());
    add_names_of_waits(names, core.threads.as_slice());
    add_names_of_objects(names, core.objects.as_slice());
}

/// How many of the entries name the object.
pub fn count_names(names: &[Naming], object: u64) -> usize
    ensures value { result ≡ names_of names.now object }
    ensures bound { result ≤ length names.now }
{
    let mut count = 0;
    for name in names {
        if name.object == object {
            count += 1;
        }
    }
    count
}
