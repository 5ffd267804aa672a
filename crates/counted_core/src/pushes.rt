//! Messages that come, with the names of their parts.

ghost use Rattle.std.specs.Prelude.{◌≡◌, ◌+◌, ◌<◌, ◌^◌, length, Some, OnOk, OnErr};
ghost use Rattle.std.specs.List.{fold};
ghost use Rattle.kernel_types.specs.Messages.{with_message};
ghost use Rattle.kernel_types.specs.Objects.{on_end};
ghost use Rattle.object_store.specs.Stock.{total_names};
ghost use Rattle.counted_core.specs.Held.{changed_if};
ghost use Rattle.counted_core.specs.Sending.{named_more};

use crate::sweep::key_of;
use kernel_values::{Body, Bytes, ChannelEnd, Copied, Items, Message, NoMemory};
use object_store::Store;

fn add_message_to(end: &mut ChannelEnd, bytes: &Bytes, parts: &Items<u64>) -> Result<(), NoMemory>
    ensures ok { OnOk result (end.new ≡ with_message bytes.now parts.now end.old) }
    ensures err { OnErr result (end.new ≡ end.old) }
{
    let seq = end.sent;
    let Some(sent) = seq.checked_add(1) else {
        return Err(NoMemory);
    };
    let bytes = bytes.copied()?;
    let parts = parts.copied()?;
    end.messages.push(Message {
        seq,
        bytes,
        parts,
        opened: None,
    })?;
    end.sent = sent;
    Ok(())
}

fn push_into(body: &mut Body, bytes: &Bytes, parts: &Items<u64>) -> Result<(), NoMemory>
    ensures ok { OnOk result (body.new ≡ on_end (with_message bytes.now parts.now) body.old) }
    ensures err { OnErr result (body.new ≡ body.old) }
{
    match body {
        Body::End(end) => add_message_to(end, bytes, parts),
        _ => Ok(()),
    }
}

/// The message comes to the end of this number.
pub fn push_message(
    store: &mut Store<Body>,
    id: u64,
    bytes: &Bytes,
    parts: &Items<u64>,
) -> Result<(), NoMemory>
    ensures ok { OnOk result (store.new.items ≡ changed_if (on_end (with_message bytes.now parts.now)) (Some id) store.old.items) }
    ensures err { OnErr result (store.new.items ≡ store.old.items) }
    ensures next { store.new.next ≡ store.old.next }
{
    store.sound();
    let Some(body) = store.get_mut(key_of(id)) else {
        return Ok(());
    };
    push_into(body, bytes, parts)
}

/// Each part has one name more.
pub fn name_all(store: &mut Store<Body>, parts: &[u64])
    requires { total_names store.old.items + length parts.now < 2 ^ 64 }
    ensures items { store.new.items ≡ fold named_more store.old.items parts.now }
    ensures next { store.new.next ≡ store.old.next }
{
    match parts {
        [] => {}
        [part, rest @ ..] => {
            store.sound();
            store.name(key_of(*part));
            name_all(store, rest);
        }
    }
}
