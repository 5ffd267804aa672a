//! The messages of one end: the oldest that is filled, those that are open, and their ids.

ghost use Rattle.std.specs.Option.{option_copied};
ghost use Rattle.std.specs.Prelude.{◌≡◌, ◌≤◌, IfOk, length};
ghost use Rattle.std.specs.List.{find, position_or_len, filter};
ghost use Rattle.kernel_types.specs.Events.{is_filled};
ghost use Rattle.kernel_types.specs.Messages.{is_opened_as, is_free_id, free_id};
ghost use Rattle.plain_objects.specs.Counting.{free_id_below};
ghost use Rattle.plain_objects.specs.Predicates.{is_another};

use kernel_values::{Items, Message, NoMemory};

/// The oldest message that is filled.
pub fn find_filled(messages: &[Message]) -> Option<&Message>
    ensures { option_copied result ≡ find is_filled messages.now }
{
    for message in messages {
        if message.opened.is_none() {
            return Some(message);
        }
    }
    None
}

/// The place of the oldest message that is filled; past the end where there is none.
pub fn place_of_filled(messages: &[Message]) -> usize
    ensures { result ≡ position_or_len is_filled messages.now }
{
    for (at, message) in messages.iter().enumerate() {
        if message.opened.is_none() {
            return at;
        }
    }
    messages.len()
}

fn is_opened_as(message: &Message, id: u32) -> bool
    ensures { result ≡ is_opened_as id message.now }
{
    match message.opened {
        Some(other) => other == id,
        None => false,
    }
}

/// The message that is open under this id.
pub fn find_opened(messages: &[Message], id: u32) -> Option<&Message>
    ensures { option_copied result ≡ find (is_opened_as id) messages.now }
{
    for message in messages {
        if is_opened_as(message, id) {
            return Some(message);
        }
    }
    None
}

fn is_free_id(messages: &[Message], id: u32) -> bool
    ensures { result ≡ is_free_id messages.now id }
{
    for message in messages {
        if is_opened_as(message, id) {
            return false;
        }
    }
    true
}

/// The least free id from 1 and below the limit; 0 where there is none.
fn free_id_below(messages: &[Message], limit: u32) -> u32
    requires { 1 ≤ limit }
    ensures { result ≡ free_id_below messages.now limit }
{
    for id in 1..limit {
        if is_free_id(messages, id) {
            return id;
        }
    }
    0
}

/// The least number from 1 that no open message has.
#[tactic(auto, unfolding(kernel_types::specs::Messages::free_id, crate::specs::Counting::free_id_below))]
pub fn free_id(messages: &[Message]) -> u32
    requires { length messages.now ≤ 0x7FFF_FFFF }
    ensures { result ≡ free_id messages.now }
{
    let limit = messages.len() as u32 + 2;
    free_id_below(messages, limit)
}

/// The same, refused where there are too many messages.
pub fn least_free_id(messages: &[Message]) -> Result<u32, NoMemory>
    ensures { IfOk result (λ id. id ≡ free_id messages.now) }
{
    if messages.len() > 0x7FFF_FFFF {
        return Err(NoMemory);
    }
    Ok(free_id(messages))
}

/// Whether the message is not the one that is open under this id.
#[tactic(auto, unfolding(crate::specs::Predicates::is_another))]
fn is_another(message: &Message, id: u32) -> bool
    ensures { result ≡ is_another id message.now }
{
    !is_opened_as(message, id)
}

/// The message that is open under this id goes.
pub fn remove_opened(messages: &mut Items<Message>, id: u32)
    ensures { messages.new ≡ filter (is_another id) messages.old }
{
    messages.retain(|message| is_another(message, id));
}
