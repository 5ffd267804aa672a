//! The bytes that a word spells.

ghost use Rattle.std.specs.Prelude.{◌≡◌, ◌==◌, IfOk, map};
ghost use Rattle.std.specs.List.{slice_split};
ghost use Rattle.script_lines.specs.Gives.{Gives};
ghost use Rattle.script_lines.specs.Payloads.{few_bytes, hex_bytes, filled, bytes_word};

use crate::fault::LineRefused::{self, Fault};
use crate::fault::SceneKind::BadWords;
use crate::numbers::number_within;
use hex::FromHexError;
use kernel_values::Bytes;
use std::alloc::{AllocError, Global};

/// No word spells more bytes.
pub const MOST_BYTES: u32 = 65_536;

fn text_bytes(alloc: Global, text: &[u8]) -> Result<Bytes, LineRefused>
    ensures { Gives (λ bytes. bytes) result (few_bytes text.now) }
{
    if text.len() > 65_536 {
        return Err(Fault(BadWords));
    }
    Ok(Bytes::from_slice(alloc, text)?)
}

#[tactic(auto, unfolding(crate::specs::Payloads::hex_bytes))]
fn hex_bytes(alloc: Global, digits: &[u8]) -> Result<Bytes, LineRefused>
    ensures { Gives (λ bytes. bytes) result (hex_bytes digits.now) }
{
    match hex::decode(alloc, digits) {
        Ok(bytes) => {
            if bytes.len() > 65_536 {
                return Err(Fault(BadWords));
            }
            Ok(Bytes::from_vec(bytes))
        }
        Err(FromHexError::OutOfMemory) => Err(LineRefused::NoMemory),
        Err(_) => Err(Fault(BadWords)),
    }
}

fn is_colon(byte: u8) -> bool
    ensures { result ≡ (byte == 58) }
{
    byte == b':'
}

fn between_colons(alloc: Global, word: &[u8]) -> Result<Vec<&[u8]>, AllocError>
    ensures { IfOk result (λ parts. map (λ part. part.now) parts.items ≡ slice_split (λ byte. byte == 58) word.now) }
{
    word.split(|byte| is_colon(*byte)).collect(alloc)
}

#[tactic(auto, unfolding(crate::specs::Payloads::filled))]
fn filled(alloc: Global, parts: &[&[u8]]) -> Result<Bytes, LineRefused>
    ensures { Gives (λ bytes. bytes) result (filled (map (λ part. part.now) parts.now)) }
{
    match parts {
        [count, value] => {
            let count = number_within(0, MOST_BYTES, count)?;
            let value = number_within(0, 255, value)?;
            Ok(Bytes::from_vec(vec![in alloc; value as u8; count as usize]?))
        }
        _ => Err(Fault(BadWords)),
    }
}

/// `hex:` and digits, `text:` and the rest of the word, or `fill:` with a count and a byte's value.
#[tactic(auto, unfolding(crate::specs::Payloads::bytes_word))]
pub fn bytes_word(alloc: Global, word: &[u8]) -> Result<Bytes, LineRefused>
    ensures { Gives (λ bytes. bytes) result (bytes_word word.now) }
{
    if word.starts_with(b"hex:") {
        return hex_bytes(alloc, &word[4..]);
    }
    if word.starts_with(b"text:") {
        return text_bytes(alloc, &word[5..]);
    }
    if word.starts_with(b"fill:") {
        let parts = between_colons(alloc, &word[5..])?;
        return filled(alloc, &parts);
    }
    Err(Fault(BadWords))
}
