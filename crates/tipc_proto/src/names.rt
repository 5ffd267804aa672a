ghost use Rattle.std.specs.Prelude.{◌≡◌, ◌≤◌, length};
ghost use Rattle.std.specs.List.{prefix_len};
ghost use Rattle.kernel_values.specs.Words.{is_printable};
ghost use Rattle.tipc_proto.specs.Names.{is_zero, name_in};

use crate::faults::FrameFault;
use crate::path::{PathName, is_printable};

/// How many printable bytes stand in front.
fn printable_len(bytes: &[u8]) -> usize
    ensures len { result ≡ prefix_len is_printable bytes.now }
    ensures within { result ≤ length bytes.now }
{
    let mut at = 0;
    while at < bytes.len() && is_printable(bytes[at]) {
        at += 1;
    }
    at
}

/// How many zeros stand in front.
fn zeros_len(bytes: &[u8]) -> usize
    ensures len { result ≡ prefix_len is_zero bytes.now }
    ensures within { result ≤ length bytes.now }
{
    let mut at = 0;
    while at < bytes.len() && bytes[at] == 0 {
        at += 1;
    }
    at
}

/// The path in the field of a request for a connection.
#[tactic(auto, unfolding(crate::specs::Names::name_in))]
pub fn name_of(field: &[u8]) -> Result<PathName, FrameFault>
    requires { length field.now ≡ 256 }
    ensures { result ≡ name_in field.now }
{
    let long = printable_len(field);
    if long == 0 {
        return Err(FrameFault::Name(0));
    }
    if long > 63 {
        return Err(FrameFault::Name(63));
    }
    let end = long + zeros_len(&field[long..]);
    if end < field.len() {
        return Err(FrameFault::Name(end as u32));
    }
    match PathName::of(&field[..long]) {
        Some(path) => Ok(path),
        None => unreachable!(),
    }
}
