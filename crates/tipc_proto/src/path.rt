ghost use Rattle.std.specs.Prelude.{◌≡◌, ◌≤◌, List, length, Some, None, IsTrue, if◌then◌else◌};
ghost use Rattle.std.specs.List.{list_all};
ghost use Rattle.kernel_values.specs.Words.{is_path, is_printable};

use std::marker::Model;

/// The path of a port: 1 to 63 printable bytes, held in place. Contracts see the list of them.
#[derive(Debug, Drop)]
pub struct PathName {
    bytes: [u8; 63],
    len: usize,
}

impl Model for PathName {
    ghost use Rattle.std.specs.Prelude.{ℕ, ◌≤◌, List, take, IsTrue};
    ghost use Rattle.kernel_values.specs.Words.{is_path};

    ghost Value = { List ℕ };

    ghost view = { λ p. take p.len p.bytes };

    ghost invariant = { λ p. (p.len ≤ 63) × IsTrue (is_path (take p.len p.bytes)) };
}

impl PathName {
    /// The path with these bytes; `None` where they are no lawful path.
    pub fn of(bytes: &[u8]) -> Option<PathName>
        ensures { result ≡ (if is_path bytes.now then Some bytes.now else None) }
    {
        if !is_path(bytes) {
            return None;
        }
        let mut held = [0u8; 63];
        held[..bytes.len()].copy_from_slice(bytes);
        Some(PathName {
            bytes: held,
            len: bytes.len(),
        })
    }

    /// The path's bytes.
    pub fn as_slice(&self) -> &[u8]
        ensures bytes { result.now ≡ self.now }
        ensures lawful { IsTrue (is_path self.now) }
        ensures long { length result.now ≤ 63 }
    {
        &self.bytes[..self.len]
    }
}

pub fn is_printable(byte: u8) -> bool
    ensures { result ≡ is_printable byte }
{
    0x21 <= byte && byte <= 0x7E
}

fn all_printable(bytes: &[u8]) -> bool
    ensures { result ≡ list_all is_printable bytes.now }
{
    bytes.iter().all(|byte| is_printable(*byte))
}

/// Whether the bytes are the path of a port.
fn is_path(bytes: &[u8]) -> bool
    ensures value { result ≡ is_path bytes.now }
    ensures long { IsTrue result → length bytes.now ≤ 63 }
{
    match bytes {
        [] => false,
        _ => all_printable(bytes) && bytes.len() < 64,
    }
}
