//! The paths of ports.

ghost use Rattle.std.specs.Prelude.{◌≡◌};
ghost use Rattle.std.specs.List.{list_all};
ghost use Rattle.kernel_values.specs.Words.{is_path, is_printable};

fn is_printable(byte: u8) -> bool
    ensures { result ≡ is_printable byte }
{
    0x21 <= byte && byte <= 0x7E
}

fn are_printable(bytes: &[u8]) -> bool
    ensures { result ≡ list_all is_printable bytes.now }
{
    for byte in bytes {
        if !is_printable(*byte) {
            return false;
        }
    }
    true
}

/// Whether these are 1 to 63 printable bytes.
pub fn is_lawful_path(bytes: &[u8]) -> bool
    ensures { result ≡ is_path bytes.now }
{
    match bytes {
        [] => false,
        _ => are_printable(bytes) && bytes.len() < 64,
    }
}
