//! The entries of the bridge, in rising order of their secure addresses.

ghost use Rattle.std.specs.Prelude.{◌≡◌, ◌+◌, ◌<◌, ◌≤◌, ◌^◌, ◌==◌, nat_lt, length, map, IfOk, IfSome};
ghost use Rattle.std.specs.Option.{unwrap_or};
ghost use Rattle.std.specs.List.{find, list_any, position_or_len, range_with_len};
ghost use Rattle.kernel_types.specs.Device.{answered_entry, entry_between, free_secure, has_secure, is_entry_between, with_entry, without_entry};
ghost use Rattle.kernel_laws.specs.Entries.{IsAmong};
ghost use Rattle.ns_device.specs.Entries.{is_free};

use kernel_values::{BridgeEntry, Items, NoMemory};

/// The secure address of the first place.
const FIRST: u32 = 1000;
/// There are so many places.
pub const PLACES: u32 = 64;

fn has_secure(entries: &[BridgeEntry], secure: u32) -> bool
    ensures { result ≡ has_secure entries.now secure }
{
    for entry in entries {
        if entry.secure == secure {
            return true;
        }
    }
    false
}

/// Whether the driver's address has an entry.
pub fn has_normal(entries: &[BridgeEntry], normal: u32) -> bool
    ensures { result ≡ list_any (λ entry. entry.normal == normal) entries.now }
{
    for entry in entries {
        if entry.normal == normal {
            return true;
        }
    }
    false
}

/// The first address from `first` on, of so many, that no entry has; or else `first`.
fn free_from(entries: &[BridgeEntry], first: u32, count: u32) -> u32
    requires { first + count < 2 ^ 32 }
    ensures { result ≡ unwrap_or (find (is_free entries.now) (range_with_len first count)) first }
{
    for secure in first..first + count {
        if !has_secure(entries, secure) {
            return secure;
        }
    }
    first
}

/// The address of the least free place.
#[tactic(auto, unfolding(kernel_types::specs::Device::free_secure, kernel_types::specs::Device::entry_limit))]
pub fn free_secure(entries: &[BridgeEntry]) -> u32
    ensures { result ≡ free_secure entries.now }
{
    free_from(entries, FIRST, PLACES)
}

/// Where the entry of an address belongs.
fn place_of(entries: &[BridgeEntry], secure: u32) -> usize
    ensures place { result ≡ position_or_len (λ other. nat_lt secure other.secure) entries.now }
    ensures within { result ≤ length entries.now }
{
    for (at, other) in entries.iter().enumerate() {
        if secure < other.secure {
            return at;
        }
    }
    entries.len()
}

/// The entries with one more, and its place.
pub fn with_entry(
    entries: &Items<BridgeEntry>,
    entry: BridgeEntry,
) -> Result<(Items<BridgeEntry>, usize), NoMemory>
    ensures entries { IfOk result (λ made. made.0 ≡ with_entry entry entries.now) }
    ensures place { IfOk result (λ made. made.1 ≡ position_or_len (λ other. nat_lt entry.secure other.secure) entries.now) }
{
    let place = place_of(entries.as_slice(), entry.secure);
    let mut more = Items::from_slice(entries.allocator(), entries.as_slice())?;
    more.insert(place, entry)?;
    Ok((more, place))
}

/// The entries without one.
pub fn without_entry(
    entries: &Items<BridgeEntry>,
    entry: BridgeEntry,
) -> Result<Items<BridgeEntry>, NoMemory>
    ensures { IfOk result (λ rest. rest ≡ without_entry entry entries.now) }
{
    let mut rest = Items::new(entries.allocator());
    for other in entries.as_slice() {
        if other.secure != entry.secure {
            rest.push(*other)?;
        }
    }
    Ok(rest)
}

fn answered(secure: u32, entry: &BridgeEntry) -> BridgeEntry
    ensures { result ≡ answered_entry secure entry.now }
{
    BridgeEntry {
        secure: entry.secure,
        normal: entry.normal,
        end: entry.end,
        answered: entry.answered || entry.secure == secure,
    }
}

/// The entries, of which the one of this address is answered.
pub fn with_answered(
    entries: &Items<BridgeEntry>,
    secure: u32,
) -> Result<Items<BridgeEntry>, NoMemory>
    ensures { IfOk result (λ after. after ≡ map (answered_entry secure) entries.now) }
{
    let mut after = Items::new(entries.allocator());
    for entry in entries.as_slice() {
        after.push(answered(secure, entry))?;
    }
    Ok(after)
}

fn is_between(entry: &BridgeEntry, secure: u32, normal: u32) -> bool
    ensures { result ≡ is_entry_between secure normal entry.now }
{
    entry.secure == secure && entry.normal == normal
}

/// The entry of these two addresses.
pub fn entry_between(entries: &[BridgeEntry], secure: u32, normal: u32) -> Option<BridgeEntry>
    ensures found { result ≡ entry_between secure normal entries.now }
    ensures among { IfSome result (λ entry. IsAmong entry entries.now) }
{
    match entries {
        [] => None,
        [entry, rest @ ..] => {
            if is_between(entry, secure, normal) {
                Some(*entry)
            } else {
                entry_between(rest, secure, normal)
            }
        }
    }
}
