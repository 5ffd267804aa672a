//! A table of 64 places, with a bit for each place in use.

ghost use Rattle.std.specs.Prelude.{◌≡◌, ◌<◌, ◌≤◌, ◌+◌, ◌==◌, ℕ, List, [], length, true, false, Some, None, option_map, is_some, IfOk, IfSome, IfNone, OnOk, OnErr};
ghost use Rattle.std.specs.Result.{result_err};
ghost use Rattle.std.specs.Int.{bit_at};
ghost use Rattle.handle_table.specs.Tables.{entry_at, free_handle, installed, without, with_cookie, next_handle, doubled, dup_refusal, IsTableFrom};
ghost use Rattle.handle_table.specs.Places.{slot_entry, IsAfter, IsNextBit, HasNoNextBit};

use kernel_values::Handle;
use object_store::ObjKey;
use std::marker::Model;

/// All 64 numbers are in use.
#[derive(Clone, Copy, PartialEq, Eq, Debug)]
pub struct Full;

/// Why a number was not doubled.
#[derive(Clone, Copy, PartialEq, Eq, Debug)]
pub enum DupRefused {
    /// The number has no entry.
    BadHandle,
    /// All 64 numbers are in use.
    Full,
}

/// What a number stands for.
#[derive(Clone, Copy, PartialEq, Eq, Debug)]
pub struct Slot {
    /// The object.
    pub key: ObjKey,
    /// What the application keeps with the number, 0 at first.
    pub cookie: u64,
}

/// A handle table. Contracts see its entries in rising order of their numbers.
#[derive(Drop)]
pub struct Table {
    // Bit h is set where the number h is in use.
    used: u64,
    places: [Slot; 64],
    // How many numbers are in use.
    len: u32,
}

impl Model for Table {
    ghost use Rattle.std.specs.Prelude.{List};
    ghost use Rattle.kernel_values.specs.declared.state.TableEntry.{TableEntry};
    ghost use Rattle.handle_table.specs.Places.{entries, IsTable};

    ghost Value = { List TableEntry };

    ghost view = { λ t. entries t.used t.places };

    ghost invariant = { λ t. IsTable t.used t.places t.len };
}

// Whether the bit of the number is set.
fn is_used(used: u64, handle: Handle) -> bool
    ensures set { result ≡ (bit_at used handle == 1) }
    ensures within { result ≡ true → handle < 64 }
{
    handle < 64 && (used >> handle) & 1 == 1
}

// The bits of the numbers above the given one, or all bits.
fn bits_after(used: u64, after: Option<Handle>) -> u64
    ensures above { (k : ℕ) → IsAfter after k → bit_at result k ≡ bit_at used k }
    ensures below { (k : ℕ) → (IsAfter after k → ⊥) → bit_at result k ≡ 0 }
{
    match after {
        None => used,
        Some(handle) => {
            if handle >= 63 {
                return 0;
            }
            used & (u64::MAX << (handle + 1))
        }
    }
}

// The least number above the given one whose bit is set, or the least of all.
fn next_used(used: u64, after: Option<Handle>) -> Option<Handle>
    ensures some { IfSome result (λ next. IsNextBit used after next) }
    ensures none { IfNone result (HasNoNextBit used after) }
{
    let rest = bits_after(used, after);
    if rest == 0 {
        return None;
    }
    Some(rest.trailing_zeros())
}

impl Table {
    /// A table with no entries.
    pub fn new() -> Table
        ensures { result ≡ [] }
    {
        let key = ObjKey { slot: 0, serial: 0 };
        let empty = Slot { key, cookie: 0 };
        let places = [empty; 64];
        Table {
            used: 0,
            places,
            len: 0,
        }
    }

    /// Gives the object the least free number, with cookie 0. The table is full exactly at 64 entries.
    pub fn install(&mut self, key: ObjKey) -> Result<Handle, Full>
        ensures full { OnErr result (length self.old ≡ 64) }
        ensures room { OnOk result (length self.old < 64) }
        ensures number { IfOk result (λ handle. handle ≡ free_handle self.old) }
        ensures entry { OnOk result (self.new ≡ installed self.old key.serial) }
        ensures same { OnErr result (self.new ≡ self.old) }
    {
        if self.len == 64 {
            return Err(Full);
        }
        let handle = self.used.trailing_ones();
        self.used |= 1 << handle;
        self.places[handle as usize] = Slot { key, cookie: 0 };
        self.len += 1;
        Ok(handle)
    }

    /// What the number stands for, where it is in use.
    pub fn get(&self, handle: Handle) -> Option<Slot>
        ensures { option_map (slot_entry handle) result ≡ entry_at self.now handle }
    {
        if is_used(self.used, handle) {
            Some(self.places[handle as usize])
        } else {
            None
        }
    }

    /// Gives the object of the number one more number, the least free one, with cookie 0.
    #[tactic(auto, unfolding(kernel_types::specs::Tables::is_full))]
    pub fn dup(&mut self, handle: Handle) -> Result<Handle, DupRefused>
        ensures refusal { result_err result ≡ dup_refusal self.old (entry_at self.old handle) }
        ensures number { IfOk result (λ new. new ≡ free_handle self.old) }
        ensures entry { OnOk result (self.new ≡ doubled self.old (entry_at self.old handle)) }
        ensures same { OnErr result (self.new ≡ self.old) }
    {
        let Some(slot) = self.get(handle) else {
            return Err(DupRefused::BadHandle);
        };
        match self.install(slot.key) {
            Ok(new) => Ok(new),
            Err(Full) => Err(DupRefused::Full),
        }
    }

    /// Takes the number out of use, and tells what it stood for.
    pub fn take(&mut self, handle: Handle) -> Option<Slot>
        ensures slot { option_map (slot_entry handle) result ≡ entry_at self.old handle }
        ensures rest { self.new ≡ without self.old handle }
    {
        if !is_used(self.used, handle) {
            return None;
        }
        self.used &= !(1 << handle);
        self.len -= 1;
        Some(self.places[handle as usize])
    }

    /// Keeps another cookie with the number, where it is in use.
    pub fn set_cookie(&mut self, handle: Handle, cookie: u64) -> bool
        ensures there { result ≡ is_some (entry_at self.old handle) }
        ensures entry { self.new ≡ with_cookie self.old handle cookie }
    {
        if !is_used(self.used, handle) {
            return false;
        }
        self.places[handle as usize].cookie = cookie;
        true
    }

    /// The least number in use above the given one, or the least of all in use.
    pub fn next_after(&self, after: Option<Handle>) -> Option<Handle>
        ensures { result ≡ next_handle self.now after }
    {
        next_used(self.used, after)
    }

    /// How many numbers are free.
    pub fn free(&self) -> u32
        ensures { result + length self.now ≡ 64 }
    {
        64 - self.len
    }

    /// What holds of every table: the numbers rise and are below 64. It does nothing.
    pub fn sound(&self)
        ensures order { IsTableFrom 0 self.now }
        ensures size { length self.now ≤ 64 }
    {
        let _ = &self.used;
    }
}
