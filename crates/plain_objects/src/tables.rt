//! Handle tables: looking numbers up, giving them and taking them away.

ghost use Rattle.std.specs.Prelude.{◌≡◌, nat_lt, ◌≤◌, length, OnOk, IfOk};
ghost use Rattle.kernel_types.specs.Tables.{table_of, entry_at, is_free, free_handle, is_full, installed, install, without, remove_entry, has_room};
ghost use Rattle.plain_objects.specs.Counting.{free_below};
ghost use Rattle.std.specs.List.{position_or_len};

use kernel_values::{CoreState, Items, NoMemory, TableEntry};
use std::alloc::Global;

/// The table of an application; an application that is not there has an empty one.
pub fn table_of(core: &CoreState, app: u32) -> &[TableEntry]
    ensures { result.now ≡ table_of core.now app }
{
    match core.apps.get(app as usize) {
        Some(application) => application.table.as_slice(),
        None => &[],
    }
}

/// The entry of a number, where there is one.
pub fn find_entry(table: &[TableEntry], handle: u32) -> Option<TableEntry>
    ensures { result ≡ entry_at table.now handle }
{
    for entry in table {
        if entry.handle == handle {
            return Some(*entry);
        }
    }
    None
}

fn is_free_handle(table: &[TableEntry], handle: u32) -> bool
    ensures { result ≡ is_free table.now handle }
{
    for entry in table {
        if entry.handle == handle {
            return false;
        }
    }
    true
}

/// The least free number below the limit; 0 where there is none.
fn free_handle_below(table: &[TableEntry], limit: u32) -> u32
    ensures { result ≡ free_below table.now limit }
{
    for handle in 0..limit {
        if is_free_handle(table, handle) {
            return handle;
        }
    }
    0
}

/// The least number that no entry has; 0 where the table is full.
pub fn least_free_handle(table: &[TableEntry]) -> u32
    ensures { result ≡ free_handle table.now }
{
    free_handle_below(table, 64)
}

/// A table has at most 64 numbers.
#[tactic(auto, unfolding(kernel_types::specs::Tables::is_full))]
pub fn is_full_table(table: &[TableEntry]) -> bool
    ensures { result ≡ is_full table.now }
{
    table.len() >= 64
}

/// The place of the first entry with a greater number; past the end where there is none.
fn place_after(table: &[TableEntry], handle: u32) -> usize
    ensures value { result ≡ position_or_len (λ e. nat_lt handle e.handle) table.now }
    ensures bound { result ≤ length table.now }
{
    for (at, entry) in table.iter().enumerate() {
        if handle < entry.handle {
            return at;
        }
    }
    table.len()
}

/// The object gets the least free number, with cookie 0.
pub fn install_in(table: &mut Items<TableEntry>, object: u64) -> Result<(), NoMemory>
    ensures { OnOk result (table.new ≡ installed table.old object) }
{
    let handle = least_free_handle(table.as_slice());
    let place = place_after(table.as_slice(), handle);
    table.insert(
        place,
        TableEntry {
            handle,
            object,
            cookie: 0,
        },
    )
}

/// The object gets the least free number of the application's table.
pub fn install(core: &mut CoreState, app: u32, object: u64) -> Result<(), NoMemory>
    ensures { OnOk result (core.new ≡ install app object core.old) }
{
    match core.apps.get_mut(app as usize) {
        Some(application) => install_in(&mut application.table, object),
        None => Ok(()),
    }
}

/// The table without a number.
fn table_without(
    alloc: Global,
    table: &[TableEntry],
    handle: u32,
) -> Result<Items<TableEntry>, NoMemory>
    ensures { IfOk result (λ others. others ≡ without table.now handle) }
{
    let mut others = Items::new(alloc);
    for entry in table {
        if entry.handle != handle {
            others.push(*entry)?;
        }
    }
    Ok(others)
}

/// The number goes from the application's table.
pub fn remove_entry(core: &mut CoreState, app: u32, handle: u32) -> Result<(), NoMemory>
    ensures { OnOk result (core.new ≡ remove_entry app handle core.old) }
{
    if let Some(application) = core.apps.get_mut(app as usize) {
        let others = table_without(
            application.table.allocator(),
            application.table.as_slice(),
            handle,
        )?;
        application.table = others;
    }
    Ok(())
}

/// Whether so many more numbers fit the table.
#[tactic(auto, unfolding(kernel_types::specs::Tables::has_room))]
pub fn has_room(count: usize, table: &[TableEntry]) -> bool
    ensures { result ≡ has_room count table.now }
{
    table.len() <= 64 && count <= 64 - table.len()
}
