//! New numbers for several objects at once.

ghost use Rattle.std.specs.Prelude.{OnOk, ◌≡◌, IfOk};
ghost use Rattle.kernel_types.specs.Messages.{all_installed, all_handles};
ghost use Rattle.kernel_types.specs.Tables.{with_table, table_of};

use crate::tables::{install_in, least_free_handle};
use kernel_values::{CoreState, Handles, Items, NoMemory, TableEntry};

/// The objects get numbers of the table, in order; the answer is the numbers.
fn install_all_in(table: &mut Items<TableEntry>, objects: &[u64]) -> Result<Handles, NoMemory>
    ensures table { OnOk result (table.new ≡ all_installed table.old objects.now) }
    ensures handles { IfOk result (λ handles. handles ≡ all_handles table.old objects.now) }
{
    match objects {
        [] => Ok(Items::new(table.allocator())),
        [object, rest @ ..] => {
            let handle = least_free_handle(table.as_slice());
            install_in(table, *object)?;
            let mut handles = install_all_in(table, rest)?;
            handles.insert(0, handle)?;
            Ok(handles)
        }
    }
}

/// The objects get numbers of the application's table, in order; the answer is the numbers.
pub fn install_all(core: &mut CoreState, app: u32, objects: &[u64]) -> Result<Handles, NoMemory>
    ensures state { OnOk result (core.new ≡ with_table (λ table. all_installed table objects.now) app core.old) }
    ensures handles { IfOk result (λ handles. handles ≡ all_handles (table_of core.old app) objects.now) }
{
    let mut empty = Items::new(core.apps.allocator());
    match core.apps.get_mut(app as usize) {
        Some(application) => install_all_in(&mut application.table, objects),
        None => install_all_in(&mut empty, objects),
    }
}
