//! A caller of `handle_table`.

ghost use Rattle.std.specs.Prelude.{◌≡◌, length, IfOk, OnOk, OnErr};
ghost use Rattle.handle_table.specs.Tables.{free_handle, installed, with_cookie};

use handle_table::{Full, Table};
use kernel_values::Handle;
use object_store::ObjKey;

/// Gives the object the least free number, and keeps the cookie with it.
pub fn install_with(table: &mut Table, key: ObjKey, cookie: u64) -> Result<Handle, Full>
    ensures number { IfOk result (λ handle. handle ≡ free_handle table.old) }
    ensures entry { OnOk result (table.new ≡ with_cookie (installed table.old key.serial) (free_handle table.old) cookie) }
    ensures full { OnErr result (length table.old ≡ 64) }
    ensures same { OnErr result (table.new ≡ table.old) }
{
    let handle = table.install(key)?;
    table.set_cookie(handle, cookie);
    Ok(handle)
}
