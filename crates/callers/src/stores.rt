//! A caller of `object_store`.

ghost use Rattle.std.specs.Prelude.{◌≡◌, ◌<◌, ◌^◌, ◌-◌, ◌++◌, ◌∷◌, [], IfOk, OnOk, OnErr};
ghost use Rattle.object_store.specs.Stock.{new_held, total_names};

use kernel_values::NoMemory;
use object_store::{ObjKey, Store};

/// Stores a value with one name. What may be refused is the room alone, so it is asked for first.
pub fn keep<T: Drop>(store: &mut Store<T>, value: T) -> Result<ObjKey, NoMemory>
    requires serial { store.old.next < 2 ^ 64 - 1 }
    requires names { total_names store.old.items < 2 ^ 64 - 1 }
    ensures key { IfOk result (λ key. key.serial ≡ store.old.next) }
    ensures kept { OnOk result (store.new.items ≡ store.old.items ++ new_held store.old.next value ∷ []) }
    ensures same { OnErr result (store.new.items ≡ store.old.items) }
{
    store.reserve(1)?;
    match store.put(value) {
        Ok(key) => Ok(key),
        Err(_) => unreachable!(),
    }
}
