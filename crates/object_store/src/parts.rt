//! A short list of keys, held in place.

ghost use Rattle.std.specs.Prelude.{◌≡◌, ◌<◌, ◌≤◌, ◌++◌, ◌∷◌, [], length};
ghost use Rattle.object_store.specs.Keys.{serials};

use crate::key::ObjKey;
use std::marker::Model;

/// How many keys a message can carry.
pub const MAX_PARTS: usize = 8;

/// Up to 8 keys in order, held in place. Contracts see their serial numbers.
#[derive(Drop)]
pub struct Parts {
    keys: [ObjKey; 8],
    len: usize,
}

impl Model for Parts {
    ghost use Rattle.std.specs.Prelude.{ℕ, List, ◌≤◌, take};
    ghost use Rattle.object_store.specs.Keys.{serials};

    ghost Value = { List ℕ };

    ghost view = { λ p. serials (take p.len p.keys) };

    ghost invariant = { λ p. p.len ≤ 8 };
}

impl Parts {
    /// No keys.
    pub fn new() -> Parts
        ensures { result ≡ [] }
    {
        Parts {
            keys: [ObjKey { slot: 0, serial: 0 }; 8],
            len: 0,
        }
    }

    /// The key goes last. There must be a free place.
    pub fn push(&mut self, item: ObjKey)
        requires { length self.old < 8 }
        ensures { self.new ≡ self.old ++ item.serial ∷ [] }
    {
        self.keys[self.len] = item;
        self.len += 1;
    }

    /// The keys in order.
    pub fn as_slice(&self) -> &[ObjKey]
        ensures keys { serials result.now ≡ self.now }
        ensures len { length result.now ≡ length self.now }
        ensures most { length result.now ≤ 8 }
    {
        &self.keys[..self.len]
    }

    /// How many keys there are.
    pub fn len(&self) -> u32
        ensures value { result ≡ length self.now }
        ensures most { result ≤ 8 }
    {
        self.as_slice().len() as u32
    }

    /// The same keys once more.
    pub fn copied(&self) -> Parts
        ensures { result ≡ self.now }
    {
        Parts {
            keys: self.keys,
            len: self.len,
        }
    }
}
