ghost use Rattle.std.specs.Prelude.{◌≡◌, ◌<◌, ◌≤◌, List, [], ◌∷◌, ◌++◌, length, take};

use std::marker::Model;

/// A buffer of a chain: where it begins in memory, and its bytes.
#[derive(Clone, Copy, Debug, PartialEq, Eq)]
pub struct Part {
    /// The place of the first byte.
    pub addr: u32,
    /// The number of bytes.
    pub len: u32,
}

const BLANK: Part = Part { addr: 0, len: 0 };

/// Up to 256 parts in their order, held in place. Contracts see the list of them.
#[derive(Drop)]
pub struct PartList {
    parts: [Part; 256],
    len: usize,
}

impl Model for PartList {
    ghost use Rattle.std.specs.Prelude.{◌≤◌, List, take};
    ghost use Rattle.virtqueue.specs.declared.parts.Part.{Part};

    ghost Value = { List Part };

    ghost view = { λ p. take p.len p.parts };

    ghost invariant = { λ p. p.len ≤ 256 };
}

impl PartList {
    /// The empty list.
    pub fn new() -> PartList
        ensures { result ≡ [] }
    {
        PartList {
            parts: [BLANK; 256],
            len: 0,
        }
    }

    /// Appends a part. There are fewer than 256.
    pub fn push(&mut self, item: Part)
        requires { length self.old < 256 }
        ensures { self.new ≡ self.old ++ item ∷ [] }
    {
        self.parts[self.len] = item;
        self.len += 1;
    }

    /// The parts.
    pub fn as_slice(&self) -> &[Part]
        ensures parts { result.now ≡ self.now }
        ensures few { length result.now ≤ 256 }
    {
        &self.parts[..self.len]
    }
}
