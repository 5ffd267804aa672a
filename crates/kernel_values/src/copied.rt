//! Deep copies, which are refused where memory runs out.

ghost use Rattle.std.specs.Prelude.{◌≡◌, IfOk};

use crate::items::NoMemory;

/// A value that can be copied whole. The copy means what the original means.
pub trait Copied: Sized {
    fn copied(&self) -> Result<Self, NoMemory>
        ensures { IfOk result (λ copy. copy ≡ self.now) };
}

impl Copied for u8 {
    fn copied(&self) -> Result<u8, NoMemory> {
        Ok(*self)
    }
}

impl Copied for u32 {
    fn copied(&self) -> Result<u32, NoMemory> {
        Ok(*self)
    }
}

impl Copied for u64 {
    fn copied(&self) -> Result<u64, NoMemory> {
        Ok(*self)
    }
}
