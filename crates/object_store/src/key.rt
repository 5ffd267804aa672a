//! What a value of a store is found by.

/// A value's serial number, and the slot in which it stood when the key was made. The serial number
/// alone says which value is meant. The slot tells where to look first: where another value stands
/// there, the store looks the serial number up.
#[derive(Clone, Copy, PartialEq, Eq, Debug)]
pub struct ObjKey {
    /// Where to look first.
    pub slot: usize,
    /// Serial numbers count from 0, and each is given once.
    pub serial: u64,
}
