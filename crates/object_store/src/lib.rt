//! Counted objects: values that stay as long as something names them. A store knows of each value how
//! many names it has, and hands it back when the last one goes. Each value has a serial number that is
//! given once.
#![tactic(auto)]

mod kept;
pub mod key;
mod order;
pub mod parts;
pub mod store;

pub use key::ObjKey;
pub use parts::{MAX_PARTS, Parts};
pub use store::{PutRefused, Store};
