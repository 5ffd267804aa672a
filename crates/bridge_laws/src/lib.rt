//! Laws of the bridge: which ends it names.
#![tactic(auto)]

pub mod bridged;
