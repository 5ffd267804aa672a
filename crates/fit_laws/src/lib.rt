//! Laws of how objects fit together: who is whose peer, what is pending, and what messages carry.
#![tactic(auto)]

pub mod fits;
pub mod peers;
