//! Worked scenes, each with its serial history, as lemmas that the checker computes from the definitions
//! of `kernel_types` alone: `proofs/` has a file for each. Nothing stands on this crate.
#![tactic(auto)]

/// The lemmas are checked with the crate.
pub fn computed() {}
