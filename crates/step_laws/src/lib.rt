//! One walk over all steps of the kernel: each is a row of small changes, and what each of these keeps, every history keeps.
#![tactic(auto)]

pub mod walks;
