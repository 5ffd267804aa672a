//! Tests of what reads and prints texts: input and output, manifests, scenes, command lines and reports. Nothing stands on this
//! crate.
#![tactic(auto)]

#[cfg(test)]
mod command_tests;
#[cfg(test)]
mod direct_tests;
#[cfg(test)]
mod io_tests;
#[cfg(test)]
mod manifest_tests;
#[cfg(test)]
mod report_tests;
#[cfg(test)]
mod scene_tests;
