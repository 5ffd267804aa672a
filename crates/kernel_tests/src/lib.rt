//! Tests of kernels: the plain kernel, the journal, the gate, the runs and the program's kernel. Nothing stands on this crate.
#![tactic(auto)]

#[cfg(test)]
mod bridge_tests;
#[cfg(test)]
mod gate_tests;
#[cfg(test)]
mod journal_tests;
#[cfg(test)]
mod plain_tests;
#[cfg(test)]
mod play;
#[cfg(test)]
mod quiet_kernel;
#[cfg(test)]
mod run_tests;
#[cfg(test)]
mod worker_tests;
