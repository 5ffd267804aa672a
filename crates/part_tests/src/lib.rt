//! Tests of the parts that the kernel is made of: values, rings, frames, counted objects, handle tables, message slots, applications,
//! memory, the driver, the lock and scripts. Nothing stands on this crate.
#![tactic(auto)]

#[cfg(test)]
mod driver_tests;
#[cfg(test)]
mod frame_tests;
#[cfg(test)]
mod life_tests;
#[cfg(test)]
mod lock_tests;
#[cfg(test)]
mod memory_tests;
#[cfg(test)]
mod ring_tests;
#[cfg(test)]
mod script_tests;
#[cfg(test)]
mod slot_tests;
#[cfg(test)]
mod store_tests;
#[cfg(test)]
mod table_tests;
#[cfg(test)]
mod value_tests;
