//! The model of the kernel: what every step does, as definitions in `specs/`, and the traits of the
//! kernels that make such steps. The types are those of `kernel_values`, passed on.
#![tactic(auto)]

pub mod bridge;
pub mod kernel;
pub mod laws;

pub use bridge::{Core, EndView, NsRefused};
pub use kernel::{IpcKernel, StepCause, StepRefused};
pub use kernel_values as values;
