//! The program's kernel: the plain kernel, with the bridge to the normal world over it.
#![tactic(auto)]

ghost use Rattle.std.specs.Prelude.{◌≡◌, IfOk};
ghost use Rattle.kernel_types.specs.Opening.{opening};

use kernel_types::values::{NoMemory, Scene};
use ns_bridge::Kernel;
use plain_kernel::PlainKernel;
use std::alloc::Global;

/// The program's kernel.
pub type ProgramKernel = Kernel<PlainKernel>;

/// The program's kernel in the state in which the scene begins.
pub fn kernel_of(alloc: Global, scene: &Scene) -> Result<ProgramKernel, NoMemory>
    ensures state { IfOk result (λ kernel. kernel.state ≡ opening scene.now) }
    ensures made { IfOk result (λ kernel. kernel.made ≡ 0) }
{
    let core = PlainKernel::new(alloc, scene)?;
    Kernel::new(alloc, core, scene)
}
