//! A caller of any kernel, by the trait that all of them have.

ghost use Rattle.std.specs.Prelude.{◌≡◌, ◌+◌, true, false};
ghost use Rattle.kernel_types.specs.History.{next_state};
ghost use Rattle.kernel_types.specs.Step.{idle_lawful};
ghost use Rattle.kernel_values.specs.declared.entry.Event.TheVariants.{Idle};

use kernel_types::IpcKernel;
use kernel_types::values::Event;

/// Lets time pass where nothing else can move: the clock goes to the least deadline, or every wait is cancelled. Where
/// something can move, or the step is refused, the kernel stays as it was.
pub fn pass_time<K: IpcKernel>(kernel: &mut K) -> bool
    ensures passed { result ≡ true → (idle_lawful (K.state kernel.old) ≡ true) × (K.state kernel.new ≡ next_state (K.state kernel.old) Idle) }
    ensures made { result ≡ true → K.made kernel.new ≡ K.made kernel.old + 1 }
    ensures kept { result ≡ false → (K.state kernel.new ≡ K.state kernel.old) × (K.made kernel.new ≡ K.made kernel.old) }
{
    if !kernel.idle_lawful() {
        return false;
    }
    match kernel.step(Event::Idle) {
        Ok(_) => true,
        Err(_) => false,
    }
}
