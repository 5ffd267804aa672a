//! What a break of the bridge leaves of the kernel, and why: its ends are its own.

ghost use Rattle.std.specs.Prelude.{◌≡◌, ℕ, List, Some};
ghost use Rattle.std.specs.List.{fold};
ghost use Rattle.kernel_values.specs.SceneLaw.{SceneValue};
ghost use Rattle.kernel_values.specs.declared.entry.Entry.{Entry};
ghost use Rattle.kernel_values.specs.declared.entry.Event.TheVariants as event;
ghost use Rattle.kernel_values.specs.declared.flags.PortFlags.{PortFlags};
ghost use Rattle.kernel_values.specs.declared.reply.Answer.TheVariants as answer;
ghost use Rattle.kernel_values.specs.declared.reply.BreakCause.{BreakCause};
ghost use Rattle.kernel_values.specs.declared.reply.DeviceReply.TheVariants as device;
ghost use Rattle.kernel_values.specs.declared.scene.Manifest.{Manifest};
ghost use Rattle.kernel_values.specs.declared.state.State.{State};
ghost use Rattle.kernel_types.specs.Device.{entry_dropped};
ghost use Rattle.kernel_types.specs.History.{state_after};
ghost use Rattle.kernel_types.specs.Opening.{opening};
ghost use Rattle.kernel_types.specs.Step.{Stepped, step};
ghost use Rattle.break_laws.specs.Breaks.{IsBreak, IsReachable};
ghost use Rattle.break_laws.specs.Held.{KeepsApart};
ghost use Rattle.break_laws.specs.WorkedBreak.{after_break, before_break, broken_entries};

/// In every history from an opening state no table, wait, set or message names an end of the bridge or a pending server end.
/// No end is both, and what the bridge names is an end whose messages carry nothing.
pub fn bridged_and_pending_ends_are_kept_apart()
    ensures { (scene : SceneValue) (entries : List Entry) → KeepsApart (state_after (opening scene) entries).core }
{}

/// Where the device answers that it broke, in whatever state a legal history of a scene leads to, the ends of the bridge are
/// cut off and nothing else changes. They go, with the server ends that were pending for them; every other peer of one is
/// Disconnected and has the error mark; tables, waits, sets, memory, paths, the clock and all other ends stay.
pub fn breaks_cut_the_bridge_off()
    ensures { (s : State) (r : Stepped) (queue : ℕ) (cause : BreakCause) (place : ℕ) → IsReachable s
        → step s event.Device ≡ Some r → r.answer ≡ answer.Device (device.Broke queue cause place) → IsBreak s r.state }
{}

/// A break, worked: of two ends of the bridge one has a peer that an application holds, which hears of it, and one a pending server
/// end, which goes with it; the channel beside them stays.
pub fn worked_break()
    ensures { (manifest : Manifest) (path : List ℕ) (flags : PortFlags) → fold entry_dropped (before_break manifest path flags) broken_entries ≡ after_break manifest path flags }
{}
