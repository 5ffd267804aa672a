//! Counting is reaching: whoever counts the names of each object, and drops those that have none one after
//! the other, leaves what the sweep leaves.

ghost use Rattle.std.specs.Prelude.{◌≡◌, ℕ, List};
ghost use Rattle.kernel_values.specs.declared.flags.Events.{Events};
ghost use Rattle.kernel_values.specs.declared.flags.PortFlags.{PortFlags};
ghost use Rattle.kernel_values.specs.declared.scene.Manifest.{Manifest};
ghost use Rattle.kernel_values.specs.declared.state.CoreState.{CoreState};
ghost use Rattle.kernel_types.specs.Sweep.{sweep};
ghost use Rattle.count_laws.specs.Dropping.{AllNamed, Drops, IsLeft, Ranked, dropped};
ghost use Rattle.count_laws.specs.Thinning.{Exact, Fit, NamedThere, thinned};
ghost use Rattle.count_laws.specs.WorkedSweep.{after_sweep, before_sweep};

/// Where the objects that bear some marks, thinned to them, are exactly those that an entry names, and no
/// object names what ranks as high, they are what the sweep leaves.
pub fn counting_is_reaching()
    ensures { (marked : List ℕ) (c : CoreState) → Fit c → Exact (thinned marked c) → sweep c ≡ thinned marked c }
{}

/// What is left of a state as objects are dropped is the state thinned to the objects that are left, whichever
/// object is dropped next.
pub fn dropping_thins()
    ensures { (s c : CoreState) (object : ℕ) → Fit s → NamedThere c → IsLeft s c → IsLeft s (dropped object c) }
{}

/// In whatever order the objects that no entry names are dropped: where each that is left is named, what is
/// left is what the sweep leaves.
pub fn dropping_ends_in_the_sweep()
    ensures { (s c : CoreState) → Fit s → Ranked s → NamedThere s → Drops s c → AllNamed c → c ≡ sweep s }
{}

/// A sweep, worked: with the ends of an application that ended go the server end that was pending for one of them and its entry
/// in the port's list, the peer of the other is Disconnected, and a set goes with what it alone names.
pub fn worked_sweep()
    ensures { (manifest : Manifest) (path : List ℕ) (flags : PortFlags) (mask : Events) → sweep (before_sweep manifest path flags mask) ≡ after_sweep manifest path flags }
{}
