//! How objects fit together, and that this is what a sweep by counts asks of a state.

ghost use Rattle.std.specs.Prelude.{◌≡◌, ℕ, List};
ghost use Rattle.kernel_values.specs.declared.flags.Events.{Events};
ghost use Rattle.kernel_values.specs.declared.flags.MemFlags.{MemFlags};
ghost use Rattle.kernel_values.specs.declared.flags.PortFlags.{PortFlags};
ghost use Rattle.kernel_values.specs.declared.state.CoreState.{CoreState};
ghost use Rattle.kernel_types.specs.Sweep.{sweep};
ghost use Rattle.set_laws.specs.Chains.{HasShortChains};
ghost use Rattle.count_laws.specs.Dropping.{Ranked};
ghost use Rattle.count_laws.specs.Thinning.{Fit, NamedThere, thinned};
ghost use Rattle.fit_laws.specs.Fitting.{Fitting, FittingCore};
ghost use Rattle.fit_laws.specs.WorkedState.{worked};

/// Where the objects fit, a sweep may be made by counts.
pub fn fitting_fits()
    ensures { (c : CoreState) → FittingCore c → Fit c }
{}

/// Where the objects fit and no chain of sets has more than 8, each object names only what ranks lower:
/// memory references are lowest, then ends, then ports, and each set is above its members.
pub fn fitting_ranks()
    ensures { (c : CoreState) → FittingCore c → HasShortChains c.objects → Ranked c }
{}

/// What a sweep leaves fits, and so does what is left at any moment of one that is made by counts.
pub fn sweeps_keep_fitting()
    ensures swept { (c : CoreState) → FittingCore c → FittingCore (sweep c) }
    ensures thinned { (marked : List ℕ) (c : CoreState) (next : ℕ) → Fitting c.objects next → NamedThere (thinned marked c) → Fitting (thinned marked c).objects next }
{}

/// These can be met: a state with objects of each kind, a connected pair with a part under way, a pending
/// pair and a set in a set fits and is ranked.
pub fn worked_state_fits()
    ensures fits { (path : List ℕ) (flags : PortFlags) (mem : MemFlags) (mask : Events) (c : CoreState) → FittingCore (worked path flags mem mask c) }
    ensures ranked { (path : List ℕ) (flags : PortFlags) (mem : MemFlags) (mask : Events) (c : CoreState) → Ranked (worked path flags mem mask c) }
{}
