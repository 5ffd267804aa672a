//! Objects fit together in every state of every history, so peers are mutual there.

ghost use Rattle.std.specs.Prelude.{List, Option};
ghost use Rattle.kernel_values.specs.SceneLaw.{SceneValue};
ghost use Rattle.kernel_values.specs.declared.call.Call.{Call};
ghost use Rattle.kernel_values.specs.declared.entry.Entry.{Entry};
ghost use Rattle.kernel_values.specs.declared.state.CoreState.{CoreState};
ghost use Rattle.kernel_types.specs.History.{state_after};
ghost use Rattle.kernel_types.specs.Opening.{opening};
ghost use Rattle.step_laws.specs.Walks.{CoreChange, Row, after_core};
ghost use Rattle.fit_laws.specs.Fitting.{FittingCore};
ghost use Rattle.fit_laws.specs.Peers.{HasMutualPeers};
ghost use Rattle.fit_laws.specs.Sweeps.{BeforeSweeps, IsReady};

/// Every change of which steps are made keeps the objects fitting, so they fit in the middle of a step too.
pub fn changes_keep_fitting()
    ensures { (asked : Option Call) (c : CoreState) (change : CoreChange asked c) → FittingCore c → FittingCore (after_core asked c change) }
{}

/// In every history from an opening state the objects fit.
pub fn histories_fit()
    ensures { (scene : SceneValue) (entries : List Entry) → FittingCore (state_after (opening scene) entries).core }
{}

/// In every history from an opening state peers are mutual. The peer of a Connecting or Connected end is there, has it as its
/// peer and is in the same state, and different ends have different peers. A pending server end and its client are both there
/// and Connecting, and it stands in one pending list, once.
pub fn peers_are_mutual()
    ensures { (scene : SceneValue) (entries : List Entry) → HasMutualPeers (state_after (opening scene) entries).core }
{}

/// In every history from an opening state, whatever changes go on from there: before each sweep of them the state meets all that
/// a sweep by counts asks for. Each step is a row of such changes, so each of its sweeps may be made by counts.
pub fn sweeps_may_be_made_by_counts()
    ensures { (scene : SceneValue) (entries : List Entry) (asked : Option Call) (d : CoreState) (row : Row (CoreChange asked) (after_core asked) (state_after (opening scene) entries).core d)
        → BeforeSweeps IsReady asked (state_after (opening scene) entries).core d row }
{}
