//! The events of the model, as the told events of sets.

ghost use Rattle.std.specs.Prelude.{◌≡◌, ◌<◌, ◌==◌, not, ℕ, List, is_some};
ghost use Rattle.std.specs.List.{list_any};
ghost use Rattle.kernel_values.specs.declared.state.CoreState.{CoreState};
ghost use Rattle.kernel_values.specs.declared.state.WaitOn.TheVariants as wait_on;
ghost use Rattle.kernel_types.specs.Reports.{report_of, has_events};
ghost use Rattle.kernel_types.specs.Tables.{table_of};
ghost use Rattle.kernel_values.specs.declared.state.Object.{Object};
ghost use Rattle.kernel_types.specs.Events.{events_of, events_within};
ghost use Rattle.set_laws.specs.Chains.{HasShortChains};
ghost use Rattle.handle_set.specs.declared.settle.OpenSet.{OpenSet};
ghost use Rattle.handle_set.specs.Sets.{IsOfSets, IsRanked, IsExact, IsUpToDate, LeavesFollow, Follows, OnlyChanges, set_told};
ghost use Rattle.kernel_values.specs.declared.flags.Events.{Events};
ghost use Rattle.std.specs.Prelude.{map};
ghost use Rattle.ready_laws.specs.Standing.{StandsFor};

use handle_set::settle::exact_sets_follow;
use set_laws::chains::looking_further_sees_no_more;

/// The events of the model give each set READY exactly where a member's object has an event of its mask.
pub fn model_events_are_of_sets()
    ensures { (objects : List Object) (sets : List OpenSet) → HasShortChains objects → StandsFor objects sets → IsOfSets (events_of objects) sets }
{
    looking_further_sees_no_more();
}

/// Where no chain of sets has more than 8, the sets are ranked by their depth.
pub fn short_chains_are_ranks()
    ensures { (objects : List Object) (sets : List OpenSet) → HasShortChains objects → StandsFor objects sets → IsRanked sets }
{}

/// Exact sets that stand for those of a state, and were told the events of all else, have all told events
/// by the state: so each set's ready members are exactly those with a masked event.
pub fn exact_sets_have_the_models_events()
    ensures { (objects : List Object) (sets : List OpenSet) → HasShortChains objects → StandsFor objects sets → IsExact sets → LeavesFollow (events_of objects) sets → Follows (events_of objects) sets }
{
    model_events_are_of_sets();
    short_chains_are_ranks();
    exact_sets_follow();
}

/// Sets that were told the events of all but one object are told those of all, once that one's are told.
pub fn telling_makes_leaves_follow()
    ensures { (before now : ℕ → ℕ) (old new : List OpenSet) (object : ℕ) (events : Events) → LeavesFollow before old → now object ≡ events.0 → OnlyChanges object before now old → IsUpToDate (map (set_told object events) old) new → LeavesFollow now new }
{}

/// A wait for an object has something to report exactly where the object has an event.
pub fn object_waits_report_events()
    ensures { (c : CoreState) (app id handle cookie : ℕ) → HasShortChains c.objects → is_some (report_of c app (wait_on.Object id handle cookie)) ≡ not (events_of c.objects id == 0) }
{
    looking_further_sees_no_more();
}

/// A `waitany` has something to report exactly where an entry of the table has an event.
pub fn table_waits_report_events()
    ensures { (c : CoreState) (app : ℕ) → is_some (report_of c app wait_on.Any) ≡ list_any (has_events c.objects) (table_of c app) }
{}
