//! The forms of a report.

/// What a report tells of a history.
#[derive(Clone, Copy, PartialEq, Eq, Debug)]
pub enum Form {
    /// Every entry in order.
    History,
    /// Each actor's calls in order, with their answers.
    Actors,
    /// How many objects there are after each entry, and how many entries name one.
    Counts,
    /// How many entries there are of each kind.
    Summary,
}
