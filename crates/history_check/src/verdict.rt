//! What a check comes to.

ghost use Rattle.std.specs.Prelude.{◌≡◌, if◌then◌else◌};

/// Whether a text is the report of a history of a scene.
#[derive(Clone, Copy, PartialEq, Eq, Debug)]
pub enum Verdict {
    /// It is the report of a history with so many entries.
    Yes(u64),
    /// It is none. So many entry lines of it, and no more, are the first ones of a history.
    No(u64),
}

impl Verdict {
    /// The verdict on a text that goes along with so many entries, by whether it ends behind them as a report does.
    pub fn of(ends: bool, count: u64) -> Verdict
        ensures { result ≡ (if ends then Verdict.Yes count else Verdict.No count) }
    {
        if ends {
            Verdict::Yes(count)
        } else {
            Verdict::No(count)
        }
    }
}
