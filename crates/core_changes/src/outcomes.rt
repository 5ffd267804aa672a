//! What a call or the end of a wait comes to, beside the state.

ghost use Rattle.std.specs.Prelude.{◌≡◌};
ghost use Rattle.core_changes.specs.Outcomes.{told_gives, told_gives_with, told_refuses, told_waits};

use kernel_values::{Answer, Errno, Reply, Seqs};

/// An answer, and which messages were sent, opened and retired.
#[derive(Debug, Drop)]
pub struct CallOutcome {
    pub answer: Answer,
    pub seqs: Seqs,
}

const NO_SEQS: Seqs = Seqs {
    sent: None,
    opened: None,
    retired: None,
};

/// A reply, and no message.
pub fn gives(reply: Reply) -> CallOutcome
    ensures { result ≡ told_gives reply }
{
    gives_with(reply, NO_SEQS)
}

/// A reply, with the messages that were sent, opened and retired.
pub fn gives_with(reply: Reply, seqs: Seqs) -> CallOutcome
    ensures { result ≡ told_gives_with reply seqs }
{
    CallOutcome {
        answer: Answer::Gives(reply),
        seqs,
    }
}

/// A refusal, which changes no message.
pub fn refuses(errno: Errno) -> CallOutcome
    ensures { result ≡ told_refuses errno }
{
    CallOutcome {
        answer: Answer::Refuses(errno),
        seqs: NO_SEQS,
    }
}

/// No answer yet: the thread waits.
pub fn waits() -> CallOutcome
    ensures { result ≡ told_waits }
{
    CallOutcome {
        answer: Answer::Waits,
        seqs: NO_SEQS,
    }
}
