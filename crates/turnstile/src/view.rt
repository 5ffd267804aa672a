//! What a pass knows. No value of it is made: it exists in proofs alone.
ghost use Rattle.std.specs.Prelude.{ℕ, Bool, List, Option};
ghost use Rattle.std.specs.Borrow.{ftrue};
ghost use Rattle.kernel_values.specs.declared.entry.Entry.{Entry};
ghost use Rattle.kernel_values.specs.Origin.{Origin};

use std::marker::Model;

/// What the holder of a pass has seen and done.
pub struct View {
    /// The history as far as it was seen.
    pub ghost seen: { List Entry },
    /// The history has at least this many entries.
    pub ghost known: { ℕ },
    /// The places of the entries that were added with this pass.
    pub ghost mine: { List ℕ },
    /// How many single tries found the turn held.
    pub ghost tries: { ℕ },
    /// The word that the last such try read.
    pub ghost last: { ℕ },
    /// The number of the pass.
    pub ghost number: { Option ℕ },
    /// How often it got the turn.
    pub ghost turns: { ℕ },
    /// How many numbers were drawn, when that was read last.
    pub ghost drawn: { ℕ },
    /// The numbers of the passes that were joined into this one.
    pub ghost joined: { List ℕ },
    /// What it and the passes joined into it had seen before each join.
    pub ghost olds: { List (List Entry) },
    /// It has the turn and has read the value's history.
    pub ghost loaded: { Bool },
    /// Where the history began.
    pub ghost origin: { Origin },
    /// How many passes there may be.
    pub ghost seats: { ℕ },
    /// It has the turn.
    pub ghost has_turn: { Bool },
    /// It has the slot that the value lies in.
    pub ghost opens: { Bool },
    /// It was joined into another.
    pub ghost spent: { Bool },
}

impl Model for View {
    ghost also_owns = { λ _. ftrue };
}
