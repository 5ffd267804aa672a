//! Values that keep the history that led to them.

ghost use Rattle.std.specs.Prelude.{◌≡◌, List, length};
ghost use Rattle.kernel_values.specs.Origin.{Origin};
ghost use Rattle.kernel_values.specs.declared.entry.Entry.{Entry};

/// A value that stands for an origin and for the history that began there. No step changes the origin.
pub trait Recorded {
    /// The entries so far.
    ghost history: { Self → List Entry };

    /// Where the history began.
    ghost origin: { Self → Origin };

    /// How many entries the history has.
    fn recorded(&self) -> u64
        ensures { result ≡ length (history self.now) };
}
