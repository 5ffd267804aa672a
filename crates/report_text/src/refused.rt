//! Why a report was not printed to its end.

ghost use Rattle.std.specs.Prelude.{◌≡◌};

use kernel_types::values::NoMemory;
use outside_io::Failed;

/// Why a report was not printed to its end. A front of it was written.
#[derive(Clone, Copy, PartialEq, Eq, Debug)]
pub enum PrintRefused {
    /// A write of the sink failed.
    Failed,
    /// A growth was refused for want of memory.
    NoMemory,
}

impl From<NoMemory> for PrintRefused {
    ghost use Rattle.report_text.specs.declared.refused.PrintRefused.{PrintRefused};

    ghost from_gives = { λ _ refused. refused ≡ PrintRefused.NoMemory };

    fn from(_refused: NoMemory) -> PrintRefused {
        PrintRefused::NoMemory
    }
}

impl From<Failed> for PrintRefused {
    ghost use Rattle.report_text.specs.declared.refused.PrintRefused.{PrintRefused};

    ghost from_gives = { λ _ refused. refused ≡ PrintRefused.Failed };

    fn from(_refused: Failed) -> PrintRefused {
        PrintRefused::Failed
    }
}
