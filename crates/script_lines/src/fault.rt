//! What can be wrong with a scene.

ghost use Rattle.std.specs.Prelude.{◌≡◌};
ghost use Rattle.script_lines.specs.Kinds.{kind_text};
ghost use Rattle.script_lines.specs.declared.fault.LineRefused.TheVariants as line;
ghost use Rattle.script_lines.specs.declared.fault.SceneRefused.TheVariants as scene;

use kernel_values::NoMemory;
use std::alloc::{AllocError, AllocFailed};
use thiserror::Error;

/// The kinds of faults, in the order in which they are looked for on one line.
#[derive(Clone, Copy, PartialEq, Eq, Debug, Error)]
pub enum SceneKind {
    /// A byte that is neither a tab nor 0x20 to 0x7E.
    #[error("bad byte")]
    BadByte,
    /// The first line that is not skipped is not `scene 1`; line 0 where there is no such line.
    #[error("no header")]
    NoHeader,
    /// The first word begins no line of a scene.
    #[error("unknown word")]
    UnknownWord,
    /// The line may not stand where it stands.
    #[error("out of place")]
    OutOfPlace,
    /// A word is missing, one word too many, not of its form, or a number that is not allowed there.
    #[error("bad words")]
    BadWords,
    /// The rest of an `app` line is no JSON, or no manifest.
    #[error("bad manifest")]
    BadManifest,
    /// The name of an application or a client, or the path of a start port, was there before.
    #[error("name taken")]
    NameTaken,
    /// The line passes a limit; lines in a repeat count at its `end`.
    #[error("too many")]
    TooMany,
    /// The text ends in a repeat. The line is that of the `repeat`.
    #[error("open repeat")]
    OpenRepeat,
}

impl SceneKind {
    /// The words in which a refusal tells the kind.
    pub fn text(&self) -> &'static [u8]
        ensures { result.now ≡ kind_text self.now }
    {
        match self {
            SceneKind::BadByte => b"bad byte",
            SceneKind::NoHeader => b"no header",
            SceneKind::UnknownWord => b"unknown word",
            SceneKind::OutOfPlace => b"out of place",
            SceneKind::BadWords => b"bad words",
            SceneKind::BadManifest => b"bad manifest",
            SceneKind::NameTaken => b"name taken",
            SceneKind::TooMany => b"too many",
            SceneKind::OpenRepeat => b"open repeat",
        }
    }
}

/// The first fault of a text. Lines count from 1.
#[derive(Clone, Copy, PartialEq, Eq, Debug, Error)]
#[error("line {line}: {kind}")]
pub struct SceneFault {
    pub kind: SceneKind,
    pub line: u32,
}

/// Why no scene was read.
#[derive(Clone, Copy, PartialEq, Eq, Debug, Error)]
pub enum SceneRefused {
    #[error("{0}")]
    Fault(SceneFault),
    #[error("no memory")]
    NoMemory,
}

/// Why a line, or a word of it, was not read.
#[derive(Clone, Copy)]
pub enum LineRefused {
    Fault(SceneKind),
    NoMemory,
}

impl From<NoMemory> for LineRefused {
    ghost from_gives = { λ _ refused. refused ≡ line.NoMemory };

    fn from(_refused: NoMemory) -> LineRefused {
        LineRefused::NoMemory
    }
}

impl From<AllocError> for LineRefused {
    ghost from_gives = { λ _ refused. refused ≡ line.NoMemory };

    fn from(_refused: AllocError) -> LineRefused {
        LineRefused::NoMemory
    }
}

impl<T: Drop> From<AllocFailed<T>> for LineRefused {
    ghost from_gives = { λ _ refused. refused ≡ line.NoMemory };

    fn from(_refused: AllocFailed<T>) -> LineRefused {
        LineRefused::NoMemory
    }
}
