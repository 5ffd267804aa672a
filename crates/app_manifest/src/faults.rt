use kernel_values::NoMemory;
use std::alloc::{AllocError, AllocFailed};
use thiserror::Error;

/// Why a JSON value is no manifest: the first in this order that holds.
#[derive(Clone, Copy, Debug, PartialEq, Eq, Error)]
pub enum ManifestFault {
    /// The value is no object.
    #[error("not an object")]
    NotObject,
    /// `uuid` is missing, or no text of a UUID.
    #[error("no UUID")]
    Uuid,
    /// `mgmt_flags` is no object, or one of its flags is no truth value.
    #[error("bad management flags")]
    MgmtFlags,
    /// `start_ports` is no array (then it carries 8), or has a bad start port: it carries the place,
    /// from 0, of the first bad one among the first 8, and 8 where these are good and more follow.
    #[error("bad start port {0}")]
    StartPorts(u32),
    /// Memory ran out.
    #[error("out of memory")]
    NoMemory,
}

impl From<NoMemory> for ManifestFault {
    ghost use Rattle.std.specs.Prelude.{◌≡◌};
    ghost use Rattle.app_manifest.specs.declared.faults.ManifestFault.{ManifestFault};
    ghost use Rattle.app_manifest.specs.declared.faults.ManifestFault.TheVariants as faults;

    ghost from_gives = { λ _ fault. fault ≡ faults.NoMemory };

    fn from(_refused: NoMemory) -> ManifestFault {
        ManifestFault::NoMemory
    }
}
