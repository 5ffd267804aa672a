//! Manifests as text.

ghost use Rattle.std.specs.Prelude.{◌≡◌, IfOk};
ghost use Rattle.std.specs.Str.{IsAscii};
ghost use Rattle.app_manifest.specs.Spelled.{manifest_text, ManifestsAreLawful};

use crate::faults::ManifestFault;
use crate::manifest::manifest_of;
use kernel_values::{Manifest, NoMemory};
use serde_json::Value;
use std::alloc::Global;

/// The manifest that the JSON text spells; `None` where it is no JSON, nests deeper than 127 levels, or
/// its value is no manifest.
#[tactic(auto, unfolding(crate::specs::Spelled::manifest_text))]
pub fn read_manifest(alloc: Global, text: &[u8]) -> Result<Option<Manifest>, NoMemory>
    requires ascii { IsAscii text.now }
    ensures { IfOk result (λ manifest. manifest ≡ manifest_text text.now) }
{
    let value = match Value::from_slice(alloc, text) {
        Ok(value) => value,
        Err(fault) => return if fault.is_memory() {
            Err(NoMemory)
        } else {
            Ok(None)
        },
    };
    match manifest_of(alloc, &value) {
        Ok(manifest) => Ok(Some(manifest)),
        Err(ManifestFault::NoMemory) => Err(NoMemory),
        Err(_) => Ok(None),
    }
}

/// A manifest that was read has at most 8 start ports, each with a lawful path and no flags but those
/// with names.
pub fn manifests_are_lawful()
    ensures { ManifestsAreLawful }
{}
