//! The manifest that a JSON value is.

ghost use Rattle.std.specs.Prelude.{◌≡◌};
ghost use Rattle.serde_json.specs.View.{view};
ghost use Rattle.uuid.specs.Text.{parsed};
ghost use Rattle.app_manifest.specs.Manifests.{Reads, uuid_in, mgmt_flags_in, manifest_in};

use crate::faults::ManifestFault;
use crate::flags::truths_or_missing;
use crate::ports::start_ports_of;
use kernel_values::Manifest;
use serde_json::Value;
use std::alloc::Global;
use uuid::Uuid;

// In any of the spellings that the crate uuid reads.
fn parsed(text: &str) -> Option<Uuid>
    ensures { result ≡ parsed text.now }
{
    match Uuid::parse_str(text) {
        Ok(uuid) => Some(uuid),
        Err(_) => None,
    }
}

#[tactic(auto, unfolding(crate::specs::Manifests::uuid_in))]
fn uuid_of(manifest: &Value) -> Option<u128>
    ensures { result ≡ uuid_in (view manifest.now) }
{
    let text = manifest.get("uuid")?.as_str()?;
    let uuid = parsed(text)?;
    Some(uuid.as_u128())
}

#[tactic(auto, unfolding(crate::specs::Manifests::mgmt_flags_in))]
fn mgmt_flags_of(manifest: &Value) -> Option<(bool, bool)>
    ensures { result ≡ mgmt_flags_in (view manifest.now) }
{
    truths_or_missing(
        "restart_on_exit",
        "deferred_start",
        manifest.get("mgmt_flags"),
    )
}

/// The manifest that the value is, or the first fault. The UUID is a number with the high byte first.
#[tactic(auto, unfolding(crate::specs::Manifests::manifest_in))]
pub fn manifest_of(alloc: Global, value: &Value) -> Result<Manifest, ManifestFault>
    ensures { Reads result (manifest_in (view value.now)) }
{
    if !value.is_object() {
        return Err(ManifestFault::NotObject);
    }
    let Some(uuid) = uuid_of(value) else {
        return Err(ManifestFault::Uuid);
    };
    let Some((restart, deferred)) = mgmt_flags_of(value) else {
        return Err(ManifestFault::MgmtFlags);
    };
    let ports = start_ports_of(alloc, value)?;
    Ok(Manifest {
        uuid,
        restart,
        deferred,
        ports,
    })
}
