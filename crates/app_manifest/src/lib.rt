//! Manifests: what an application is registered with, as JSON.
//!
//! ```json
//! {"uuid": "11111111-2222-3333-4444-555555555555",
//!  "mgmt_flags": {"restart_on_exit": true, "deferred_start": true},
//!  "start_ports": [{"name": "svc", "flags": {"allow_ta_connect": true, "allow_ns_connect": false}}]}
//! ```
//!
//! Only `uuid` must be there, and the `name` of a start port. Other members are of no matter. Of equal
//! keys the last counts.
#![tactic(auto)]

mod faults;
mod flags;
mod manifest;
mod ports;
mod text;

pub use crate::faults::ManifestFault;
pub use crate::manifest::manifest_of;
pub use crate::text::{manifests_are_lawful, read_manifest};
