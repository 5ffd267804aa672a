//! Start ports.

ghost use Rattle.std.specs.Prelude.{◌≡◌, IfOk, option_map};
ghost use Rattle.std.specs.List.{list_all};
ghost use Rattle.kernel_values.specs.Words.{is_path, is_printable};
ghost use Rattle.serde_json.specs.View.{view, items_view};
ghost use Rattle.app_manifest.specs.Manifests.{Reads, path_in, port_bits, port_flags_in, start_port_in, ports_in, start_ports_in};

use crate::faults::ManifestFault;
use crate::flags::truths_or_missing;
use kernel_values::{Bytes, Items, NoMemory, PortFlags, StartPort, StartPortList};
use serde_json::Value;
use std::alloc::Global;

// An application has at most so many start ports.
const MOST_PORTS: usize = 8;

fn is_printable(byte: u8) -> bool
    ensures { result ≡ is_printable byte }
{
    0x21 <= byte && byte <= 0x7E
}

fn all_printable(bytes: &[u8]) -> bool
    ensures { result ≡ list_all is_printable bytes.now }
{
    bytes.iter().all(|byte| is_printable(*byte))
}

fn is_path(bytes: &[u8]) -> bool
    ensures { result ≡ is_path bytes.now }
{
    match bytes {
        [] => false,
        _ => all_printable(bytes) && bytes.len() < 64,
    }
}

#[tactic(auto, unfolding(crate::specs::Manifests::path_in))]
fn path_of(port: &Value) -> Option<&str>
    ensures { option_map (λ path. path.now) result ≡ path_in (view port.now) }
{
    let name = port.get("name")?.as_str()?;
    if is_path(name.as_bytes()) {
        Some(name)
    } else {
        None
    }
}

fn port_bits(flags: (bool, bool)) -> u32
    ensures { result ≡ port_bits flags }
{
    (if flags.0 { 1 } else { 0 }) + (if flags.1 { 2 } else { 0 })
}

#[tactic(auto, unfolding(crate::specs::Manifests::port_flags_in))]
fn port_flags_of(port: &Value) -> Option<u32>
    ensures { result ≡ port_flags_in (view port.now) }
{
    let flags = truths_or_missing("allow_ta_connect", "allow_ns_connect", port.get("flags"))?;
    Some(port_bits(flags))
}

#[tactic(auto, unfolding(crate::specs::Manifests::start_port_in))]
fn start_port_of(alloc: Global, port: &Value) -> Result<Option<StartPort>, NoMemory>
    ensures { IfOk result (λ port_read. port_read ≡ start_port_in (view port.now)) }
{
    let Some(path) = path_of(port) else {
        return Ok(None);
    };
    let Some(bits) = port_flags_of(port) else {
        return Ok(None);
    };
    Ok(Some(StartPort {
        path: Bytes::from_slice(alloc, path.as_bytes())?,
        flags: PortFlags(bits),
    }))
}

fn ports_of(alloc: Global, values: &[Value]) -> Result<StartPortList, ManifestFault>
    ensures { Reads result (ports_in 0 (items_view values.now)) }
{
    let mut ports = Items::new(alloc);
    for (number, value) in values.iter().enumerate() {
        if number >= MOST_PORTS {
            return Err(ManifestFault::StartPorts(MOST_PORTS as u32));
        }
        let Some(port) = start_port_of(alloc, value)? else {
            return Err(ManifestFault::StartPorts(number as u32));
        };
        ports.push(port)?;
    }
    Ok(ports)
}

/// The start ports that the manifest names.
#[tactic(auto, unfolding(crate::specs::Manifests::start_ports_in))]
pub fn start_ports_of(alloc: Global, manifest: &Value) -> Result<StartPortList, ManifestFault>
    ensures { Reads result (start_ports_in (view manifest.now)) }
{
    let Some(value) = manifest.get("start_ports") else {
        return Ok(Items::new(alloc));
    };
    let Some(values) = value.as_array() else {
        return Err(ManifestFault::StartPorts(MOST_PORTS as u32));
    };
    ports_of(alloc, values.as_slice())
}
