//! `port`: a port is published.

ghost use Rattle.std.specs.Prelude.{◌≡◌, IfOk, OnErr};
ghost use Rattle.kernel_types.specs.Ports.{is_lawful_port, port_create};
ghost use Rattle.core_changes.specs.Outcomes.{outcome};

use crate::paths::is_lawful_path;
use core_changes::CoreChanges;
use core_changes::outcomes::{CallOutcome, gives, refuses};
use kernel_values::{Bytes, Errno, NoMemory, PortFlags, Reply};

fn is_lawful_port(path: &[u8], bufs: u32, size: u32) -> bool
    ensures { result ≡ is_lawful_port path.now bufs size }
{
    is_lawful_path(path) && (1 <= bufs && bufs <= 32) && (1 <= size && size <= 4096)
}

/// Publishes a port of `bufs` buffers of `size` bytes.
#[tactic(auto, unfolding(kernel_types::specs::Ports::port_create))]
pub fn port_create_call<C: CoreChanges>(
    core: &mut C,
    app: u32,
    path: &Bytes,
    bufs: u32,
    size: u32,
    flags: PortFlags,
) -> Result<CallOutcome, NoMemory>
    ensures ok { IfOk result (λ told. outcome told (C.state core.new) ≡ port_create (C.state core.old) app path.now bufs size flags) }
    ensures err { OnErr result (C.state core.new ≡ C.state core.old) }
{
    if !is_lawful_port(path.as_slice(), bufs, size) {
        return Ok(refuses(Errno::InvalidArgs));
    }
    if core.is_published(path) {
        return Ok(refuses(Errno::AlreadyExists));
    }
    if core.is_full(app) {
        return Ok(refuses(Errno::NoResources));
    }
    let handle = core.publish(app, path, bufs, size, flags)?;
    Ok(gives(Reply::Handle(handle)))
}
