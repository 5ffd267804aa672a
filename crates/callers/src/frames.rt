//! A caller of `tipc_proto`.

ghost use Rattle.std.specs.Prelude.{◌≡◌, IfSome};
ghost use Rattle.callers.specs.Asked.{path_asked};
ghost use Rattle.tipc_proto.specs.Controls.{IsControl, control_in};
ghost use Rattle.tipc_proto.specs.declared.controls.Control.TheVariants.{ConnReq};

use tipc_proto::{Control, PathName, control_of};

/// The path that a control message asks a connection to. `None` exactly where the payload is no such request.
pub fn asked_path(payload: &[u8]) -> Option<PathName>
    ensures asks { IfSome result (λ path. IsControl payload.now (ConnReq path)) }
    ensures exact { result ≡ path_asked (control_in payload.now) }
{
    match control_of(payload) {
        Ok(Control::ConnReq { path }) => Some(path),
        Ok(Control::GoOnline) => None,
        Ok(Control::GoOffline) => None,
        Ok(Control::ConnRsp { .. }) => None,
        Ok(Control::DiscReq { .. }) => None,
        Err(_) => None,
    }
}
