//! Streams without a message.

ghost use Rattle.std.specs.Prelude.{◌≡◌, [], List, Err};
ghost use Rattle.vhost_backend_req_handler.specs.Core.{endpoint_of, session_in};
ghost use Rattle.vhost_frontend_req_handler.specs.Core.{endpoint_of as endpoint_back, server_in};
ghost use Rattle.vhost_link.specs.declared.plain.PlainHandle.{PlainHandle};
ghost use Rattle.vhost_message.specs.BackendReq.{backend_request_of};
ghost use Rattle.vhost_protocol.specs.Codes.{allows_handles};
ghost use Rattle.vhost_protocol.specs.Error.{Error as Refusal, Disconnected, InvalidMessage, PartialMessage};
ghost use Rattle.vhost_protocol.specs.Reverse.{backend_allows_handles};
ghost use Rattle.vhost_protocol.specs.Session.{heard_in};
ghost use Rattle.vhost_protocol.specs.Split.{split};
ghost use Rattle.vhost_protocol.specs.Stream.{Cell, plain};
ghost use Rattle.vhost_connection.specs.Memory.{stream};
ghost use Rattle.vhost_promises.specs.Streams.{Refuses, in_header, in_body, in_body_back, other_version, other_version_back};

use vhost_backend_req_handler::SessionCore;
use vhost_connection::talks_law;
use vhost_device::VhostUserBackendReqHandlerMut;
use vhost_frontend_req_handler::{FrontendReqCore, VhostUserFrontendReqHandlerMut};
use vhost_link::{MemLink, PlainHandle};
use vhost_message::Result;

/// Serves one request where the stream has none, over every device and however the link splits it. It answers the error that the
/// definitions make of this stream, leaves what they leave of it, writes nothing, and changes neither session nor device.
///
/// InvalidMessage: the stream ends inside a body, or it begins with a header of another version. PartialMessage: it ends inside a header.
/// Disconnected: it is empty. This is so unless the answer is an error that a link or a failed allocation may bring.
pub fn finds_none<D: VhostUserBackendReqHandlerMut<Link = MemLink>>(
    core: &mut SessionCore<MemLink>,
    device: &mut D,
) -> Result<()>
    ensures known { (e : Refusal) (rest : List (Cell PlainHandle)) → split (heard_in (session_in core.old)) allows_handles (stream (endpoint_of core.old)) ≡ (Err e, rest)
        → Refuses (session_in core.old).failed e rest (endpoint_of core.old) (session_in core.old) device.old result (endpoint_of core.new) (session_in core.new) device.new }
    ensures body { stream (endpoint_of core.old) ≡ plain in_body
        → Refuses (session_in core.old).failed InvalidMessage [] (endpoint_of core.old) (session_in core.old) device.old result (endpoint_of core.new) (session_in core.new) device.new }
    ensures header { stream (endpoint_of core.old) ≡ plain in_header
        → Refuses (session_in core.old).failed PartialMessage [] (endpoint_of core.old) (session_in core.old) device.old result (endpoint_of core.new) (session_in core.new) device.new }
    ensures end { stream (endpoint_of core.old) ≡ []
        → Refuses (session_in core.old).failed Disconnected [] (endpoint_of core.old) (session_in core.old) device.old result (endpoint_of core.new) (session_in core.new) device.new }
    ensures version { stream (endpoint_of core.old) ≡ plain other_version
        → Refuses (session_in core.old).failed InvalidMessage [] (endpoint_of core.old) (session_in core.old) device.old result (endpoint_of core.new) (session_in core.new) device.new }
{
    talks_law();
    core.handle_request(device)
}

/// The same of a device's requests to its frontend.
pub fn finds_none_back<D: VhostUserFrontendReqHandlerMut<Handle = PlainHandle>>(
    core: &mut FrontendReqCore<MemLink>,
    device: &mut D,
) -> Result<u64>
    ensures known { (e : Refusal) (rest : List (Cell PlainHandle)) → split backend_request_of backend_allows_handles (stream (endpoint_back core.old)) ≡ (Err e, rest)
        → Refuses (server_in core.old).failed e rest (endpoint_back core.old) (server_in core.old) device.old result (endpoint_back core.new) (server_in core.new) device.new }
    ensures body { stream (endpoint_back core.old) ≡ plain in_body_back
        → Refuses (server_in core.old).failed InvalidMessage [] (endpoint_back core.old) (server_in core.old) device.old result (endpoint_back core.new) (server_in core.new) device.new }
    ensures header { stream (endpoint_back core.old) ≡ plain in_header
        → Refuses (server_in core.old).failed PartialMessage [] (endpoint_back core.old) (server_in core.old) device.old result (endpoint_back core.new) (server_in core.new) device.new }
    ensures end { stream (endpoint_back core.old) ≡ []
        → Refuses (server_in core.old).failed Disconnected [] (endpoint_back core.old) (server_in core.old) device.old result (endpoint_back core.new) (server_in core.new) device.new }
    ensures version { stream (endpoint_back core.old) ≡ plain other_version_back
        → Refuses (server_in core.old).failed InvalidMessage [] (endpoint_back core.old) (server_in core.old) device.old result (endpoint_back core.new) (server_in core.new) device.new }
{
    talks_law();
    core.handle_request(device)
}
