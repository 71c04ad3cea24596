//! Whole messages of an endpoint.

ghost use Rattle.std.specs.Prelude.{◌+◌, ◌++◌, ◌≤◌, [], IfOk, length};
ghost use Rattle.vhost_connection.specs.Pass.{WentAtOnce};
ghost use Rattle.vhost_connection.specs.State.{state};
ghost use Rattle.vhost_message.specs.Header.{header_text};
ghost use Rattle.vhost_message.specs.MsgHeader.{fields_of};
ghost use Rattle.vhost_message.specs.Records.{config_text};
ghost use Rattle.vhost_message.specs.declared.limits.TheConstants.{MAX_MSG_SIZE};
ghost use Rattle.vhost_protocol.specs.Stream.{carrying};

use vhost_connection::Endpoint;
use vhost_link::Link;
use vhost_message::{HeardReq, Result, VhostUserConfig, VhostUserMsgHeader};

/// Sends bytes of the configuration space behind their header and record. Where they fit and the link makes no short write, the whole
/// message goes out by one call of the link, with nothing before it but retries.
pub fn sends_in_one<L: Link>(
    endpoint: &mut Endpoint<VhostUserMsgHeader<HeardReq>, L>,
    header: &VhostUserMsgHeader<HeardReq>,
    part: &VhostUserConfig,
    bytes: &[u8],
) -> Result<()>
    ensures { 12 + length bytes.now ≤ MAX_MSG_SIZE → L.takes_all (state endpoint.old).link → IfOk result (λ _. WentAtOnce L.event (state endpoint.old).link (carrying [] (header_text (fields_of header.now) ++ config_text part.now ++ bytes.now)) (state endpoint.new).link) }
{
    endpoint.send_message_with_payload(header, part, bytes, &[])
}
