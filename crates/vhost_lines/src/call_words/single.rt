//! Calls of one argument. Each is none where there is another count of arguments, or where the one is none.

ghost use Rattle.std.specs.Prelude.{◌≡◌};
ghost use Rattle.vhost_protocol.specs.FrontendCall as value;
ghost use Rattle.vhost_lines.specs.Arguments.{protocol_features, header_flags, handle, request, object_name};
ghost use Rattle.vhost_lines.specs.Number.{u64, u16};
ghost use Rattle.vhost_lines.specs.Read.{called, texts};
ghost use Rattle.vhost_lines.specs.Shapes.{one};

use crate::call_words::argument::{handle, header_flags, object_name, protocol_features, request};
use crate::call_words::number::{index, number, number_16};
use vhost_frontend_core::FrontendCall;

/// Virtio features to accept.
#[tactic(auto, using(crate::proofs::OtherCounts::not_one))]
pub(crate) fn set_features(args: &[&str]) -> Option<FrontendCall>
    ensures { called result ≡ one u64 value.SetFeatures (texts args.now) }
{
    let [word] = args else { return None };
    Some(FrontendCall::SetFeatures(number(word)?))
}

/// Protocol features to accept.
pub(crate) fn set_protocol_features(args: &[&str]) -> Option<FrontendCall>
    ensures { called result ≡ one protocol_features value.SetProtocolFeatures (texts args.now) }
{
    let [word] = args else { return None };
    Some(FrontendCall::SetProtocolFeatures(protocol_features(word)?))
}

/// The ring that is stopped.
#[tactic(auto, using(crate::proofs::OtherCounts::not_one))]
pub(crate) fn get_vring_base(args: &[&str]) -> Option<FrontendCall>
    ensures { called result ≡ one u64 value.GetVringBase (texts args.now) }
{
    let [word] = args else { return None };
    Some(FrontendCall::GetVringBase(index(word)?))
}

/// The descriptor by which the backend signals that it logged.
#[tactic(auto, using(crate::proofs::OtherCounts::not_one))]
pub(crate) fn set_log_fd(args: &[&str]) -> Option<FrontendCall>
    ensures { called result ≡ one handle value.SetLogFd (texts args.now) }
{
    let [word] = args else { return None };
    Some(FrontendCall::SetLogFd(handle(word)?))
}

/// The socket of the backend's own requests.
#[tactic(auto, using(crate::proofs::OtherCounts::not_one))]
pub(crate) fn set_backend_request_fd(args: &[&str]) -> Option<FrontendCall>
    ensures { called result ≡ one handle value.SetBackendRequestFd (texts args.now) }
{
    let [word] = args else { return None };
    Some(FrontendCall::SetBackendRequestFd(handle(word)?))
}

/// The name of a shared object.
#[tactic(auto, using(crate::proofs::OtherCounts::not_one))]
pub(crate) fn get_shared_object(args: &[&str]) -> Option<FrontendCall>
    ensures { called result ≡ one object_name value.GetSharedObject (texts args.now) }
{
    let [word] = args else { return None };
    Some(FrontendCall::GetSharedObject(object_name(word)?))
}

/// The request that brought the regions.
pub(crate) fn postcopy_ack_mem_regions(args: &[&str]) -> Option<FrontendCall>
    ensures { called result ≡ one request value.PostcopyAckMemRegions (texts args.now) }
{
    let [word] = args else { return None };
    Some(FrontendCall::PostcopyAckMemRegions(request(word)?))
}

/// The greatest size of a packet, in bytes.
#[tactic(auto, using(crate::proofs::OtherCounts::not_one))]
pub(crate) fn set_mtu(args: &[&str]) -> Option<FrontendCall>
    ensures { called result ≡ one u16 value.SetMtu (texts args.now) }
{
    let [word] = args else { return None };
    Some(FrontendCall::SetMtu(number_16(word)?))
}

/// The flags of each request from then on.
pub(crate) fn set_hdr_flags(args: &[&str]) -> Option<FrontendCall>
    ensures { called result ≡ one header_flags value.SetHdrFlags (texts args.now) }
{
    let [word] = args else { return None };
    Some(FrontendCall::SetHdrFlags(header_flags(word)?))
}
