//! Whether what came has the size of the reply that is awaited.

ghost use Rattle.std.specs.Prelude.{◌≡◌, ◌≤◌};
ghost use Rattle.vhost_message.specs.Header.{header_of};
ghost use Rattle.vhost_message.specs.declared.limits.TheConstants.{MAX_MSG_SIZE as the_most, MAX_MSG_TEXT};
ghost use Rattle.vhost_protocol.specs.Take.{record_size as size_of_record};
ghost use Rattle.vhost_frontend_core.specs.Values.{call_of};
ghost use Rattle.vhost_c_frontend.specs.Incoming.{behind as list_behind, is_sized as has_size, least as least_of, missing_from as missing_of_reply};

use vhost_c_common::Incoming;
use vhost_frontend_core::{Awaited, FrontendCall};
use vhost_message::{
    HeardReq, MAX_MEM_REGIONS, MAX_MSG_SIZE, MEMORY_HEAD_SIZE, MEMORY_REGION_SIZE, MSG_HEADER_SIZE,
};
use vhost_protocol::{Profile, Shape};

/// How many bytes are known to be missing of the reply that is awaited: before its header is there, that and as much of a body
/// as each answer has. Under `Standard` its body is not waited for where the header decides that it is refused: that may never
/// come.
pub(crate) fn missing_from(
    incoming: &Incoming,
    profile: Profile,
    call: &FrontendCall,
    awaited: Awaited,
) -> usize
    ensures missing { result ≡ missing_of_reply profile (call_of call.now) awaited incoming.now }
    ensures within { result ≤ MAX_MSG_TEXT }
{
    match awaited {
        Awaited::Nobody => 0,
        _ => {
            if incoming.count < MSG_HEADER_SIZE {
                return MSG_HEADER_SIZE + least(awaited) - incoming.count;
            }
            if !profile.is_standard() {
                return incoming.missing();
            }
            if !is_sized(incoming, profile, call, awaited) {
                return 0;
            }
            incoming.missing_by::<HeardReq>(false)
        }
    }
}

/// Whether what came announces an answer of the size that this call's has. In place of bytes of the configuration space the
/// record may come alone, and under `Standard` nothing. Under `Standard` the answer about a log may have any size.
pub(crate) fn is_sized(
    incoming: &Incoming,
    profile: Profile,
    call: &FrontendCall,
    awaited: Awaited,
) -> bool
    ensures { result ≡ has_size profile (call_of call.now) awaited (header_of incoming.now.head).size }
{
    let size = incoming.size();
    match awaited {
        Awaited::Nobody => true,
        Awaited::Ack => size == 8,
        Awaited::Reply(Shape::Config) => {
            size == 12 || size == 12 + behind(call) || profile.is_standard() && size == 0
        }
        Awaited::Reply(Shape::Log) => {
            size == record_size(Shape::Log) + behind(call) || profile.is_standard()
        }
        Awaited::Reply(shape) => size == record_size(shape) + behind(call),
    }
}

/// How much of its body an answer has in any case: of configuration bytes there may be none, and the answer about a log may
/// have any size.
fn least(awaited: Awaited) -> usize
    ensures size { result ≡ least_of awaited }
    ensures within { result ≤ 2056 }
{
    match awaited {
        Awaited::Nobody | Awaited::Reply(Shape::Config) | Awaited::Reply(Shape::Log) => 0,
        Awaited::Ack => 8,
        Awaited::Reply(shape) => record_size(shape),
    }
}

/// How many bytes the record of a reply has.
fn record_size(shape: Shape) -> usize
    ensures size { result ≡ size_of_record shape }
    ensures within { result ≤ 2056 }
{
    match shape {
        Shape::Empty => 0,
        Shape::U64 | Shape::VringState => 8,
        Shape::Memory => MEMORY_HEAD_SIZE,
        Shape::SingleMemoryRegion => 40,
        Shape::ShMemConfig => 2056,
        Shape::Config => 12,
        Shape::Inflight => 24,
        Shape::Log => 16,
    }
}

/// How many bytes are behind the record of a call's reply.
fn behind(call: &FrontendCall) -> usize
    ensures size { result ≡ list_behind (call_of call.now) }
    ensures within { result ≤ the_most }
{
    match call {
        FrontendCall::SetMemTable(regions) => {
            MEMORY_REGION_SIZE * regions.len().min(MAX_MEM_REGIONS)
        }
        FrontendCall::GetConfig(_, _, _, buffer) => buffer.len().min(MAX_MSG_SIZE),
        _ => 0,
    }
}
