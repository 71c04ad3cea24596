//! The half of a call that sends, where the call is a value.

ghost use Rattle.std.specs.Prelude.{◌≡◌, length};
ghost use Rattle.vhost_message.specs.Records.{mmap_text};
ghost use Rattle.vhost_backend_req.specs.Halves.{IsProper, input_of};

use crate::call::{Asked, ReverseCall};
use crate::internal::BackendInternal;
use vhost_link::Link;
use vhost_message::{BackendReq, ByteValued, HandlerResult, VhostUserMMap, VhostUserSharedMsg};

impl<L: Link> BackendInternal<L> {
    ghost use Rattle.vhost_backend_req.specs.Channel.{channel};
    ghost use Rattle.vhost_backend_req.specs.Halves.{AsksValue};

    /// Sets a flag, or sends the request of a call. Its errors are those of the whole call before a reply is awaited.
    pub fn ask_half(&mut self, call: &ReverseCall<L::Handle>) -> HandlerResult<Asked>
        ensures asked { AsksValue L.event (input_of call.now) (channel self.old) result (channel self.new) }
        ensures proper { IsProper (input_of call.now) }
    {
        measure(call);
        let sent = match call {
            ReverseCall::SetReplyAck(on) => {
                self.set_reply_ack_flag(*on);
                return Ok(Asked::Set);
            }
            ReverseCall::SetSharedObject(on) => {
                self.set_shared_object_flag(*on);
                return Ok(Asked::Set);
            }
            ReverseCall::SetShmem(on) => {
                self.set_shmem_flag(*on);
                return Ok(Asked::Set);
            }
            ReverseCall::SetConfigChange(on) => {
                self.set_config_change_flag(*on);
                return Ok(Asked::Set);
            }
            ReverseCall::HandleConfigChange => self.send_config_change()?,
            ReverseCall::SharedObjectAdd(name) => {
                self.send_object(BackendReq::SHARED_OBJECT_ADD, name, &[])?
            }
            ReverseCall::SharedObjectRemove(name) => {
                self.send_object(BackendReq::SHARED_OBJECT_REMOVE, name, &[])?
            }
            ReverseCall::SharedObjectLookup(name, handle) => {
                self.send_object(BackendReq::SHARED_OBJECT_LOOKUP, name, &[handle])?
            }
            ReverseCall::ShmemMap(mapping, handle) => {
                self.send_mapping(BackendReq::SHMEM_MAP, mapping, &[handle])?
            }
            ReverseCall::ShmemUnmap(mapping) => {
                self.send_mapping(BackendReq::SHMEM_UNMAP, mapping, &[])?
            }
        };
        Ok(Asked::Sent(sent))
    }
}

/// What a call is made of has the sizes of its types.
fn measure<H>(call: &ReverseCall<H>)
    ensures { IsProper (input_of call.now) }
{
    match call {
        ReverseCall::SharedObjectAdd(name) => measure_name(name),
        ReverseCall::SharedObjectRemove(name) => measure_name(name),
        ReverseCall::SharedObjectLookup(name, _) => measure_name(name),
        ReverseCall::ShmemMap(mapping, _) => measure_mapping(mapping),
        ReverseCall::ShmemUnmap(mapping) => measure_mapping(mapping),
        _ => {}
    }
}

/// A name has sixteen bytes.
fn measure_name(name: &VhostUserSharedMsg)
    ensures { length name.now.uuid ≡ 16 }
{
    let mut text = [0; 16];
    name.encode_into(&mut text);
}

/// A mapping has forty bytes.
fn measure_mapping(mapping: &VhostUserMMap)
    ensures { length (mmap_text mapping.now) ≡ 40 }
{
    let mut text = [0; 40];
    mapping.encode_into(&mut text);
}
