//! What a backend asks its frontend, and the frontend's reply.

ghost use Rattle.std.specs.Prelude.{◌≡◌, ◌≤◌, [], ◌∷◌, length, map, false, ℤ};
ghost use Rattle.vhost_message.specs.Bits.{has_bit};
ghost use Rattle.vhost_message.specs.declared.header_bit.TheConstants.{NEED_REPLY, REPLY};
ghost use Rattle.vhost_message.specs.MsgHeader.{fields_of};
ghost use Rattle.vhost_message.specs.declared.limits.TheConstants.{MAX_ATTACHED_FD_ENTRIES, MAX_MSG_SIZE};
ghost use Rattle.vhost_protocol.specs.Reverse.{HandleConfigChange, SharedObjectAdd, SharedObjectRemove, SharedObjectLookup, ShmemMap, ShmemUnmap, reverse_ask, sends_unless, sends_object, sends_mapping};
ghost use Rattle.vhost_protocol.specs.Written.{Payload, payload_text};

use crate::internal::{BackendInternal, Header};
use vhost_link::Link;
use vhost_message::{
    BackendReq, ByteValued, Error, HandlerResult, IoCause, IoError, VhostUserEmpty, VhostUserMMap,
    VhostUserSharedMsg, VhostUserU64, header_bit,
};
use vhost_protocol::Profile;

impl<L: Link> BackendInternal<L> {
    ghost use Rattle.vhost_backend_req.specs.Channel.{channel, backend_of};
    ghost use Rattle.vhost_backend_req.specs.Asking.{AsksCall, AsksFor, RecvsNumber};
    ghost use Rattle.vhost_backend_req.specs.Halves.{AsksHalfFor, TakesHalf};
    ghost use Rattle.vhost_connection.specs.State.{state};
    ghost use Rattle.std.specs.Prelude.{None, Some, Err};
    ghost use Rattle.vhost_message.specs.declared.io_error.IoError.TheVariants.{Of};
    ghost use Rattle.vhost_message.specs.declared.error.Error.TheVariants.{SocketBroken};
    ghost use Rattle.vhost_message.specs.declared.cause.IoCause.TheVariants.{Raw};

    /// Reports to the frontend that the configuration space has changed. The answer is that of the other calls.
    ///
    /// Raw(38): it was not negotiated; nothing was sent.
    pub fn handle_config_change(&mut self) -> HandlerResult<u64>
        ensures { AsksCall L.event HandleConfigChange (channel self.old) result (channel self.new) }
    {
        let sent = self.send_config_change()?;
        self.take_half(sent)
    }

    /// Adds a shared object by its name. The answer is 0; where none is awaited, it is given at once.
    ///
    /// Named: shared objects were not negotiated. Of(SocketBroken): the channel was marked as failed. Of(InvalidMessage): what came
    /// is no reply. Of(FrontendInternalError): the frontend replied with another number than 0. Of(OutOfMemory): a descriptor buffer
    /// could not be allocated, and nothing was sent. Of: the link failed, or the stream ended.
    pub fn shared_object_add(&mut self, name: &VhostUserSharedMsg) -> HandlerResult<u64>
        ensures { AsksCall L.event (SharedObjectAdd name.now) (channel self.old) result (channel self.new) }
    {
        self.ask_object(BackendReq::SHARED_OBJECT_ADD, name, &[])
    }

    /// Removes a shared object. Answers and errors are those of `shared_object_add`.
    pub fn shared_object_remove(&mut self, name: &VhostUserSharedMsg) -> HandlerResult<u64>
        ensures { AsksCall L.event (SharedObjectRemove name.now) (channel self.old) result (channel self.new) }
    {
        self.ask_object(BackendReq::SHARED_OBJECT_REMOVE, name, &[])
    }

    /// Looks a shared object up by its name, and sends a file descriptor for it. Answers and errors are those of `shared_object_add`.
    pub fn shared_object_lookup(
        &mut self,
        name: &VhostUserSharedMsg,
        handle: &L::Handle,
    ) -> HandlerResult<u64>
        ensures { AsksCall L.event (SharedObjectLookup name.now handle.now) (channel self.old) result (channel self.new) }
    {
        self.ask_object(BackendReq::SHARED_OBJECT_LOOKUP, name, &[handle])
    }

    /// Maps memory of a file into a region of shared memory. Answers and errors are those of `shared_object_add`; Named where
    /// shared memory was not negotiated.
    pub fn shmem_map(&mut self, mapping: &VhostUserMMap, handle: &L::Handle) -> HandlerResult<u64>
        ensures { AsksCall L.event (ShmemMap mapping.now handle.now) (channel self.old) result (channel self.new) }
    {
        self.ask_mapping(BackendReq::SHMEM_MAP, mapping, &[handle])
    }

    /// Removes a mapping. Answers and errors are those of `shmem_map`.
    pub fn shmem_unmap(&mut self, mapping: &VhostUserMMap) -> HandlerResult<u64>
        ensures { AsksCall L.event (ShmemUnmap mapping.now) (channel self.old) result (channel self.new) }
    {
        self.ask_mapping(BackendReq::SHMEM_UNMAP, mapping, &[])
    }

    /// Asks about a shared object.
    fn ask_object(
        &mut self,
        code: BackendReq,
        name: &VhostUserSharedMsg,
        handles: &[&L::Handle],
    ) -> HandlerResult<u64>
        requires { length handles.now ≤ MAX_ATTACHED_FD_ENTRIES }
        ensures { AsksFor L.event (sends_object (backend_of (channel self.old)) code name.now (map (λ h. h.now) handles.now)) (channel self.old) result (channel self.new) }
    {
        let sent = self.send_object(code, name, handles)?;
        self.take_half(sent)
    }

    /// Asks about a mapping.
    fn ask_mapping(
        &mut self,
        code: BackendReq,
        mapping: &VhostUserMMap,
        handles: &[&L::Handle],
    ) -> HandlerResult<u64>
        requires { length handles.now ≤ MAX_ATTACHED_FD_ENTRIES }
        ensures { AsksFor L.event (sends_mapping (backend_of (channel self.old)) code mapping.now (map (λ h. h.now) handles.now)) (channel self.old) result (channel self.new) }
    {
        let sent = self.send_mapping(code, mapping, handles)?;
        self.take_half(sent)
    }

    /// Sends that the configuration space has changed, where that was negotiated.
    pub(crate) fn send_config_change(&mut self) -> HandlerResult<Option<Header>>
        ensures { AsksHalfFor L.event (reverse_ask (backend_of (channel self.old)) HandleConfigChange) (channel self.old) result (channel self.new) }
    {
        if !self.config_change {
            return Err(IoError::Raw(38));
        }
        self.send(BackendReq::CONFIG_CHANGE_MSG, &VhostUserEmpty, &[])
    }

    /// Sends a request about a shared object, where those were negotiated.
    pub(crate) fn send_object(
        &mut self,
        code: BackendReq,
        name: &VhostUserSharedMsg,
        handles: &[&L::Handle],
    ) -> HandlerResult<Option<Header>>
        requires { length handles.now ≤ MAX_ATTACHED_FD_ENTRIES }
        ensures { AsksHalfFor L.event (sends_object (backend_of (channel self.old)) code name.now (map (λ h. h.now) handles.now)) (channel self.old) result (channel self.new) }
    {
        if !self.shared_object {
            return Err(IoError::Named("Shared Object feature not negotiated"));
        }
        self.send(code, name, handles)
    }

    /// Sends a request about a mapping, where shared memory was negotiated.
    pub(crate) fn send_mapping(
        &mut self,
        code: BackendReq,
        mapping: &VhostUserMMap,
        handles: &[&L::Handle],
    ) -> HandlerResult<Option<Header>>
        requires { length handles.now ≤ MAX_ATTACHED_FD_ENTRIES }
        ensures { AsksHalfFor L.event (sends_mapping (backend_of (channel self.old)) code mapping.now (map (λ h. h.now) handles.now)) (channel self.old) result (channel self.new) }
    {
        if !self.shmem {
            return Err(IoError::Named("SHMEM feature not negotiated"));
        }
        self.send(code, mapping, handles)
    }

    /// Sends a request, unless the channel was marked as failed: its header, where a reply is awaited.
    fn send<T: ByteValued>(
        &mut self,
        code: BackendReq,
        body: &T,
        handles: &[&L::Handle],
    ) -> HandlerResult<Option<Header>>
        requires size { T.SIZE ≤ MAX_MSG_SIZE }
        requires handles { length handles.now ≤ MAX_ATTACHED_FD_ENTRIES }
        ensures marked { (n : ℤ) → (channel self.old).failed ≡ Some n → (result ≡ Err (Of (SocketBroken (Raw n)))) × (channel self.new ≡ channel self.old) }
        ensures sent { (channel self.old).failed ≡ None → (p : Payload) → payload_text p ≡ T.text body.now
            → AsksHalfFor L.event (sends_unless None (backend_of (channel self.old)) code p (map (λ h. h.now) handles.now)) (channel self.old) result (channel self.new) }
    {
        if let Some(number) = self.failed {
            return Err(IoError::Of(Error::SocketBroken(IoCause::Raw(number))));
        }
        let flags = flags_of(self.reply_ack);
        match self.endpoint.send_request(code, flags, body, &[], handles) {
            Ok(header) => {
                if !self.reply_ack {
                    return Ok(None);
                }
                Ok(Some(header))
            }
            Err(error) => Err(IoError::Of(error)),
        }
    }

    /// Receives the reply to a request that was sent: the number that it brings, where one is awaited; else 0, and nothing is
    /// read. Errors are those of `shared_object_add` once its request was sent.
    pub fn take_half(&mut self, sent: Option<Header>) -> HandlerResult<u64>
        ensures same { channel self.new ≡ record (channel self.old) { endpoint = (channel self.new).endpoint } }
        ensures taken { TakesHalf L.event sent (channel self.old).endpoint result (channel self.new).endpoint }
    {
        match sent {
            Some(request) => self.recv_number(&request),
            None => Ok(0),
        }
    }

    /// Receives the number that replies to a request: 0 is success.
    fn recv_number(&mut self, request: &Header) -> HandlerResult<u64>
        ensures same { self.new ≡ record self.old { endpoint = self.new.endpoint } }
        ensures received { RecvsNumber L.event (fields_of request.now) (state self.old.endpoint) result (state self.new.endpoint) }
    {
        match self
            .endpoint
            .recv_reply::<VhostUserU64>(Profile::Vhost, request, &mut [])
        {
            Ok((_, number, _, handles)) => {
                if handles.is_some() {
                    return Err(IoError::Of(Error::InvalidMessage));
                }
                if number.value != 0 {
                    return Err(IoError::Of(Error::FrontendInternalError));
                }
                Ok(0)
            }
            Err(error) => Err(IoError::Of(error)),
        }
    }
}

/// The flags of a request that wants a reply, or wants none.
fn flags_of(need_reply: bool) -> u32
    ensures no_reply { has_bit result REPLY ≡ false }
    ensures need_reply { has_bit result NEED_REPLY ≡ need_reply }
{
    if need_reply {
        1 << header_bit::NEED_REPLY
    } else {
        0
    }
}
