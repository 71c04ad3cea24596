//! Sending requests: a request goes out, and the reply for it comes in.

ghost use Rattle.std.specs.Prelude.{◌≡◌, ◌≤◌, ◌+◌, ◌++◌, IfOk, IfErr, length, map};
ghost use Rattle.vhost_message.specs.MsgHeader.{fields_of};
ghost use Rattle.vhost_message.specs.declared.limits.TheConstants.{MAX_ATTACHED_FD_ENTRIES, MAX_MSG_SIZE};
ghost use Rattle.vhost_protocol.specs.Written.{Payload, payload_text};
ghost use Rattle.vhost_protocol.specs.declared.profile.Profile.TheVariants.{Vhost};

use crate::endpoint::Endpoint;
use crate::fault::break_on_fault;
use vhost_link::Link;
use vhost_message::{ByteValued, Error, Req, Result, VhostUserMsgHeader, VhostUserMsgValidator};
use vhost_protocol::Profile;

impl<R: Req, L: Link> Endpoint<VhostUserMsgHeader<R>, L> {
    ghost use Rattle.std.specs.Prelude.{None, true, false};
    ghost use Rattle.vhost_connection.specs.State.{state};
    ghost use Rattle.vhost_connection.specs.Hearing.{Fails};
    ghost use Rattle.vhost_connection.specs.Asking.{SendsRequest, RecvsReply, request_with, is_known_by};

    /// What comes before a request: the endpoint has a descriptor buffer for the reply, and is not poisoned.
    ///
    /// OutOfMemory: its descriptor buffer was moved out, and another could not be allocated. SocketBroken: it is poisoned.
    #[tactic(auto, using(crate::proofs::Failing::broken_fails, crate::proofs::Failing::memory_fails), unfolding(crate::specs::State::ahead_of))]
    fn begin_request(&mut self) -> Result<()>
        ensures begun { IfOk result (λ _. ((state self.old).broken ≡ None) × (state self.new ≡ record (state self.old) { list = true; faulted = false })) }
        ensures fails { IfErr result (λ e. Fails L.event (state self.old) false e (state self.new)) }
    {
        self.faulted = false;
        self.make_list()?;
        self.expect_sound()
    }

    /// Sends a request of this code and with these flags: a record, the bytes behind it, and the descriptors on the first byte.
    /// Its header is what the reply is compared with. The descriptor buffer for the reply is made first.
    ///
    /// OutOfMemory: the endpoint's descriptor buffer was moved out, and another could not be allocated, also where the
    /// endpoint is poisoned; nothing was written, and nothing changed.
    pub fn send_request<T: ByteValued>(
        &mut self,
        code: R,
        flags: u32,
        body: &T,
        payload: &[u8],
        handles: &[&L::Handle],
    ) -> Result<VhostUserMsgHeader<R>>
        requires size { T.SIZE + length payload.now ≤ MAX_MSG_SIZE }
        requires handles { length handles.now ≤ MAX_ATTACHED_FD_ENTRIES }
        ensures { (p : Payload) → payload_text p ≡ T.text body.now ++ payload.now
            → SendsRequest L.event R.number (request_with flags code p (map (λ h. h.now) handles.now)) (state self.old) result (state self.new) }
    {
        self.begin_request()?;
        let header = VhostUserMsgHeader::new(code, flags, (T::SIZE + payload.len()) as u32);
        match self.send_message_with_payload(&header, body, payload, handles) {
            Ok(()) => Ok(header),
            Err(error) => Err(error),
        }
    }

    /// Receives the reply for a request: the size that its header says, a record, how many bytes of payload lie in the room
    /// now, and the descriptors. It stands between a request and the end of its answer: an I/O error poisons the endpoint.
    ///
    /// Under `Standard` the reply is read by its header, and its payload fills the room.
    ///
    /// InvalidMessage: header or record are not valid, or what came is no reply for the request; under `Standard`, too, it has
    /// another size. PartialMessage: the stream ended before the record did.
    pub fn recv_reply<T: VhostUserMsgValidator + Drop>(
        &mut self,
        profile: Profile,
        request: &VhostUserMsgHeader<R>,
        room: &mut [u8],
    ) -> Result<(u32, T, usize, Option<Vec<L::Handle>>)>
        requires { T.SIZE ≤ MAX_MSG_SIZE }
        ensures { RecvsReply L.event (is_known_by R.code) R.code profile T.SIZE T.read T.valid (state self.old) (fields_of request.now) room.old result room.new (state self.new) }
    {
        match profile {
            Profile::Vhost => self.recv_record(request, room),
            Profile::Standard => self.recv_sized(request, room),
        }
    }

    /// The same, whatever the size that the header says: a record, and then what fits into the room.
    fn recv_record<T: VhostUserMsgValidator + Drop>(
        &mut self,
        request: &VhostUserMsgHeader<R>,
        room: &mut [u8],
    ) -> Result<(u32, T, usize, Option<Vec<L::Handle>>)>
        requires { T.SIZE ≤ MAX_MSG_SIZE }
        ensures { RecvsReply L.event (is_known_by R.code) R.code Vhost T.SIZE T.read T.valid (state self.old) (fields_of request.now) room.old result room.new (state self.new) }
    {
        match self.recv_payload_into_buf::<T>(room) {
            Ok((header, body, count, handles)) => {
                if !header.is_reply_for(request) {
                    return Err(Error::InvalidMessage);
                }
                Ok((header.get_size(), body, count, handles))
            }
            Err(error) => {
                break_on_fault(self, &error);
                Err(error)
            }
        }
    }
}
