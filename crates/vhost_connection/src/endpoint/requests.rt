//! Serving: a request comes in, and its reply goes out.

ghost use Rattle.std.specs.Prelude.{◌≡◌, ◌≤◌, ◌+◌, ◌++◌, List, length, map, Ok, Some, IfSome, true, false, is_some, ◌&&◌};
ghost use Rattle.vhost_connection.specs.Requests.{WaitsWhole};
ghost use Rattle.vhost_message.specs.declared.cause.IoCause.{IoCause};
ghost use Rattle.vhost_message.specs.Codes.{heard_by};
ghost use Rattle.vhost_message.specs.Header.{is_valid_header};
ghost use Rattle.vhost_message.specs.MsgHeader.{fields_of};
ghost use Rattle.vhost_message.specs.declared.limits.TheConstants.{MAX_ATTACHED_FD_ENTRIES, MAX_MSG_SIZE};

use crate::endpoint::Endpoint;
use crate::fault::break_on_fault;
use crate::request::{Request, RequestCode};
use vhost_link::Link;
use vhost_message::{
    ByteValued, Error, MSG_HEADER_SIZE, MsgHeader, Result, VhostUserMsgHeader, header_bit,
};

/// The request at the front of these bytes, where it is there whole, and may come without descriptors.
fn waiting_request<R: RequestCode>(bytes: &[u8], any_number: bool) -> Option<Request<R>>
    ensures { IfSome result (λ q. WaitsWhole (heard_by R.code R.any any_number) R.allowed bytes.now q) }
{
    if bytes.len() < MSG_HEADER_SIZE {
        return None;
    }
    let header = VhostUserMsgHeader::<R>::decode(&bytes[..MSG_HEADER_SIZE]);
    let len = header.get_size() as usize;
    if !header.is_heard(any_number) || bytes.len() - MSG_HEADER_SIZE < len {
        return None;
    }
    match header.get_heard(any_number) {
        Ok(code) => {
            if !code.allows_handles(0) {
                return None;
            }
            Some(Request {
                code,
                reply: header.is_reply(),
                need_reply: header.is_need_reply(),
                len,
            })
        }
        Err(_) => None,
    }
}

/// The flag of a reply.
const REPLY: u32 = 1 << header_bit::REPLY;

impl<R: RequestCode, L: Link> Endpoint<VhostUserMsgHeader<R>, L> {
    ghost use Rattle.std.specs.Prelude.{None, Err};
    ghost use Rattle.vhost_message.specs.declared.error.Error.TheVariants.{SocketBroken};
    ghost use Rattle.vhost_connection.specs.State.{state};
    ghost use Rattle.vhost_connection.specs.Talk.{State};
    ghost use Rattle.vhost_connection.specs.Calls.{ByOneCall};
    ghost use Rattle.vhost_connection.specs.Requests.{ReadsMessage, ReadsRequest, RequestHead, ReadsBehind, Tells, reply_text};

    /// Reads one request: its header and descriptors, and its body whole, however it is split, to the start of `body`. Its
    /// number is one of the codes, or it may be any number.
    ///
    /// Disconnected: the stream ended before the first byte. PartialMessage: it ended within the header. InvalidMessage:
    /// the header is not valid, or its request may not come with these descriptors, and the body is unread; or the stream
    /// ended within the body, or a byte of it brought descriptors. OutOfMemory: the endpoint's descriptor buffer was moved
    /// out, and another could not be allocated, also where the endpoint is poisoned; nothing was received, and nothing changed.
    pub fn recv_request(
        &mut self,
        any_number: bool,
        body: &mut [u8],
    ) -> Result<(Request<R>, Option<Vec<L::Handle>>)>
        requires { MAX_MSG_SIZE ≤ length body.old }
        ensures { ReadsRequest L.event (heard_by R.code R.any any_number) R.allowed (state self.old) result body.new (state self.new) }
    {
        self.faulted = false;
        self.make_list()?;
        if let Some(request) = self.take_waiting(any_number, body) {
            return Ok((request, None));
        }
        let (header, front) = self.recv_head(any_number)?;
        match self.recv_request_body(any_number, &header, front.list.as_slice().len(), body) {
            Ok(request) => Ok((request, self.give(front.list))),
            Err(error) => {
                self.put_back(front.list);
                Err(error)
            }
        }
    }

    /// Takes a request that waits whole, as one that came without descriptors: its body goes to the start of `body`. None: none
    /// does, and nothing changed.
    #[tactic(auto, unfolding(crate::specs::State::ahead_of))]
    fn take_waiting(&mut self, any_number: bool, body: &mut [u8]) -> Option<Request<R>>
        requires { MAX_MSG_SIZE ≤ length body.old }
        ensures taken { (state self.old).faulted ≡ false → (state self.old).list ≡ true
            → IfSome result (λ q. ReadsMessage L.event (heard_by R.code R.any any_number) R.allowed (state self.old) q None body.new (state self.new)) }
        ensures none { result ≡ None → state self.new ≡ state self.old }
    {
        if self.broken.is_some() {
            return None;
        }
        let ahead = &mut self.source.ahead;
        match waiting_request::<R>(ahead.front(), any_number) {
            Some(request) => {
                ahead.skip(MSG_HEADER_SIZE);
                let _ = ahead.take_out(&mut body[..request.len]);
                Some(request)
            }
            None => None,
        }
    }

    /// Reads the body of a request, whose header came with so many descriptors.
    fn recv_request_body(
        &mut self,
        any_number: bool,
        header: &VhostUserMsgHeader<R>,
        handles: usize,
        body: &mut [u8],
    ) -> Result<Request<R>>
        requires room { MAX_MSG_SIZE ≤ length body.old }
        requires valid { (is_some (heard_by R.code R.any any_number (fields_of header.now).code) && is_valid_header (fields_of header.now)) ≡ true }
        ensures { (before : State L L.Handle) (hs : List L.Handle) → RequestHead L.event (heard_by R.code R.any any_number) before header.now hs (state self.old) → handles ≡ length hs
            → ReadsBehind L.event (heard_by R.code R.any any_number) R.allowed before hs result body.new (state self.new) }
    {
        let code = header.get_heard(any_number)?;
        if !code.allows_handles(handles) {
            return Err(Error::InvalidMessage);
        }
        let len = header.get_size() as usize;
        if self.recv_rest_of_message(&mut body[..len])? < len {
            return Err(Error::InvalidMessage);
        }
        Ok(Request {
            code,
            reply: header.is_reply(),
            need_reply: header.is_need_reply(),
            len,
        })
    }

    /// Replies to a request of this code with a record and the bytes behind it, and with the descriptors on the first byte. It
    /// stands between a request and the end of its answer: an I/O error, or one retry more than the retry limit, poisons the endpoint.
    ///
    /// SocketBroken: the endpoint was poisoned before; nothing was written.
    pub fn reply<T: ByteValued>(
        &mut self,
        code: R,
        body: &T,
        payload: &[u8],
        handles: &[&L::Handle],
    ) -> Result<()>
        requires size { T.SIZE + length payload.now ≤ MAX_MSG_SIZE }
        requires handles { length handles.now ≤ MAX_ATTACHED_FD_ENTRIES }
        ensures sends { (state self.old).broken ≡ None → Tells L.event (state self.old) (reply_text R.number code (map (λ h. h.now) handles.now) (T.text body.now ++ payload.now)) (Ok tt) result (state self.new) }
        ensures once { L.takes_all (state self.old).link → ByOneCall L.event (state self.old) (reply_text R.number code (map (λ h. h.now) handles.now) (T.text body.now ++ payload.now)) result (state self.new) }
        ensures broken { (c : IoCause) → (state self.old).broken ≡ Some c → (result ≡ Err (SocketBroken c)) × (state self.new ≡ record (state self.old) { faulted = false }) }
        ensures fits { T.fits body.now }
    {
        let header = VhostUserMsgHeader::new(code, REPLY, (T::SIZE + payload.len()) as u32);
        match self.send_message_with_payload(&header, body, payload, handles) {
            Ok(()) => Ok(()),
            Err(error) => {
                break_on_fault(self, &error);
                Err(error)
            }
        }
    }
}
