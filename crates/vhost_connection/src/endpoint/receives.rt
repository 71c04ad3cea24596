//! What an endpoint receives.

ghost use Rattle.std.specs.Prelude.{◌≡◌, ◌≢◌, ◌+◌, ◌<◌, ◌≤◌, length, vec_capacity, IfOk, IfErr};
ghost use Rattle.vhost_message.specs.declared.limits.TheConstants.{MAX_ATTACHED_FD_ENTRIES, MAX_MSG_SIZE, MAX_MSG_TEXT};

use crate::endpoint::Endpoint;
use crate::list::{Front, HandleList, take_list};
use crate::pass::{PassEnd, recv_bytes, recv_once, recv_parts, recv_rest};
use vhost_link::Link;
use vhost_message::{Error, MAX_MSG_SIZE, MsgHeader, Result, VhostUserMsgValidator};

impl<M: MsgHeader, L: Link> Endpoint<M, L> {
    ghost use Rattle.std.specs.Prelude.{None, true};
    ghost use Rattle.std.specs.Borrow.{sem};
    ghost use Rattle.vhost_connection.specs.contracts.endpoint.Endpoint.{the_row};
    ghost use Rattle.vhost_connection.specs.Lending.{Leaves};
    ghost use Rattle.vhost_message.specs.declared.error.Error.TheVariants.{OversizedMsg, OutOfMemory};
    ghost use Rattle.vhost_connection.specs.Talk.{Refuses};
    ghost use Rattle.vhost_connection.specs.Calls.{ReadsHeader, ReadsData, ReadsBody, ReadsInto, ReadsPayload, ReadsOnce, HandsOver};
    ghost use Rattle.vhost_connection.specs.Front.{ReadsFront, ReadsParts, ReadsHead, ReadsCount, ReadsCountOnce, ReadsMore, gives};
    ghost use Rattle.vhost_connection.specs.State.{state};

    /// Receives a header, with the descriptors of its first byte.
    ///
    /// Disconnected: the stream ended before the first byte. PartialMessage: it ended within the header.
    /// InvalidMessage: the header was received, and is not valid. OutOfMemory: the endpoint's descriptor buffer
    /// was moved out, and another could not be allocated; nothing was received.
    pub fn recv_header(&mut self) -> Result<(M, Option<Vec<L::Handle>>)>
        ensures { ReadsHeader L.event M.read M.valid (state self.old) result (state self.new) }
    {
        let (header, front) = self.recv_head(false)?;
        Ok((header, self.give(front.list)))
    }

    /// Receives a header, with the descriptors of its first byte in a buffer that is not moved out yet. Its number is one of
    /// the codes, or it may be any number.
    pub(super) fn recv_head(&mut self, any_number: bool) -> Result<(M, Front<L::Handle>)>
        ensures { ReadsHead L.event M.read (λ h. M.heard any_number h) (state self.old) result (state self.new) }
    {
        let len = M::SIZE;
        let front = self.recv_front(len)?;
        self.left = front.left;
        if front.count < len {
            self.put_back(front.list);
            if front.count == 0 {
                return Err(Error::Disconnected);
            }
            return Err(Error::PartialMessage);
        }
        let header = M::decode(&self.text[..len]);
        if !header.is_heard(any_number) {
            self.put_back(front.list);
            return Err(Error::InvalidMessage);
        }
        Ok((header, front))
    }

    /// Receives the next bytes of a message, up to so many, and lends them from the endpoint's buffer: fewer than
    /// asked for are all up to the end of the stream. It may use the retries that the last `recv_header` and the calls of this
    /// one since then have left of the retry limit; other calls leave them as they are.
    ///
    /// InvalidMessage: all of them were received, and one brought descriptors. An I/O error, or one retry more than were left
    /// of the retry limit, poisons the endpoint.
    pub fn recv_data(&mut self, len: usize) -> Result<(usize, &[u8])>
        requires { len ≤ MAX_MSG_SIZE }
        ensures* lender { sem 𝓛 (Leaves (the_row M.row L.row L.Handle.row) self.entry (λ end. ReadsData L.event (state self.old) len result (state end))) }
        ensures count { IfOk result (λ x. (x.0 ≤ len) × (length x.1.now ≡ x.0)) }
        ensures memory { IfErr result (λ e. e ≢ OutOfMemory) }
    {
        let count = self.read_data(len)?;
        Ok((count, &self.text[..count]))
    }

    /// Receives bytes to the start of the buffer, up to so many or the end.
    fn read_data(&mut self, len: usize) -> Result<usize>
        requires { len ≤ MAX_MSG_SIZE }
        ensures read { ReadsCount L.event (state self.old) len result self.new.text.value (state self.new) }
        ensures memory { IfErr result (λ e. e ≢ OutOfMemory) }
    {
        self.faulted = false;
        if let Some(cause) = self.broken {
            return Err(Error::SocketBroken(cause));
        }
        let got = recv_bytes(
            &mut self.source,
            &mut self.text[..],
            len,
            &mut self.spare.list,
            self.left,
        );
        self.left = got.left;
        if let PassEnd::Fault(cause) = got.stop {
            return Err(self.fail(cause, true));
        }
        if got.surplus {
            return Err(Error::InvalidMessage);
        }
        Ok(got.count)
    }

    /// Receives a header and a record, with the descriptors of the first byte. The header's size is not looked at.
    ///
    /// OversizedMsg: the record is longer than `MAX_MSG_SIZE`; nothing was received, and nothing changed. PartialMessage:
    /// the stream ended before or within them. InvalidMessage: both were received, and one is not valid. OutOfMemory:
    /// as in `recv_header`.
    pub fn recv_body<T: VhostUserMsgValidator + Drop>(
        &mut self,
    ) -> Result<(M, T, Option<Vec<L::Handle>>)>
        ensures long { MAX_MSG_SIZE < T.SIZE → Refuses (state self.old) OversizedMsg result (state self.new) }
        ensures received { T.SIZE ≤ MAX_MSG_SIZE → ReadsBody L.event M.read M.valid T.SIZE T.read T.valid (state self.old) result (state self.new) }
    {
        let (header, body, _, handles) = self.recv_payload_into_buf(&mut [])?;
        Ok((header, body, handles))
    }

    /// Receives a header, and then what fits into the buffer, up to the stream's end; the answer has how many bytes that
    /// was, and the descriptors of the first byte. The header's size is not looked at.
    ///
    /// PartialMessage: the stream ended before or within the header. InvalidMessage: all of it was received, and the
    /// header is not valid. OutOfMemory: as in `recv_header`.
    pub fn recv_body_into_buf(
        &mut self,
        buf: &mut [u8],
    ) -> Result<(M, usize, Option<Vec<L::Handle>>)>
        ensures { ReadsInto L.event M.read M.valid (state self.old) buf.old result buf.new (state self.new) }
    {
        let len = M::SIZE;
        let Front {
            count,
            more,
            list,
            ..
        } = self.recv_parts(len, buf)?;
        if count < len {
            self.put_back(list);
            return Err(Error::PartialMessage);
        }
        let header = M::decode(&self.text[..len]);
        if !header.is_valid() {
            self.put_back(list);
            return Err(Error::InvalidMessage);
        }
        Ok((header, more, self.give(list)))
    }

    /// Receives a header and a record, and then what fits into the buffer, up to the stream's end; the answer has how
    /// many bytes that was, and the descriptors of the first byte. The header's size is not looked at.
    ///
    /// OversizedMsg: the record is longer than `MAX_MSG_SIZE`; nothing was received, and nothing changed. PartialMessage:
    /// the stream ended before or within header and record. InvalidMessage: all of it was received, and one of the two
    /// is not valid. OutOfMemory: as in `recv_header`.
    #[tactic(auto, unfolding(crate::specs::State::ahead_of))]
    pub fn recv_payload_into_buf<T: VhostUserMsgValidator + Drop>(
        &mut self,
        buf: &mut [u8],
    ) -> Result<(M, T, usize, Option<Vec<L::Handle>>)>
        ensures long { MAX_MSG_SIZE < T.SIZE → Refuses (state self.old) OversizedMsg result (state self.new) }
        ensures unread { MAX_MSG_SIZE < T.SIZE → buf.new ≡ buf.old }
        ensures received { T.SIZE ≤ MAX_MSG_SIZE → ReadsPayload L.event M.read M.valid T.SIZE T.read T.valid (state self.old) buf.old result buf.new (state self.new) }
    {
        if T::SIZE > MAX_MSG_SIZE {
            return Err(Error::OversizedMsg);
        }
        self.recv_payload(buf)
    }

    /// Receives a header, a record that is not too long, and what fits into the buffer.
    fn recv_payload<T: VhostUserMsgValidator + Drop>(
        &mut self,
        buf: &mut [u8],
    ) -> Result<(M, T, usize, Option<Vec<L::Handle>>)>
        requires { T.SIZE ≤ MAX_MSG_SIZE }
        ensures { ReadsPayload L.event M.read M.valid T.SIZE T.read T.valid (state self.old) buf.old result buf.new (state self.new) }
    {
        let head = M::SIZE;
        let len = head + T::SIZE;
        let Front {
            count,
            more,
            list,
            ..
        } = self.recv_parts(len, buf)?;
        if count < len {
            self.put_back(list);
            return Err(Error::PartialMessage);
        }
        let header = M::decode(&self.text[..head]);
        let body = T::decode(&self.text[head..len]);
        if !header.is_valid() || !body.is_valid() {
            self.put_back(list);
            return Err(Error::InvalidMessage);
        }
        Ok((header, body, more, self.give(list)))
    }

    /// Receives at most so many bytes by one call of the link, and lends them from the endpoint's buffer: how many, which
    /// is 0 at the stream's end. The descriptors of the first of them are put into `handles`, in the place of what is there.
    ///
    /// With a length of 0 the link is not called. OutOfMemory: as in `recv_header`. An I/O error or a retry poisons nothing.
    /// After an error `handles` is None.
    pub fn recv_into_buf(
        &mut self,
        len: usize,
        handles: &mut Option<Vec<L::Handle>>,
    ) -> Result<(usize, &[u8])>
        requires { len ≤ MAX_MSG_SIZE }
        ensures* lender { sem 𝓛 (Leaves (the_row M.row L.row L.Handle.row) self.entry (λ end. ReadsOnce L.event (state self.old) len result handles.new (state end))) }
        ensures count { IfOk result (λ x. (x.0 ≤ len) × (length x.1.now ≡ x.0)) }
        ensures none { IfErr result (λ _. handles.new ≡ None) }
    {
        *handles = None;
        let (count, list) = self.read_once(len)?;
        *handles = list;
        Ok((count, &self.text[..count]))
    }

    /// Receives at most so many bytes to the start of the buffer by one call of the link.
    fn read_once(&mut self, len: usize) -> Result<(usize, Option<Vec<L::Handle>>)>
        requires { len ≤ MAX_MSG_SIZE }
        ensures { ReadsCountOnce L.event (state self.old) len result self.new.text.value (state self.new) }
    {
        self.faulted = false;
        self.expect_sound()?;
        if len == 0 {
            return Ok((0, None));
        }
        let Ok(mut list) = take_list(&mut self.list, self.alloc) else {
            return Err(Error::OutOfMemory);
        };
        match recv_once(&mut self.source, &mut self.text[..], len, &mut list) {
            Ok(count) => Ok((count, self.give(list))),
            Err(cause) => {
                self.put_back(list);
                Err(self.fail(cause, false))
            }
        }
    }

    /// Receives so many bytes to the start of the buffer, or fewer and then the end, with the descriptors of the first.
    pub(super) fn recv_front(&mut self, len: usize) -> Result<Front<L::Handle>>
        requires some { 0 < len }
        requires len { len ≤ MAX_MSG_TEXT }
        ensures { ReadsFront L.event (state self.old) len result self.new.text.value (state self.new) }
    {
        self.recv_parts(len, &mut [])
    }

    /// Receives so many bytes to the start of the buffer, and then what fits into the room, or fewer and then the end;
    /// with the descriptors of the first.
    fn recv_parts(&mut self, len: usize, room: &mut [u8]) -> Result<Front<L::Handle>>
        requires some { 0 < len }
        requires len { len ≤ MAX_MSG_TEXT }
        ensures { ReadsParts L.event (state self.old) len room.old result self.new.text.value room.new (state self.new) }
    {
        self.faulted = false;
        self.expect_sound()?;
        let Ok(mut list) = take_list(&mut self.list, self.alloc) else {
            return Err(Error::OutOfMemory);
        };
        let got = recv_parts(
            &mut self.source,
            &mut self.text[..],
            len,
            room,
            &mut list,
            &mut self.spare.list,
            self.budget,
        );
        if let PassEnd::Fault(cause) = got.stop {
            self.put_back(list);
            return Err(self.fail(cause, got.count > 0));
        }
        Ok(Front {
            count: got.count,
            more: got.more,
            left: got.left,
            list,
        })
    }

    /// Receives what fits into the room behind the prefix of a message, with the retries that the prefix has left. Descriptors
    /// are dropped.
    pub(super) fn recv_more(&mut self, room: &mut [u8], left: u32) -> Result<usize>
        requires { (state self.old).broken ≡ None }
        ensures { ReadsMore L.event (state self.old) left room.old result room.new (state self.new) }
    {
        self.faulted = false;
        let got = recv_rest(&mut self.source, room, &mut self.spare.list, left);
        if let PassEnd::Fault(cause) = got.stop {
            return Err(self.fail(cause, true));
        }
        Ok(got.count)
    }

    /// Receives the bytes behind a header until the room is full, or the stream ends; the answer is how many.
    ///
    /// InvalidMessage: all of them were received, and one brought descriptors.
    pub(super) fn recv_rest_of_message(&mut self, room: &mut [u8]) -> Result<usize>
        ensures { ReadsCount L.event (state self.old) (length room.old) result room.new (state self.new) }
    {
        self.faulted = false;
        if let Some(cause) = self.broken {
            return Err(Error::SocketBroken(cause));
        }
        let got = recv_rest(&mut self.source, room, &mut self.spare.list, self.left);
        self.left = got.left;
        if let PassEnd::Fault(cause) = got.stop {
            return Err(self.fail(cause, true));
        }
        if got.surplus {
            return Err(Error::InvalidMessage);
        }
        Ok(got.count)
    }

    /// Puts the descriptor buffer back; its descriptors are dropped.
    #[tactic(auto, unfolding(crate::specs::State::ahead_of))]
    pub(super) fn put_back(&mut self, mut list: Vec<L::Handle>)
        requires { MAX_ATTACHED_FD_ENTRIES ≤ vec_capacity list }
        ensures state { state self.new ≡ record (state self.old) { list = true } }
        ensures text { self.new.text.value ≡ self.old.text.value }
    {
        list.clear();
        self.list = Some(HandleList { list });
    }

    /// Moves the descriptor buffer out where it has descriptors, and else puts it back.
    #[tactic(auto, unfolding(crate::specs::State::ahead_of))]
    pub(super) fn give(&mut self, list: Vec<L::Handle>) -> Option<Vec<L::Handle>>
        requires { MAX_ATTACHED_FD_ENTRIES ≤ vec_capacity list }
        ensures given { HandsOver result list.items }
        ensures state { state self.new ≡ gives (state self.old) list.items }
        ensures text { self.new.text.value ≡ self.old.text.value }
    {
        if list.is_empty() {
            self.put_back(list);
            None
        } else {
            Some(list)
        }
    }
}
