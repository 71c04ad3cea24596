//! What an endpoint sends.

ghost use Rattle.std.specs.Prelude.{◌≡◌, ◌≢◌, ◌+◌, ◌++◌, ◌<◌, ◌≤◌, ◌^◌, [], length, take, map, min, IfErr};
ghost use Rattle.vhost_message.specs.declared.limits.TheConstants.{MAX_ATTACHED_FD_ENTRIES, MAX_MSG_SIZE, MAX_MSG_TEXT};
ghost use Rattle.vhost_protocol.specs.Stream.{carrying};
ghost use Rattle.vhost_connection.specs.Pass.{joined};

use crate::buffers::Text;
use crate::endpoint::Endpoint;
use crate::pass::{send_once, send_pieces, send_whole};
use crate::pieces::{gather, total_len};
use vhost_link::Link;
use vhost_message::{
    ByteValued, Error, MAX_ATTACHED_FD_ENTRIES, MAX_MSG_SIZE, MAX_MSG_TEXT, MsgHeader, Result,
};

/// Writes a header and the body behind it.
fn put<M: ByteValued, T: ByteValued>(out: &mut [u8], header: &M, body: &T)
    requires { length out.old ≡ M.SIZE + T.SIZE }
    ensures text { out.new ≡ M.text header.now ++ T.text body.now }
    ensures fits { T.fits body.now }
{
    let (front, rest) = out.split_at_mut(M::SIZE);
    header.encode_into(front);
    body.encode_into(rest);
}

/// Writes a header, the body behind it and a payload behind both.
fn put_all<M: ByteValued, T: ByteValued>(out: &mut [u8], header: &M, body: &T, payload: &[u8])
    requires { length out.old ≡ M.SIZE + T.SIZE + length payload.now }
    ensures text { out.new ≡ M.text header.now ++ T.text body.now ++ payload.now }
    ensures fits { T.fits body.now }
{
    let (front, rest) = out.split_at_mut(M::SIZE + T::SIZE);
    put(front, header, body);
    rest.copy_from_slice(payload);
}

/// Writes a header to the start of a buffer.
fn put_header<M: ByteValued>(text: &mut Text, header: &M)
    requires { M.SIZE ≤ MAX_MSG_TEXT }
    ensures { take M.SIZE text.new ≡ M.text header.now }
{
    header.encode_into(&mut text[..M::SIZE]);
}

/// Writes a header and the body behind it to the start of a buffer.
fn put_message<M: ByteValued, T: ByteValued>(text: &mut Text, header: &M, body: &T)
    requires { M.SIZE + T.SIZE ≤ MAX_MSG_TEXT }
    ensures text { take (M.SIZE + T.SIZE) text.new ≡ M.text header.now ++ T.text body.now }
    ensures fits { T.fits body.now }
{
    put(&mut text[..M::SIZE + T::SIZE], header, body);
}

/// Writes a header, the body behind it and a payload behind both to the start of a buffer; the answer is how many bytes.
fn put_whole<M: ByteValued, T: ByteValued>(
    text: &mut Text,
    header: &M,
    body: &T,
    payload: &[u8],
) -> usize
    requires { M.SIZE + T.SIZE + length payload.now ≤ MAX_MSG_TEXT }
    ensures count { result ≡ M.SIZE + T.SIZE + length payload.now }
    ensures text { take result text.new ≡ M.text header.now ++ T.text body.now ++ payload.now }
    ensures fits { T.fits body.now }
{
    let len = M::SIZE + T::SIZE + payload.len();
    put_all(&mut text[..len], header, body, payload);
    len
}

impl<M: MsgHeader, L: Link> Endpoint<M, L> {
    ghost use Rattle.vhost_message.specs.declared.error.Error.TheVariants.{OversizedMsg, IncorrectFds, OutOfMemory};
    ghost use Rattle.vhost_connection.specs.Talk.{Refuses};
    ghost use Rattle.vhost_connection.specs.Calls.{Sends, ByOneCall, SendsAll, SendsOnce};
    ghost use Rattle.vhost_connection.specs.State.{state};

    /// Sends a header, with the descriptors on its first byte.
    ///
    /// IncorrectFds: there are more than `MAX_ATTACHED_FD_ENTRIES` descriptors; nothing was written, and nothing changed.
    #[tactic(auto, using(crate::proofs::AtOnce::unasked), unfolding(crate::specs::State::ahead_of))]
    pub fn send_header(&mut self, header: &M, handles: &[&L::Handle]) -> Result<()>
        ensures many { MAX_ATTACHED_FD_ENTRIES < length handles.now → Refuses (state self.old) IncorrectFds result (state self.new) }
        ensures sent { length handles.now ≤ MAX_ATTACHED_FD_ENTRIES → Sends L.event (state self.old) (carrying (map (λ h. h.now) handles.now) (M.text header.now)) result (state self.new) }
        ensures once { L.takes_all (state self.old).link → ByOneCall L.event (state self.old) (carrying (map (λ h. h.now) handles.now) (M.text header.now)) result (state self.new) }
        ensures memory { IfErr result (λ e. e ≢ OutOfMemory) }
    {
        if handles.len() > MAX_ATTACHED_FD_ENTRIES {
            return Err(Error::IncorrectFds);
        }
        put_header(&mut *self.text, header);
        self.send_text(M::SIZE, handles)
    }

    /// Sends a header and a body, with the descriptors on the first byte.
    ///
    /// OversizedMsg: the body is longer than `MAX_MSG_SIZE`, or than a header of this type may say. IncorrectFds: there
    /// are more than `MAX_ATTACHED_FD_ENTRIES` descriptors. In both cases nothing was written, and nothing changed.
    #[tactic(auto, using(crate::proofs::AtOnce::unasked), unfolding(crate::specs::State::ahead_of))]
    pub fn send_message<T: ByteValued>(
        &mut self,
        header: &M,
        body: &T,
        handles: &[&L::Handle],
    ) -> Result<()>
        ensures long { min MAX_MSG_SIZE M.MAX_MSG_SIZE < T.SIZE → Refuses (state self.old) OversizedMsg result (state self.new) }
        ensures many { T.SIZE ≤ min MAX_MSG_SIZE M.MAX_MSG_SIZE → MAX_ATTACHED_FD_ENTRIES < length handles.now → Refuses (state self.old) IncorrectFds result (state self.new) }
        ensures sent { T.SIZE ≤ min MAX_MSG_SIZE M.MAX_MSG_SIZE → length handles.now ≤ MAX_ATTACHED_FD_ENTRIES →
            Sends L.event (state self.old) (carrying (map (λ h. h.now) handles.now) (M.text header.now ++ T.text body.now)) result (state self.new) }
        ensures fits { T.SIZE ≤ min MAX_MSG_SIZE M.MAX_MSG_SIZE → length handles.now ≤ MAX_ATTACHED_FD_ENTRIES → T.fits body.now }
        ensures once { L.takes_all (state self.old).link → ByOneCall L.event (state self.old) (carrying (map (λ h. h.now) handles.now) (M.text header.now ++ T.text body.now)) result (state self.new) }
        ensures memory { IfErr result (λ e. e ≢ OutOfMemory) }
    {
        if T::SIZE > MAX_MSG_SIZE || T::SIZE > M::MAX_MSG_SIZE {
            return Err(Error::OversizedMsg);
        }
        if handles.len() > MAX_ATTACHED_FD_ENTRIES {
            return Err(Error::IncorrectFds);
        }
        put_message(&mut *self.text, header, body);
        self.send_text(M::SIZE + T::SIZE, handles)
    }

    /// Sends a header, a body and a payload, with the descriptors on the first byte: as one piece where they have at most
    /// `MAX_MSG_TEXT` bytes together, and else the payload goes out from where it lies.
    ///
    /// OversizedMsg: the body is longer than `MAX_MSG_SIZE`, or body and payload together than a header of this type may
    /// say. IncorrectFds: there are more than `MAX_ATTACHED_FD_ENTRIES` descriptors. In both cases nothing was written, and nothing changed.
    #[tactic(auto, using(crate::proofs::AtOnce::unasked), unfolding(crate::specs::State::ahead_of))]
    pub fn send_message_with_payload<T: ByteValued>(
        &mut self,
        header: &M,
        body: &T,
        payload: &[u8],
        handles: &[&L::Handle],
    ) -> Result<()>
        ensures long_body { MAX_MSG_SIZE < T.SIZE → Refuses (state self.old) OversizedMsg result (state self.new) }
        ensures long { M.MAX_MSG_SIZE < T.SIZE + length payload.now → Refuses (state self.old) OversizedMsg result (state self.new) }
        ensures many { T.SIZE ≤ MAX_MSG_SIZE → T.SIZE + length payload.now ≤ M.MAX_MSG_SIZE → MAX_ATTACHED_FD_ENTRIES < length handles.now →
            Refuses (state self.old) IncorrectFds result (state self.new) }
        ensures sent { T.SIZE ≤ MAX_MSG_SIZE → T.SIZE + length payload.now ≤ M.MAX_MSG_SIZE → length handles.now ≤ MAX_ATTACHED_FD_ENTRIES →
            Sends L.event (state self.old) (carrying (map (λ h. h.now) handles.now) (M.text header.now ++ T.text body.now ++ payload.now)) result (state self.new) }
        ensures fits { T.SIZE ≤ MAX_MSG_SIZE → T.SIZE + length payload.now ≤ M.MAX_MSG_SIZE → length handles.now ≤ MAX_ATTACHED_FD_ENTRIES → T.fits body.now }
        ensures once { M.SIZE + T.SIZE + length payload.now ≤ MAX_MSG_TEXT → L.takes_all (state self.old).link →
            ByOneCall L.event (state self.old) (carrying (map (λ h. h.now) handles.now) (M.text header.now ++ T.text body.now ++ payload.now)) result (state self.new) }
        ensures memory { IfErr result (λ e. e ≢ OutOfMemory) }
    {
        if T::SIZE > MAX_MSG_SIZE || T::SIZE > M::MAX_MSG_SIZE {
            return Err(Error::OversizedMsg);
        }
        if payload.len() > M::MAX_MSG_SIZE - T::SIZE {
            return Err(Error::OversizedMsg);
        }
        if handles.len() > MAX_ATTACHED_FD_ENTRIES {
            return Err(Error::IncorrectFds);
        }
        let len = M::SIZE + T::SIZE;
        if payload.len() > MAX_MSG_TEXT - len {
            put_message(&mut *self.text, header, body);
            return self.send_with_behind(len, payload, handles);
        }
        let whole = put_whole(&mut *self.text, header, body, payload);
        self.send_text(whole, handles)
    }

    /// Sends the first bytes of the buffer: by one call, where the link accepts all that it is given.
    fn send_text(&mut self, len: usize, handles: &[&L::Handle]) -> Result<()>
        requires len { len ≤ MAX_MSG_TEXT }
        requires handles { length handles.now ≤ MAX_ATTACHED_FD_ENTRIES }
        ensures sent { Sends L.event (state self.old) (carrying (map (λ h. h.now) handles.now) (take len self.old.text.value)) result (state self.new) }
        ensures once { 0 < len → L.takes_all (state self.old).link → ByOneCall L.event (state self.old) (carrying (map (λ h. h.now) handles.now) (take len self.old.text.value)) result (state self.new) }
        ensures memory { IfErr result (λ e. e ≢ OutOfMemory) }
    {
        self.faulted = false;
        self.expect_sound()?;
        let sent = send_whole(
            &mut self.source.link,
            &self.text[..len],
            handles,
            self.budget,
        );
        match sent.fault {
            None => Ok(()),
            Some(cause) => Err(self.fail(cause, sent.moved)),
        }
    }

    /// Sends the first bytes of the buffer, and a payload behind them.
    fn send_with_behind(&mut self, len: usize, payload: &[u8], handles: &[&L::Handle]) -> Result<()>
        requires len { len ≤ MAX_MSG_TEXT }
        requires handles { length handles.now ≤ MAX_ATTACHED_FD_ENTRIES }
        ensures sent { Sends L.event (state self.old) (carrying (map (λ h. h.now) handles.now) (take len self.old.text.value ++ payload.now)) result (state self.new) }
        ensures memory { IfErr result (λ e. e ≢ OutOfMemory) }
    {
        self.faulted = false;
        self.expect_sound()?;
        let pieces = [&self.text[..len], payload];
        let sent = send_pieces(&mut self.source.link, &pieces, handles, self.budget);
        match sent.fault {
            None => Ok(()),
            Some(cause) => Err(self.fail(cause, sent.moved)),
        }
    }

    /// Sends all bytes of the pieces, with the descriptors on the first byte; the answer is how many.
    ///
    /// OversizedMsg: there are more bytes than a `usize` can count. IncorrectFds: there are more than `MAX_ATTACHED_FD_ENTRIES` descriptors, or
    /// descriptors without a byte. In both cases nothing was written, and nothing changed.
    #[tactic(auto, unfolding(crate::specs::State::ahead_of))]
    pub fn send_iovec_all(&mut self, iovs: &[&[u8]], handles: &[&L::Handle]) -> Result<usize>
        ensures long { 2 ^ 64 ≤ length (joined iovs.now) → Refuses (state self.old) OversizedMsg result (state self.new) }
        ensures many { length (joined iovs.now) < 2 ^ 64 → MAX_ATTACHED_FD_ENTRIES < length handles.now → Refuses (state self.old) IncorrectFds result (state self.new) }
        ensures bare { joined iovs.now ≡ [] → 0 < length handles.now → Refuses (state self.old) IncorrectFds result (state self.new) }
        ensures sent { length (joined iovs.now) < 2 ^ 64 → length handles.now ≤ MAX_ATTACHED_FD_ENTRIES → (joined iovs.now ≡ [] → handles.now ≡ []) →
            SendsAll L.event (state self.old) (carrying (map (λ h. h.now) handles.now) (joined iovs.now)) result (state self.new) }
        ensures memory { IfErr result (λ e. e ≢ OutOfMemory) }
    {
        let Some(len) = total_len(iovs) else {
            return Err(Error::OversizedMsg);
        };
        if handles.len() > MAX_ATTACHED_FD_ENTRIES || (len == 0 && !handles.is_empty()) {
            return Err(Error::IncorrectFds);
        }
        self.faulted = false;
        self.expect_sound()?;
        let sent = send_pieces(&mut self.source.link, iovs, handles, self.budget);
        match sent.fault {
            None => Ok(len),
            Some(cause) => Err(self.fail(cause, sent.moved)),
        }
    }

    /// Sends a prefix of the bytes by one call of the link, with the descriptors on the first byte; the answer is how many.
    ///
    /// Without bytes and descriptors the link is not called. IncorrectFds: there are more than `MAX_ATTACHED_FD_ENTRIES` descriptors, or descriptors
    /// without a byte; nothing was written, and nothing changed. An I/O error or a retry poisons nothing.
    #[tactic(auto, unfolding(crate::specs::State::ahead_of))]
    pub fn send_slice(&mut self, bytes: &[u8], handles: &[&L::Handle]) -> Result<usize>
        ensures many { MAX_ATTACHED_FD_ENTRIES < length handles.now → Refuses (state self.old) IncorrectFds result (state self.new) }
        ensures bare { bytes.now ≡ [] → 0 < length handles.now → Refuses (state self.old) IncorrectFds result (state self.new) }
        ensures sent { length handles.now ≤ MAX_ATTACHED_FD_ENTRIES → (bytes.now ≡ [] → handles.now ≡ []) →
            SendsOnce L.event (state self.old) (map (λ h. h.now) handles.now) bytes.now result (state self.new) }
        ensures memory { IfErr result (λ e. e ≢ OutOfMemory) }
    {
        if handles.len() > MAX_ATTACHED_FD_ENTRIES || (bytes.is_empty() && !handles.is_empty()) {
            return Err(Error::IncorrectFds);
        }
        self.faulted = false;
        self.expect_sound()?;
        match send_once(&mut self.source.link, bytes, handles) {
            Ok(count) => Ok(count),
            Err(cause) => Err(self.fail(cause, false)),
        }
    }

    /// Sends a prefix of the bytes of all pieces by one call of the link, with the descriptors on the first byte; the answer
    /// is how many, `MAX_MSG_TEXT` at most.
    ///
    /// Without bytes and descriptors the link is not called. IncorrectFds: there are more than `MAX_ATTACHED_FD_ENTRIES` descriptors, or descriptors
    /// without a byte; nothing was written, and nothing changed. An I/O error or a retry poisons nothing.
    #[tactic(auto, unfolding(crate::specs::State::ahead_of))]
    pub fn send_iovec(&mut self, iovs: &[&[u8]], handles: &[&L::Handle]) -> Result<usize>
        ensures many { MAX_ATTACHED_FD_ENTRIES < length handles.now → Refuses (state self.old) IncorrectFds result (state self.new) }
        ensures bare { joined iovs.now ≡ [] → 0 < length handles.now → Refuses (state self.old) IncorrectFds result (state self.new) }
        ensures sent { length handles.now ≤ MAX_ATTACHED_FD_ENTRIES → (joined iovs.now ≡ [] → handles.now ≡ []) →
            SendsOnce L.event (state self.old) (map (λ h. h.now) handles.now) (joined iovs.now) result (state self.new) }
        ensures memory { IfErr result (λ e. e ≢ OutOfMemory) }
    {
        let len = gather(&mut self.text[..], iovs);
        if handles.len() > MAX_ATTACHED_FD_ENTRIES || (len == 0 && !handles.is_empty()) {
            return Err(Error::IncorrectFds);
        }
        self.faulted = false;
        self.expect_sound()?;
        match send_once(&mut self.source.link, &self.text[..len], handles) {
            Ok(count) => Ok(count),
            Err(cause) => Err(self.fail(cause, false)),
        }
    }
}
