//! A call of the vhost-user-gpu channel: one message out, and one reply in.

ghost use Rattle.std.specs.Prelude.{◌≡◌, ◌≤◌, ◌+◌, ℕ, ℤ, List, [], length, map, true, Option, Some, None, Ok, Err, codes};
ghost use Rattle.std.specs.Option.{option_map};
ghost use Rattle.vhost_gpu_message.specs.GpuHeader.{gpu_fields_of};
ghost use Rattle.vhost_message.specs.declared.io_error.IoError.TheVariants as io;
ghost use Rattle.vhost_message.specs.declared.limits.TheConstants.{MAX_ATTACHED_FD_ENTRIES, MAX_MSG_SIZE};
ghost use Rattle.vhost_protocol.specs.Error.{Raw, SocketBroken};
ghost use Rattle.vhost_protocol.specs.Gpu.{GpuReply, gpu_message, gpu_record_size, gpu_take, perhaps};
ghost use Rattle.vhost_protocol.specs.IoError.{In, seen_io_result};

use crate::internal::{BackendInternal, Header};
use vhost_connection::break_on_fault;
use vhost_gpu_message::{GpuBackendReq, MAX_GPU_MSG_SIZE};
use vhost_link::Link;
use vhost_message::{ByteValued, Error, HandlerResult, IoCause, IoError, VhostUserMsgValidator};

/// The error of a step of a call, with the place where it was met.
///
/// Mirrors `io_err_convert_fn` of `vhost::vhost_user::gpu_backend_req`.
pub fn io_err_convert(place: &'static str, error: Error) -> IoError
    ensures { result ≡ io.In place.entry error }
{
    IoError::In(place, error)
}

impl<L: Link> BackendInternal<L> {
    ghost use Rattle.vhost_gpu_backend_req.specs.Channel.{channel};
    ghost use Rattle.vhost_gpu_backend_req.specs.Asking.{SendsRow, RecvsRecord, Asks};
    ghost use Rattle.vhost_gpu_backend_req.specs.Halves.{Prepares, SendsFront};
    ghost use Rattle.vhost_connection.specs.State.{state};

    /// SocketBroken: the channel was marked as failed.
    fn check_state(&self) -> HandlerResult<()>
        ensures marked { (n : ℤ) → self.now.failed ≡ Some n → seen_io_result result ≡ Err (In (codes "check_state") (SocketBroken (Raw n))) }
        ensures alive { self.now.failed ≡ None → result ≡ Ok tt }
    {
        match self.failed {
            Some(number) => Err(io_err_convert(
                "check_state",
                Error::SocketBroken(IoCause::Raw(number)),
            )),
            None => Ok(()),
        }
    }

    /// Sends, unless the channel was marked as failed; the answer is the header that was sent.
    fn send<T: ByteValued>(
        &mut self,
        place: &'static str,
        code: GpuBackendReq,
        body: &T,
        payload: &[u8],
        handles: &[&L::Handle],
    ) -> HandlerResult<Header>
        requires size { T.SIZE ≤ MAX_MSG_SIZE }
        requires handles { length handles.now ≤ MAX_ATTACHED_FD_ENTRIES }
        ensures { (awaited : Option GpuReply) → length (T.text body.now) ≡ T.SIZE
            → SendsRow L.event place.now (record (gpu_message code (T.text body.now) payload.now awaited) { handles = map (λ h. h.now) handles.now }) (channel self.old) result (channel self.new) }
    {
        let header = self.prepare(place, code, T::SIZE, payload.len())?;
        match self
            .endpoint
            .send_message_with_payload(&header, body, payload, handles)
        {
            Ok(()) => Ok(header),
            Err(error) => Err(io_err_convert(place, error)),
        }
    }

    /// Sends a header and a record, behind which its caller sends so many bytes, unless the channel was marked as failed; the
    /// answer is the header that was sent.
    pub(crate) fn send_front<T: ByteValued>(
        &mut self,
        place: &'static str,
        code: GpuBackendReq,
        body: &T,
        behind: usize,
        handles: &[&L::Handle],
    ) -> HandlerResult<Header>
        requires size { T.SIZE ≤ MAX_MSG_SIZE }
        requires handles { length handles.now ≤ MAX_ATTACHED_FD_ENTRIES }
        ensures { (payload : List ℕ) (awaited : Option GpuReply) → length payload ≡ behind → length (T.text body.now) ≡ T.SIZE
            → SendsFront L.event place.now (record (gpu_message code (T.text body.now) payload awaited) { handles = map (λ h. h.now) handles.now }) (channel self.old) result (channel self.new) }
    {
        let header = self.prepare(place, code, T::SIZE, behind)?;
        match self.endpoint.send_message(&header, body, handles) {
            Ok(()) => Ok(header),
            Err(error) => Err(io_err_convert(place, error)),
        }
    }

    /// The same without bytes behind it, and with a file descriptor, if there is one.
    pub(crate) fn send_with<T: ByteValued>(
        &mut self,
        code: GpuBackendReq,
        body: &T,
        handle: &Option<L::Handle>,
    ) -> HandlerResult<Header>
        requires { T.SIZE ≤ MAX_MSG_SIZE }
        ensures { (awaited : Option GpuReply) → length (T.text body.now) ≡ T.SIZE
            → SendsFront L.event (codes "send_message") (record (gpu_message code (T.text body.now) [] awaited) { handles = perhaps handle.now }) (channel self.old) result (channel self.new) }
    {
        match handle {
            Some(handle) => self.send_front("send_message", code, body, 0, &[handle]),
            None => self.send_front("send_message", code, body, 0, &[]),
        }
    }

    /// The header of a message whose record has so many bytes, with so many behind it, unless the channel was marked as failed. The
    /// endpoint has its descriptor buffer then.
    fn prepare(
        &mut self,
        place: &'static str,
        code: GpuBackendReq,
        size: usize,
        behind: usize,
    ) -> HandlerResult<Header>
        requires { size ≤ MAX_MSG_SIZE }
        ensures { Prepares place.now code (size + behind) (channel self.old) result (channel self.new) }
    {
        if let Err(error) = self.check_state() {
            return Err(error);
        }
        if self.endpoint.make_list().is_err() {
            return Err(io_err_convert("check_state", Error::OutOfMemory));
        }
        if behind > MAX_GPU_MSG_SIZE - size {
            return Err(io_err_convert(place, Error::OversizedMsg));
        }
        Ok(Header::new(code, 0, (size + behind) as u32))
    }

    /// Receives the reply for a request: a header and a record, as the endpoint's `recv_body` does.
    pub(crate) fn recv_record<T: VhostUserMsgValidator + Drop>(
        &mut self,
        request: &Header,
    ) -> HandlerResult<T>
        requires { T.SIZE ≤ MAX_MSG_SIZE }
        ensures same { self.new ≡ record self.old { endpoint = self.new.endpoint } }
        ensures received { (shape : GpuReply) → gpu_record_size shape ≡ T.SIZE → ((bs : List ℕ) → T.valid (T.read bs) ≡ true)
            → RecvsRecord L.event T.read (gpu_take (Some shape) (gpu_fields_of request.now)) (state self.old.endpoint) (seen_io_result result) (state self.new.endpoint) }
    {
        match self.endpoint.recv_payload_into_buf::<T>(&mut []) {
            Ok((header, body, _, handles)) => {
                if !header.is_reply_for(request) || handles.is_some() {
                    return Err(io_err_convert("Unexpected reply", Error::InvalidMessage));
                }
                Ok(body)
            }
            Err(error) => {
                break_on_fault(&mut self.endpoint, &error);
                Err(io_err_convert("recv_body", error))
            }
        }
    }

    /// Sends a record, and receives the reply.
    pub(crate) fn ask<T: ByteValued, A: VhostUserMsgValidator + Drop>(
        &mut self,
        place: &'static str,
        code: GpuBackendReq,
        body: &T,
    ) -> HandlerResult<A>
        requires size { T.SIZE ≤ MAX_MSG_SIZE }
        requires answer { A.SIZE ≤ MAX_MSG_SIZE }
        ensures { (shape : GpuReply) → gpu_record_size shape ≡ A.SIZE → ((bs : List ℕ) → A.valid (A.read bs) ≡ true) → length (T.text body.now) ≡ T.SIZE
            → Asks L.event A.read place.now (gpu_message code (T.text body.now) [] (Some shape)) (channel self.old) (seen_io_result result) (channel self.new) }
    {
        match self.send(place, code, body, &[], &[]) {
            Ok(header) => self.recv_record(&header),
            Err(error) => Err(error),
        }
    }

    /// Sends a record and the bytes behind it, and awaits nothing.
    pub(crate) fn tell<T: ByteValued>(
        &mut self,
        place: &'static str,
        code: GpuBackendReq,
        body: &T,
        payload: &[u8],
        handles: &[&L::Handle],
    ) -> HandlerResult<()>
        requires size { T.SIZE ≤ MAX_MSG_SIZE }
        requires handles { length handles.now ≤ MAX_ATTACHED_FD_ENTRIES }
        ensures { length (T.text body.now) ≡ T.SIZE
            → Asks L.event (λ _. tt) place.now (record (gpu_message code (T.text body.now) payload.now None) { handles = map (λ h. h.now) handles.now }) (channel self.old) (seen_io_result result) (channel self.new) }
    {
        match self.send(place, code, body, payload, handles) {
            Ok(_) => Ok(()),
            Err(error) => Err(error),
        }
    }

    /// Sends a record with a file descriptor, if there is one, and awaits nothing.
    pub(crate) fn tell_with<T: ByteValued>(
        &mut self,
        code: GpuBackendReq,
        body: &T,
        handle: Option<&L::Handle>,
    ) -> HandlerResult<()>
        requires { T.SIZE ≤ MAX_MSG_SIZE }
        ensures { length (T.text body.now) ≡ T.SIZE
            → Asks L.event (λ _. tt) (codes "send_message") (record (gpu_message code (T.text body.now) [] None) { handles = perhaps (option_map (λ h. h.now) handle.entry) }) (channel self.old) (seen_io_result result) (channel self.new) }
    {
        match handle {
            Some(handle) => self.tell("send_message", code, body, &[], &[handle]),
            None => self.tell("send_message", code, body, &[], &[]),
        }
    }
}
