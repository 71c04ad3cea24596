//! Replies that are read by their header: that, and as many bytes as it announces.

ghost use Rattle.std.specs.Prelude.{◌≡◌, ◌≤◌, ◌+◌, ◌==◌, ◌&&◌, ◌||◌, length};
ghost use Rattle.vhost_message.specs.declared.limits.TheConstants.{MAX_MSG_SIZE};
ghost use Rattle.vhost_message.specs.Header.{is_reply_for};
ghost use Rattle.vhost_message.specs.MsgHeader.{fields_of};
ghost use Rattle.vhost_protocol.specs.declared.profile.Profile.TheVariants.{Standard};
ghost use Rattle.vhost_connection.specs.Asking.{is_known_by};
ghost use Rattle.vhost_connection.specs.Whole.{sized_by};

use crate::endpoint::Endpoint;
use crate::fault::break_on_fault;
use crate::list::Front;
use crate::pass::{PassEnd, recv_bytes};
use vhost_link::Link;
use vhost_message::{
    ByteValued, Error, MSG_HEADER_SIZE, Req, Result, VhostUserConfig, VhostUserMsgHeader,
    VhostUserMsgValidator,
};

impl<R: Req, L: Link> Endpoint<VhostUserMsgHeader<R>, L> {
    ghost use Rattle.std.specs.Prelude.{None};
    ghost use Rattle.vhost_connection.specs.Asking.{RecvsReply};
    ghost use Rattle.vhost_connection.specs.State.{state};
    ghost use Rattle.vhost_connection.specs.Whole.{ReadsBehind, ReadsWhole, RecvsAny, ReadsOrNone};

    /// Receives a reply with a record that fills the rest of its size with what fits into the room: the size that its
    /// header says, the record, how many bytes lie in the room now, and the descriptors.
    ///
    /// InvalidMessage: header or record are not valid, or what came is no reply for the request, or has another size. But for
    /// a header that is not valid, or says another size, it was received whole. PartialMessage: the stream ended before the
    /// reply did.
    pub(super) fn recv_sized<T: VhostUserMsgValidator + Drop>(
        &mut self,
        request: &VhostUserMsgHeader<R>,
        room: &mut [u8],
    ) -> Result<(u32, T, usize, Option<Vec<L::Handle>>)>
        requires { T.SIZE ≤ MAX_MSG_SIZE }
        ensures { RecvsReply L.event (is_known_by R.code) R.code Standard T.SIZE T.read T.valid (state self.old) (fields_of request.now) room.old result room.new (state self.new) }
    {
        let count = room.len();
        match self.recv_whole(Sizes::One(T::SIZE, count)) {
            Ok((header, front)) => {
                let size = header.get_size() as usize;
                let body = T::decode(&self.text[..T::SIZE]);
                if !body.is_valid() || !header.is_reply_for(request) {
                    self.put_back(front.list);
                    return Err(Error::InvalidMessage);
                }
                room.copy_from_slice(&self.text[T::SIZE..size]);
                Ok((header.get_size(), body, count, self.give(front.list)))
            }
            Err(error) => {
                break_on_fault(self, &error);
                Err(error)
            }
        }
    }

    /// Receives a reply of any size for a request: its descriptors. It stands between a request and the end of its answer:
    /// an I/O error poisons the endpoint.
    ///
    /// InvalidMessage: its header is not valid, or what came is no reply for the request. PartialMessage: the stream ended
    /// before the reply did.
    pub fn recv_any_reply(
        &mut self,
        request: &VhostUserMsgHeader<R>,
    ) -> Result<Option<Vec<L::Handle>>>
        ensures { RecvsAny L.event R.code (state self.old) (fields_of request.now) result (state self.new) }
    {
        match self.recv_whole(Sizes::Any) {
            Ok((header, front)) => {
                if !header.is_reply_for(request) {
                    self.put_back(front.list);
                    return Err(Error::InvalidMessage);
                }
                Ok(self.give(front.list))
            }
            Err(error) => {
                break_on_fault(self, &error);
                Err(error)
            }
        }
    }

    /// Receives the reply to a request for configuration bytes: a header, a record, and bytes that fill the buffer; the
    /// answer has how many those are, and the descriptors. Whether it answers the request is not looked at.
    ///
    /// None: the reply answers the request, has no descriptor, and has no body; or it is the record alone, which says 0 bytes.
    ///
    /// InvalidMessage: header or record are not valid, or the reply has another size. But for a header that is not valid, or
    /// says another size, it was received whole. PartialMessage: the stream ended before the reply did. OutOfMemory: as in
    /// `recv_header`.
    pub fn recv_sized_or_none(
        &mut self,
        request: &VhostUserMsgHeader<R>,
        buf: &mut [u8],
    ) -> Result<
        Option<
            (
                VhostUserMsgHeader<R>,
                VhostUserConfig,
                usize,
                Option<Vec<L::Handle>>,
            ),
        >,
    >
        ensures { ReadsOrNone L.event R.code (fields_of request.now) (state self.old) buf.old result buf.new (state self.new) }
    {
        let count = buf.len();
        let (header, front) = self.recv_whole(Sizes::Config(count))?;
        let size = header.get_size() as usize;
        let part = VhostUserConfig::decode(&self.text[..VhostUserConfig::SIZE]);
        if is_empty(&header, request, &front.list, &part) {
            self.put_back(front.list);
            return Ok(None);
        }
        if !is_sum(size, VhostUserConfig::SIZE, count) || !part.is_valid() {
            self.put_back(front.list);
            return Err(Error::InvalidMessage);
        }
        buf.copy_from_slice(&self.text[VhostUserConfig::SIZE..size]);
        Ok(Some((header, part, count, self.give(front.list))))
    }

    /// Receives a header, and as many bytes as it announces to the start of the buffer, with the descriptors of the first byte
    /// in a buffer that is not moved out yet.
    ///
    /// PartialMessage: the stream ended first. InvalidMessage: the header was received, and is not valid, or announces another
    /// size than it may; for bytes that may never come nobody waits.
    fn recv_whole(&mut self, sizes: Sizes) -> Result<(VhostUserMsgHeader<R>, Front<L::Handle>)>
        ensures { ReadsWhole L.event (sized_by (is_known_by R.code) sizes) (state self.old) result self.new.text.value (state self.new) }
    {
        let Front {
            count,
            left,
            list,
            ..
        } = self.recv_front(MSG_HEADER_SIZE)?;
        if count < MSG_HEADER_SIZE {
            self.put_back(list);
            return Err(Error::PartialMessage);
        }
        let header = VhostUserMsgHeader::decode(&self.text[..MSG_HEADER_SIZE]);
        if !is_awaited(&header, sizes) {
            self.put_back(list);
            return Err(Error::InvalidMessage);
        }
        let size = header.get_size() as usize;
        match self.recv_behind(size, left) {
            Ok(more) => {
                if more < size {
                    self.put_back(list);
                    return Err(Error::PartialMessage);
                }
                Ok((
                    header,
                    Front {
                        count,
                        more,
                        left,
                        list,
                    },
                ))
            }
            Err(error) => {
                self.put_back(list);
                Err(error)
            }
        }
    }

    /// Receives so many bytes to the start of the buffer, or fewer and then the end, behind the prefix of a message and with
    /// the retries that it has left. Descriptors are dropped.
    fn recv_behind(&mut self, len: usize, left: u32) -> Result<usize>
        requires sound { (state self.old).broken ≡ None }
        requires len { len ≤ MAX_MSG_SIZE }
        ensures { ReadsBehind L.event (state self.old) left len result self.new.text.value (state self.new) }
    {
        self.faulted = false;
        let got = recv_bytes(
            &mut self.source,
            &mut self.text[..],
            len,
            &mut self.spare.list,
            left,
        );
        if let PassEnd::Fault(cause) = got.stop {
            return Err(self.fail(cause, true));
        }
        Ok(got.count)
    }
}

/// The sizes that a reply may have.
#[derive(Clone, Copy)]
enum Sizes {
    /// Any size.
    Any,
    /// That of a record and of what is behind it.
    One(usize, usize),
    /// None, a record of configuration bytes, or one with so many bytes behind it.
    Config(usize),
}

/// Whether a header is valid, and says a size that the reply may have.
fn is_awaited<R: Req>(header: &VhostUserMsgHeader<R>, sizes: Sizes) -> bool
    ensures { result ≡ sized_by (is_known_by R.code) sizes (fields_of header.now) }
{
    let size = header.get_size() as usize;
    header.is_valid()
        && match sizes {
            Sizes::Any => true,
            Sizes::One(front, room) => is_sum(size, front, room),
            Sizes::Config(room) => {
                size == 0
                    || size == VhostUserConfig::SIZE
                    || is_sum(size, VhostUserConfig::SIZE, room)
            }
        }
}

/// Whether this is the size of a record, which is in front, and of what is behind it.
fn is_sum(size: usize, front: usize, room: usize) -> bool
    ensures { result ≡ (size == front + room) }
{
    if size < front {
        return false;
    }
    size - front == room
}

/// Whether a reply, which came with these descriptors, answers the request and says that there are no configuration bytes: it
/// has no body, or the record alone, which says 0 bytes.
fn is_empty<R: Req, H>(
    header: &VhostUserMsgHeader<R>,
    request: &VhostUserMsgHeader<R>,
    handles: &[H],
    part: &VhostUserConfig,
) -> bool
    ensures { result ≡ (is_reply_for R.code (fields_of header.now) (fields_of request.now) && length handles.now == 0
        && ((fields_of header.now).size == 0 || (fields_of header.now).size == 12 && part.now.size == 0)) }
{
    let size = header.get_size() as usize;
    header.is_reply_for(request)
        && handles.is_empty()
        && (size == 0 || size == VhostUserConfig::SIZE && part.size == 0)
}
