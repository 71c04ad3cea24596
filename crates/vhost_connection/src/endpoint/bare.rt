//! Replies with configuration bytes, which may be bare.

ghost use Rattle.std.specs.Prelude.{◌≡◌, ◌&&◌, ◌==◌, length, is_some};
ghost use Rattle.vhost_message.specs.Header.{is_valid_header, is_reply_for};
ghost use Rattle.vhost_message.specs.MsgHeader.{fields_of};

use crate::endpoint::Endpoint;
use crate::list::Front;
use vhost_link::Link;
use vhost_message::{
    ByteValued, Error, MSG_HEADER_SIZE, Req, Result, VhostUserConfig, VhostUserMsgHeader,
    VhostUserMsgValidator,
};

impl<R: Req, L: Link> Endpoint<VhostUserMsgHeader<R>, L> {
    ghost use Rattle.vhost_connection.specs.Bare.{ReadsOrBare};
    ghost use Rattle.vhost_connection.specs.State.{state};

    /// Receives the reply to a request for configuration bytes: a header and a record, and then what fits into the buffer,
    /// up to the stream's end; the answer has how many bytes that was, and the descriptors of the first byte. The header's
    /// size is not looked at, nor whether it answers the request.
    ///
    /// None: the reply is bare. Its header is valid, answers the request and says 12 bytes, no descriptors came with the first
    /// byte, and the record says 0 bytes. Nothing is received behind it, and the buffer is as before.
    ///
    /// PartialMessage: the stream ended before or within header and record. InvalidMessage: all of it was received, and
    /// one of the two is not valid. OutOfMemory: as in `recv_header`.
    pub fn recv_payload_or_bare(
        &mut self,
        request: &VhostUserMsgHeader<R>,
        buf: &mut [u8],
    ) -> Result<
        Option<
            (
                VhostUserMsgHeader<R>,
                VhostUserConfig,
                usize,
                Option<Vec<L::Handle>>,
            ),
        >,
    >
        ensures { ReadsOrBare L.event R.code (fields_of request.now) (state self.old) buf.old result buf.new (state self.new) }
    {
        let Front {
            count,
            left,
            list,
            ..
        } = self.recv_front(MSG_HEADER_SIZE + VhostUserConfig::SIZE)?;
        if count < MSG_HEADER_SIZE + VhostUserConfig::SIZE {
            self.put_back(list);
            return Err(Error::PartialMessage);
        }
        let header = VhostUserMsgHeader::decode(&self.text[..MSG_HEADER_SIZE]);
        let part = VhostUserConfig::decode(
            &self.text[MSG_HEADER_SIZE..MSG_HEADER_SIZE + VhostUserConfig::SIZE],
        );
        if is_bare(&header, request, &list, &part) {
            self.put_back(list);
            return Ok(None);
        }
        match self.recv_more(buf, left) {
            Ok(more) => {
                if !header.is_valid() || !part.is_valid() {
                    self.put_back(list);
                    return Err(Error::InvalidMessage);
                }
                Ok(Some((header, part, more, self.give(list))))
            }
            Err(error) => {
                self.put_back(list);
                Err(error)
            }
        }
    }
}

/// Whether header and record, which came with these descriptors, are a bare reply to this request.
fn is_bare<R: Req, H>(
    header: &VhostUserMsgHeader<R>,
    request: &VhostUserMsgHeader<R>,
    handles: &[H],
    part: &VhostUserConfig,
) -> bool
    ensures { result ≡ ((is_some (R.code (fields_of header.now).code) && is_valid_header (fields_of header.now))
        && is_reply_for R.code (fields_of header.now) (fields_of request.now) && (fields_of header.now).size == 12 && length handles.now == 0 && part.now.size == 0) }
{
    header.is_valid()
        && header.is_reply_for(request)
        && header.get_size() as usize == VhostUserConfig::SIZE
        && handles.is_empty()
        && part.size == 0
}
