//! Bytes of the device's configuration space.

ghost use Rattle.std.specs.Prelude.{◌≡◌, ◌≤◌, ◌+◌, ◌&&◌, ◌==◌, ℕ, List, [], IfOk, length, nat_le};
ghost use Rattle.vhost_message.specs.declared.limits.TheConstants.{MAX_MSG_SIZE};
ghost use Rattle.vhost_message.specs.FlagBits.{config_bits};
ghost use Rattle.vhost_message.specs.Valid.{is_valid_config};
ghost use Rattle.vhost_message.specs.HeardReq.{request_of};
ghost use Rattle.vhost_message.specs.Header.{is_reply_for};
ghost use Rattle.vhost_message.specs.MsgHeader.{fields_of};
ghost use Rattle.vhost_message.specs.declared.heard_req.HeardReq.TheVariants.{GET_CONFIG};
ghost use Rattle.vhost_protocol.specs.Ask as ask;
ghost use Rattle.vhost_protocol.specs.declared.asked.Awaited.TheVariants.{Nobody, Reply};
ghost use Rattle.vhost_protocol.specs.declared.asked.Shape.TheVariants as shape;
ghost use Rattle.vhost_protocol.specs.FrontendCall as call;
ghost use Rattle.vhost_protocol.specs.Written.{ConfigBytes};
ghost use Rattle.vhost_frontend_core.specs.Asking.{tested};
ghost use Rattle.vhost_frontend_core.specs.Kept.{KeepsConfig, IsKeptFor};
ghost use Rattle.vhost_frontend_core.specs.Session.{frontend_of};
ghost use Rattle.vhost_frontend_core.specs.TakingConfig.{is_asked};

use crate::asked::{Kept, Sent};
use crate::internal::{FrontendInternal, Header};
use crate::session::{FrontendSession, param, valid};
use vhost_connection::break_on_fault;
use vhost_link::Link;
use vhost_message::{
    ByteValued, Error, HeardReq, MAX_MSG_SIZE, Result, VhostUserConfig, VhostUserConfigFlags,
    VhostUserMsgValidator, protocol_bit,
};
use vhost_protocol::{Awaited, Profile, Shape};

/// How many bytes the record of a part has.
const RECORD: usize = VhostUserConfig::SIZE;

impl<L: Link> FrontendInternal<L> {
    ghost use Rattle.vhost_frontend_core.specs.Asking.{AsksWithRoom};
    ghost use Rattle.vhost_frontend_core.specs.Frontend.{endpoint_of, session_of, awaits};
    ghost use Rattle.vhost_frontend_core.specs.TakingConfig.{ReadsBytes, RecvsConfig};
    ghost use Rattle.vhost_frontend_core.specs.Halves.{AsksHalf, AsksHalfWithRoom, TakesHalf};

    /// Changes the configuration space from this byte on.
    pub fn ask_set_config(
        &mut self,
        offset: u32,
        flags: VhostUserConfigFlags,
        buffer: &[u8],
    ) -> Result<Sent>
        ensures { AsksHalf L.event (call.SetConfig offset (config_bits flags) buffer.now) self.old result self.new }
    {
        param(buffer.len() <= MAX_MSG_SIZE)?;
        let part = part_of(offset, buffer.len() as u32, flags)?;
        self.session.needs(protocol_bit::CONFIG)?;
        param(VhostUserConfig::SIZE + buffer.len() <= MAX_MSG_SIZE)?;
        let request = (
            HeardReq::SET_CONFIG,
            self.session.flags(),
            self.session.acknowledgement(),
        );
        self.send(request, &part, buffer, &[])
    }

    /// Asks for `size` bytes from this byte on; as many as the buffer has, which is sent along.
    pub fn ask_get_config(
        &mut self,
        offset: u32,
        size: u32,
        flags: VhostUserConfigFlags,
        buffer: &[u8],
    ) -> Result<Sent>
        ensures asked { AsksHalfWithRoom L.event (call.GetConfig offset size (config_bits flags) buffer.now) self.old result self.new }
        ensures kept { IfOk result (λ sent. IsKeptFor {H = L.Handle} (call.GetConfig offset size (config_bits flags) buffer.now) sent.awaited sent.kept) }
    {
        let part = part_with_room(self.session, offset, size, flags, buffer)?;
        self.session.needs(protocol_bit::CONFIG)?;
        fits(buffer)?;
        self.ask_bytes(part, buffer)
    }

    /// The same of a valid part, and of a buffer that fits.
    fn ask_bytes(&mut self, part: VhostUserConfig, buffer: &[u8]) -> Result<Sent>
        requires fits { 12 + length buffer.now ≤ MAX_MSG_SIZE }
        ensures asked { AsksWithRoom L.event (ask.asks (session_of self.old) GET_CONFIG (ConfigBytes part buffer.now) [] shape.Config) (endpoint_of self.old) (session_of self.old) (awaits self.old) result (endpoint_of self.new) (session_of self.new) (awaits self.new) }
        ensures kept { IfOk result (λ sent. KeepsConfig part (length buffer.now) sent.kept) }
    {
        let Ok(bytes) = Vec::from_slice(self.alloc, buffer) else {
            return Err(Error::OutOfMemory);
        };
        let flags = self.session.flags();
        let request = (HeardReq::GET_CONFIG, flags, Awaited::Reply(Shape::Config));
        match self.send(request, &part, buffer, &[]) {
            Ok(mut sent) => {
                sent.kept = Kept::Config(part, bytes);
                Ok(sent)
            }
            Err(error) => Err(error),
        }
    }

    /// Receives the bytes, and where they lie.
    pub fn take_get_config(&mut self, sent: Sent) -> Result<(VhostUserConfig, Vec<u8>)>
        ensures taken { (offset size flags : ℕ) (buffer : List ℕ) → IsKeptFor {H = L.Handle} (call.GetConfig offset size flags buffer) (Reply shape.Config) sent.kept
            → TakesHalf L.event (call.GetConfig offset size flags buffer) (λ part. call.ConfigOf part.0 part.1.items) (Reply shape.Config) sent self.old result self.new }
        ensures quiet { awaits self.new ≡ Nobody }
    {
        self.awaited = Awaited::Nobody;
        let Sent { request, kept, .. } = sent;
        if request.is_reply() {
            return Err(Error::InvalidParam);
        }
        let Kept::Config(asked, mut bytes) = kept else {
            return Err(Error::InvalidMessage);
        };
        let room = &mut bytes[..];
        let count = room.len();
        if count == 0 {
            return Err(Error::InvalidParam);
        }
        match self.recv_config(&request, room) {
            Ok(part) => {
                if !is_same(&asked, count, &part) {
                    return Err(Error::InvalidMessage);
                }
                Ok((part, bytes))
            }
            Err(error) => Err(error),
        }
    }

    /// Receives the reply with configuration bytes, or None for one that has none, by the session's profile.
    fn recv_bytes(
        &mut self,
        request: &Header,
        room: &mut [u8],
    ) -> Result<Option<(Header, VhostUserConfig, usize, Option<Vec<L::Handle>>)>>
        ensures same { self.new ≡ record self.old { endpoint = self.new.endpoint } }
        ensures received { ReadsBytes L.event (session_of self.old).profile (fields_of request.now) (endpoint_of self.old) room.old result room.new (endpoint_of self.new) }
    {
        match self.session.profile {
            Profile::Vhost => self.endpoint.recv_payload_or_bare(request, room),
            Profile::Standard => self.endpoint.recv_sized_or_none(request, room),
        }
    }

    /// Receives the reply with configuration bytes, which fill the room, and answers which part they are.
    ///
    /// InvalidMessage: it has another number of bytes, or a descriptor. BackendInternalError: it has none, or is bare.
    fn recv_config(&mut self, request: &Header, room: &mut [u8]) -> Result<VhostUserConfig>
        ensures same { self.new ≡ record self.old { endpoint = self.new.endpoint } }
        ensures received { RecvsConfig L.event (session_of self.old).profile (length room.old) (endpoint_of self.old) (fields_of request.now) result room.new (endpoint_of self.new) }
    {
        let len = room.len();
        let reply = match self.recv_bytes(request, room) {
            Ok(reply) => reply,
            Err(error) => {
                break_on_fault(&mut self.endpoint, &error);
                return Err(error);
            }
        };
        let Some((header, part, count, handles)) = reply else {
            return Err(Error::BackendInternalError);
        };
        if !is_whole(&header, request, count, len) {
            return Err(Error::InvalidMessage);
        }
        if handles.is_some() {
            return Err(Error::InvalidMessage);
        }
        Ok(part)
    }
}

/// InvalidParam: behind its record the buffer is more than fits.
fn fits(buffer: &[u8]) -> Result<()>
    ensures test { ask.param (nat_le (12 + length buffer.now) MAX_MSG_SIZE) ≡ tested result }
    ensures fits { IfOk result (λ _. 12 + length buffer.now ≤ MAX_MSG_SIZE) }
{
    if buffer.len() > MAX_MSG_SIZE - RECORD {
        return Err(Error::InvalidParam);
    }
    Ok(())
}

/// Whether a reply that came with so many bytes answers the request, and has as many as this, as its header says.
fn is_whole(header: &Header, request: &Header, count: usize, room: usize) -> bool
    ensures { result ≡ (is_reply_for request_of (fields_of header.now) (fields_of request.now) && ((fields_of header.now).size == 12 + room && count == room)) }
{
    header.is_reply_for(request) && (says(header.get_size(), room) && count == room)
}

/// Whether this is the size of a body with a record and so many bytes.
fn says(size: u32, count: usize) -> bool
    ensures { result ≡ (size == 12 + count) }
{
    if (size as usize) < RECORD {
        return false;
    }
    size as usize - RECORD == count
}

/// Whether this is the part that was asked for, of so many bytes.
fn is_same(asked: &VhostUserConfig, count: usize, part: &VhostUserConfig) -> bool
    ensures { result ≡ is_asked asked.now count part.now }
{
    part.offset == asked.offset && part.size == asked.size && part.size as usize == count
}

/// The part of so many bytes from this byte on, for which the buffer has room. InvalidParam: as `part_of`; or under `Standard`
/// the buffer is empty.
fn part_with_room(
    session: FrontendSession,
    offset: u32,
    size: u32,
    flags: VhostUserConfigFlags,
    buffer: &[u8],
) -> Result<VhostUserConfig>
    ensures test { ask.param (is_valid_config (ask.config offset size (config_bits flags)) && ask.has_room (frontend_of session) buffer.now) ≡ tested result }
    ensures same { IfOk result (λ part. part ≡ ask.config offset size (config_bits flags)) }
{
    let part = VhostUserConfig::new(offset, size, flags);
    param(part.is_valid() && session.has_room(buffer))?;
    Ok(part)
}

/// The part of so many bytes from this byte on. InvalidParam: there is no byte, or the part goes beyond the space.
fn part_of(offset: u32, size: u32, flags: VhostUserConfigFlags) -> Result<VhostUserConfig>
    ensures test { ask.param (is_valid_config (ask.config offset size (config_bits flags))) ≡ tested result }
    ensures same { IfOk result (λ part. part ≡ ask.config offset size (config_bits flags)) }
{
    let part = VhostUserConfig::new(offset, size, flags);
    valid(&part)?;
    Ok(part)
}
