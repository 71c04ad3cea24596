//! The header of each message.

ghost use Rattle.std.specs.Prelude.{◌≡◌, ◌<◌, ◌^◌, ◌+◌, ◌-◌, ◌*◌, ◌/◌, ◌%◌, ◌&&◌, is_some, refl, ok_or, bit_and, bit_or, if◌then◌else◌};
ghost use Rattle.std.proofs.Common.{rules};
ghost use Rattle.std.specs.Cmp.Rules.{comparing};
ghost use Rattle.vhost_message.specs.Bits.{has_bit, with_bit};
ghost use Rattle.vhost_message.specs.Codes.{heard_by};
ghost use Rattle.vhost_message.specs.declared.header_bit.TheConstants.{NEED_REPLY, REPLY};
ghost use Rattle.vhost_message.specs.declared.limits.TheConstants.{MAX_MSG_SIZE, MSG_HEADER_SIZE};
ghost use Rattle.vhost_message.specs.Header.{header_text, header_of, is_valid_header, with_version, is_reply_for, is_same};
ghost use Rattle.vhost_message.specs.MsgHeader.{fields_of, of_fields, Fits, header-reads_back};

use crate::bytes::{ByteValued, VhostUserMsgValidator};
use crate::error::{Error, Result};
use crate::flags::VhostUserHeaderFlag;
use crate::limits::{MAX_MSG_SIZE, MSG_HEADER_SIZE};
use crate::req::{MsgHeader, Req};
use bitflags::Flags;
use byteorder::{ByteOrder, LittleEndian};
use std::fmt;
use std::marker::PhantomData;

/// The header of a message: the number of its request, flags, and the size of its body in bytes. The number may be
/// none of the codes of `R`: then the header isn't valid.
#[derive(Clone, Copy, Drop)]
pub struct VhostUserMsgHeader<R: Req> {
    request: u32,
    flags: u32,
    size: u32,
    of: PhantomData<R>,
}

impl<R: Req> VhostUserMsgHeader<R> {
    /// The header of a request with the version 1. Of the flags only REPLY and NEED_REPLY are kept.
    #[tactic(auto, using(crate::proofs::HeaderFlags::kept_flags))]
    pub fn new(request: R, flags: u32, size: u32) -> Self
        ensures { fields_of result ≡ record { code = R.number request; flags = with_version flags; size = size } }
    {
        VhostUserMsgHeader {
            request: request.number(),
            flags: flags & 0xc | 1,
            size,
            of: PhantomData,
        }
    }

    /// The code of the request; InvalidMessage where its number is none of the codes.
    pub fn get_code(&self) -> Result<R>
        ensures { result ≡ ok_or (R.code (fields_of self.now).code) Error.InvalidMessage }
    {
        R::code(self.request).ok_or(Error::InvalidMessage)
    }

    /// The code of the request, where any number may be one, and where it may not; InvalidMessage where it has none.
    pub fn get_heard(&self, any_number: bool) -> Result<R>
        ensures { result ≡ ok_or (heard_by R.code R.any any_number (fields_of self.now).code) Error.InvalidMessage }
    {
        heard::<R>(self.request, any_number).ok_or(Error::InvalidMessage)
    }

    /// Changes the code, and nothing else.
    pub fn set_code(&mut self, request: R)
        ensures { fields_of self.new ≡ record (fields_of self.old) { code = R.number request } }
    {
        self.request = request.number();
    }

    /// The size of the body, in bytes.
    pub fn get_size(&self) -> u32
        ensures { result ≡ (fields_of self.now).size }
    {
        self.size
    }

    /// Changes the size of the body, in bytes, and nothing else.
    pub fn set_size(&mut self, size: u32)
        ensures { fields_of self.new ≡ record (fields_of self.old) { size = size } }
    {
        self.size = size;
    }

    /// The version of the protocol: the two low bits of the flags.
    pub fn get_version(&self) -> u32
        ensures { result ≡ (fields_of self.now).flags % 4 }
    {
        self.flags & VhostUserHeaderFlag::VERSION.bits()
    }

    /// Changes the version to the two low bits of `version`, and no other bit.
    pub fn set_version(&mut self, version: u32)
        ensures { fields_of self.new ≡ record (fields_of self.old) { flags = (fields_of self.old).flags / 4 * 4 + version % 4 } }
    {
        let flags = self.flags;
        let mask = VhostUserHeaderFlag::VERSION.bits();
        self.flags = flags & !mask | version & mask;
    }

    /// Whether the message is a reply.
    pub fn is_reply(&self) -> bool
        ensures { result ≡ has_bit (fields_of self.now).flags REPLY }
    {
        self.flags & VhostUserHeaderFlag::REPLY.bits() != 0
    }

    /// Says whether the message is a reply, and changes nothing else.
    pub fn set_reply(&mut self, is_reply: bool)
        ensures { fields_of self.new ≡ record (fields_of self.old) { flags = with_bit REPLY is_reply (fields_of self.old).flags } }
    {
        self.set_flag(VhostUserHeaderFlag::REPLY, is_reply);
    }

    /// Whether the sender asks for an acknowledgement.
    pub fn is_need_reply(&self) -> bool
        ensures { result ≡ has_bit (fields_of self.now).flags NEED_REPLY }
    {
        self.flags & VhostUserHeaderFlag::NEED_REPLY.bits() != 0
    }

    /// Says whether the sender asks for an acknowledgement, and changes nothing else.
    pub fn set_need_reply(&mut self, need_reply: bool)
        ensures { fields_of self.new ≡ record (fields_of self.old) { flags = with_bit NEED_REPLY need_reply (fields_of self.old).flags } }
    {
        self.set_flag(VhostUserHeaderFlag::NEED_REPLY, need_reply);
    }

    /// Whether this header answers that of `request`: both have the same known code, this one has REPLY, and the
    /// other has not. Sizes are not compared.
    pub fn is_reply_for(&self, request: &VhostUserMsgHeader<R>) -> bool
        ensures { result ≡ is_reply_for R.code (fields_of self.now) (fields_of request.now) }
    {
        R::code(self.request).is_some()
            && self.request == request.request
            && self.is_reply()
            && !request.is_reply()
    }

    // Sets or clears one flag.
    fn set_flag(&mut self, flag: VhostUserHeaderFlag, on: bool)
        ensures fits { (fields_of self.old).flags < 2 ^ 32 }
        ensures flags { fields_of self.new ≡ record (fields_of self.old) { flags = if on then bit_or (fields_of self.old).flags flag.bits else bit_and (fields_of self.old).flags (2 ^ 32 - 1 - flag.bits) } }
    {
        let mut flags = VhostUserHeaderFlag::from_bits_retain(self.flags);
        flags.set(flag, on);
        self.flags = flags.bits();
    }
}

/// The code that a number is heard as, where any number may be one, and where it may not.
fn heard<R: Req>(number: u32, any_number: bool) -> Option<R>
    ensures { result ≡ heard_by R.code R.any any_number number }
{
    if any_number {
        R::any(number)
    } else {
        R::code(number)
    }
}

impl<R: Req> Default for VhostUserMsgHeader<R> {
    ghost is_default = { λ h. fields_of h ≡ record { code = 0; flags = 1; size = 0 } };

    /// The request 0, which is no code, with version 1 and no body.
    fn default() -> Self {
        VhostUserMsgHeader {
            request: 0,
            flags: 1,
            size: 0,
            of: PhantomData,
        }
    }
}

impl<R: Req> PartialEq for VhostUserMsgHeader<R> {
    ghost eq = { λ a b. is_same (fields_of a) (fields_of b) };

    ghost laws = { Prim.search (comparing, rules) };

    /// Whether all three numbers are equal.
    fn eq(&self, other: &Self) -> bool {
        self.request == other.request && self.flags == other.flags && self.size == other.size
    }
}

impl<R: Req> fmt::Debug for VhostUserMsgHeader<R> {
    fn fmt<W: fmt::Write>(&self, f: &mut fmt::Formatter<W>) -> fmt::Result {
        f.debug_struct("VhostUserMsgHeader")
            .field("request", &self.request)
            .field("flags", &self.flags)
            .field("size", &self.size)
            .finish()
    }
}

impl<R: Req> ByteValued for VhostUserMsgHeader<R> {
    const SIZE: usize = MSG_HEADER_SIZE;

    ghost SIZE = { MSG_HEADER_SIZE };

    ghost text = { λ h. header_text (fields_of h) };

    ghost read = { λ bytes. of_fields (header_of bytes) };

    ghost fits = { λ h. Fits (fields_of h) };

    ghost text_length = { λ h _. refl };

    ghost reads_back = { header-reads_back };

    fn encode_into(&self, out: &mut [u8]) {
        let (request, flags, size) = (self.request, self.flags, self.size);
        LittleEndian::write_u32(out, request);
        LittleEndian::write_u32(&mut out[4..], flags);
        LittleEndian::write_u32(&mut out[8..], size);
    }

    fn decode(b: &[u8]) -> Self {
        VhostUserMsgHeader {
            request: LittleEndian::read_u32(b),
            flags: LittleEndian::read_u32(&b[4..]),
            size: LittleEndian::read_u32(&b[8..]),
            of: PhantomData,
        }
    }
}

impl<R: Req> VhostUserMsgValidator for VhostUserMsgHeader<R> {
    ghost valid = { λ h. is_some (R.code (fields_of h).code) && is_valid_header (fields_of h) };

    fn is_valid(&self) -> bool {
        self.is_heard(false)
    }
}

impl<R: Req> MsgHeader for VhostUserMsgHeader<R> {
    type Request = R;

    const MAX_MSG_SIZE: usize = MAX_MSG_SIZE;

    ghost MAX_MSG_SIZE = { MAX_MSG_SIZE };

    ghost size_of_header = { refl };

    ghost heard = { λ any_number h. is_some (heard_by R.code R.any any_number (fields_of h).code) && is_valid_header (fields_of h) };

    ghost heard_is_valid = { λ h. refl };

    fn is_heard(&self, any_number: bool) -> bool {
        heard::<R>(self.request, any_number).is_some()
            && self.flags & 3 == 1
            && self.flags < 16
            && self.size <= MAX_MSG_SIZE as u32
    }
}
