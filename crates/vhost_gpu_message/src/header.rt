//! The header of each message to or from a display.

ghost use Rattle.std.specs.Prelude.{◌≡◌, ◌<◌, ◌^◌, ◌-◌, ◌&&◌, is_some, refl, ok_or, bit_and, bit_or, if◌then◌else◌};
ghost use Rattle.std.proofs.Common.{rules};
ghost use Rattle.std.specs.Cmp.Rules.{comparing};
ghost use Rattle.vhost_message.specs.Bits.{has_bit, with_bit};
ghost use Rattle.vhost_message.specs.declared.header_bit.TheConstants.{REPLY};
ghost use Rattle.vhost_message.specs.declared.limits.TheConstants.{MSG_HEADER_SIZE};
ghost use Rattle.vhost_message.specs.Header.{header_text, header_of, is_reply_for, is_same};
ghost use Rattle.vhost_message.specs.MsgHeader.{Fits};
ghost use Rattle.vhost_message.specs.declared.error.Error.TheVariants.{InvalidMessage};
ghost use Rattle.vhost_gpu_message.specs.declared.limits.TheConstants.{MAX_GPU_MSG_SIZE};
ghost use Rattle.vhost_gpu_message.specs.GpuHeader.{gpu_fields_of, of_gpu_fields, is_valid_gpu_header, gpu_header-reads_back};

use crate::flags::VhostUserGpuHeaderFlag;
use crate::limits::MAX_GPU_MSG_SIZE;
use bitflags::Flags;
use byteorder::{ByteOrder, LittleEndian};
use std::fmt;
use std::marker::PhantomData;
use vhost_message::{
    ByteValued, Error, MSG_HEADER_SIZE, MsgHeader, Req, Result, VhostUserMsgValidator,
};

/// The header of a message to or from a display: the number of its request, flags, and the size of its body in bytes.
/// The number may be none of the codes of `R`: then the header isn't valid.
#[derive(Clone, Copy, Drop)]
pub struct VhostUserGpuMsgHeader<R: Req> {
    request: u32,
    flags: u32,
    size: u32,
    of: PhantomData<R>,
}

impl<R: Req> VhostUserGpuMsgHeader<R> {
    /// The header of a request with these flags, of which all are kept.
    pub fn new(request: R, flags: u32, size: u32) -> Self
        ensures { gpu_fields_of result ≡ record { code = R.number request; flags = flags; size = size } }
    {
        VhostUserGpuMsgHeader {
            request: request.number(),
            flags,
            size,
            of: PhantomData,
        }
    }

    /// The code of the request; InvalidMessage where its number is none of the codes.
    pub fn get_code(&self) -> Result<R>
        ensures { result ≡ ok_or (R.code (gpu_fields_of self.now).code) InvalidMessage }
    {
        R::code(self.request).ok_or(Error::InvalidMessage)
    }

    /// The size of the body, in bytes.
    pub fn get_size(&self) -> u32
        ensures { result ≡ (gpu_fields_of self.now).size }
    {
        self.size
    }

    /// Changes the size of the body, in bytes, and nothing else.
    pub fn set_size(&mut self, size: u32)
        ensures { gpu_fields_of self.new ≡ record (gpu_fields_of self.old) { size = size } }
    {
        self.size = size;
    }

    /// Whether the message is a reply.
    pub fn is_reply(&self) -> bool
        ensures { result ≡ has_bit (gpu_fields_of self.now).flags REPLY }
    {
        self.flags & VhostUserGpuHeaderFlag::REPLY.bits() != 0
    }

    /// Says whether the message is a reply, and changes nothing else.
    pub fn set_reply(&mut self, is_reply: bool)
        ensures { gpu_fields_of self.new ≡ record (gpu_fields_of self.old) { flags = with_bit REPLY is_reply (gpu_fields_of self.old).flags } }
    {
        self.set_flag(VhostUserGpuHeaderFlag::REPLY, is_reply);
    }

    /// Whether this header answers that of `request`: both have the same known code, this one has REPLY, and the
    /// other has not. Sizes are not compared.
    pub fn is_reply_for(&self, request: &VhostUserGpuMsgHeader<R>) -> bool
        ensures { result ≡ is_reply_for R.code (gpu_fields_of self.now) (gpu_fields_of request.now) }
    {
        R::code(self.request).is_some()
            && self.request == request.request
            && self.is_reply()
            && !request.is_reply()
    }

    // Sets or clears one flag.
    fn set_flag(&mut self, flag: VhostUserGpuHeaderFlag, on: bool)
        ensures fits { (gpu_fields_of self.old).flags < 2 ^ 32 }
        ensures flags { gpu_fields_of self.new ≡ record (gpu_fields_of self.old) { flags = if on then bit_or (gpu_fields_of self.old).flags flag.bits else bit_and (gpu_fields_of self.old).flags (2 ^ 32 - 1 - flag.bits) } }
    {
        let mut flags = VhostUserGpuHeaderFlag::from_bits_retain(self.flags);
        flags.set(flag, on);
        self.flags = flags.bits();
    }
}

impl<R: Req> Default for VhostUserGpuMsgHeader<R> {
    ghost is_default = { λ h. gpu_fields_of h ≡ record { code = 0; flags = 0; size = 0 } };

    /// The request 0, which is no code, with no flag and no body.
    fn default() -> Self {
        VhostUserGpuMsgHeader {
            request: 0,
            flags: 0,
            size: 0,
            of: PhantomData,
        }
    }
}

impl<R: Req> PartialEq for VhostUserGpuMsgHeader<R> {
    ghost eq = { λ a b. is_same (gpu_fields_of a) (gpu_fields_of b) };

    ghost laws = { Prim.search (comparing, rules) };

    /// Whether all three numbers are equal.
    fn eq(&self, other: &Self) -> bool {
        self.request == other.request && self.flags == other.flags && self.size == other.size
    }
}

impl<R: Req> fmt::Debug for VhostUserGpuMsgHeader<R> {
    fn fmt<W: fmt::Write>(&self, f: &mut fmt::Formatter<W>) -> fmt::Result {
        f.debug_struct("VhostUserGpuMsgHeader")
            .field("request", &self.request)
            .field("flags", &self.flags)
            .field("size", &self.size)
            .finish()
    }
}

impl<R: Req> ByteValued for VhostUserGpuMsgHeader<R> {
    const SIZE: usize = MSG_HEADER_SIZE;

    ghost SIZE = { MSG_HEADER_SIZE };

    ghost text = { λ h. header_text (gpu_fields_of h) };

    ghost read = { λ bytes. of_gpu_fields (header_of bytes) };

    ghost fits = { λ h. Fits (gpu_fields_of h) };

    ghost text_length = { λ h _. refl };

    ghost reads_back = { gpu_header-reads_back };

    fn encode_into(&self, out: &mut [u8]) {
        let (request, flags, size) = (self.request, self.flags, self.size);
        LittleEndian::write_u32(out, request);
        LittleEndian::write_u32(&mut out[4..], flags);
        LittleEndian::write_u32(&mut out[8..], size);
    }

    fn decode(b: &[u8]) -> Self {
        VhostUserGpuMsgHeader {
            request: LittleEndian::read_u32(b),
            flags: LittleEndian::read_u32(&b[4..]),
            size: LittleEndian::read_u32(&b[8..]),
            of: PhantomData,
        }
    }
}

impl<R: Req> VhostUserMsgValidator for VhostUserGpuMsgHeader<R> {
    ghost valid = { λ h. is_some (R.code (gpu_fields_of h).code) && is_valid_gpu_header (gpu_fields_of h) };

    fn is_valid(&self) -> bool {
        R::code(self.request).is_some()
            && (self.flags == 0 || self.flags == VhostUserGpuHeaderFlag::REPLY.bits())
    }
}

impl<R: Req> MsgHeader for VhostUserGpuMsgHeader<R> {
    type Request = R;

    const MAX_MSG_SIZE: usize = MAX_GPU_MSG_SIZE;

    ghost MAX_MSG_SIZE = { MAX_GPU_MSG_SIZE };

    ghost size_of_header = { refl };

    ghost heard = { λ _ h. is_some (R.code (gpu_fields_of h).code) && is_valid_gpu_header (gpu_fields_of h) };

    ghost heard_is_valid = { λ h. refl };

    /// Only a valid one is: no display's request has a number without a name.
    fn is_heard(&self, _: bool) -> bool {
        self.is_valid()
    }
}
