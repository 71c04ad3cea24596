//! Numbers and addresses of a ring.

ghost use Rattle.std.specs.Prelude.{◌≡◌, refl};
ghost use Rattle.vhost_message.specs.Records.{vring_state_text, vring_state_of, vring_addr_text, vring_addr_of};
ghost use Rattle.vhost_message.specs.RecordLaws.{VringStateFits, VringAddrFits, vring_state-reads_back, vring_addr-reads_back};
ghost use Rattle.vhost_message.specs.FlagBits.{vring_addr_bits};
ghost use Rattle.vhost_message.specs.Valid.{is_valid_vring_addr};

use crate::bytes::{ByteValued, VhostUserMsgValidator};
use crate::flags::VhostUserVringAddrFlags;
use bitflags::Flags;
use byteorder::{ByteOrder, LittleEndian};

/// A number for one ring: its size in descriptors, its next index or whether it is enabled (vhost-user specification,
/// "A vring state description").
#[derive(Clone, Copy, Default)]
pub struct VhostUserVringState {
    /// The ring.
    pub index: u32,
    /// The number.
    pub num: u32,
}

impl VhostUserVringState {
    /// The number `num` for the ring `index`.
    pub fn new(index: u32, num: u32) -> Self
        ensures { result ≡ record { index = index; num = num } }
    {
        VhostUserVringState { index, num }
    }
}

impl ByteValued for VhostUserVringState {
    const SIZE: usize = 8;

    ghost SIZE = { 8 };

    ghost text = { vring_state_text };

    ghost read = { vring_state_of };

    ghost fits = { VringStateFits };

    ghost text_length = { λ _ _. refl };

    ghost reads_back = { vring_state-reads_back };

    fn encode_into(&self, out: &mut [u8]) {
        let VhostUserVringState { num, index } = *self;
        LittleEndian::write_u32(out, index);
        LittleEndian::write_u32(&mut out[4..], num);
    }

    fn decode(b: &[u8]) -> Self {
        VhostUserVringState {
            index: LittleEndian::read_u32(b),
            num: LittleEndian::read_u32(&b[4..]),
        }
    }
}

impl VhostUserMsgValidator for VhostUserVringState {
    fn is_valid(&self) -> bool {
        true
    }
}

/// Where the parts of one ring lie in the frontend's memory, and where its writes are logged (vhost-user specification,
/// "A vring address description").
#[derive(Clone, Copy, Default)]
pub struct VhostUserVringAddr {
    /// The ring.
    pub index: u32,
    /// Bits of `VhostUserVringAddrFlags`.
    pub flags: u32,
    /// The table of descriptors, a multiple of 16.
    pub descriptor: u64,
    /// The used ring, a multiple of 4.
    pub used: u64,
    /// The available ring, a multiple of 2.
    pub available: u64,
    /// Where writes to the used ring are logged, in the guest.
    pub log: u64,
}

impl VhostUserVringAddr {
    /// The addresses of the ring `index`.
    pub fn new(
        index: u32,
        flags: VhostUserVringAddrFlags,
        descriptor: u64,
        used: u64,
        available: u64,
        log: u64,
    ) -> Self
        ensures { result ≡ record { index = index; flags = vring_addr_bits flags; descriptor = descriptor; used = used; available = available; log = log } }
    {
        VhostUserVringAddr {
            index,
            flags: flags.bits(),
            descriptor,
            used,
            available,
            log,
        }
    }
}

impl ByteValued for VhostUserVringAddr {
    const SIZE: usize = 40;

    ghost SIZE = { 40 };

    ghost text = { vring_addr_text };

    ghost read = { vring_addr_of };

    ghost fits = { VringAddrFits };

    ghost text_length = { λ _ _. refl };

    ghost reads_back = { vring_addr-reads_back };

    fn encode_into(&self, out: &mut [u8]) {
        let VhostUserVringAddr {
            index,
            flags,
            descriptor,
            used,
            available,
            log,
        } = *self;
        LittleEndian::write_u32(out, index);
        LittleEndian::write_u32(&mut out[4..], flags);
        LittleEndian::write_u64(&mut out[8..], descriptor);
        LittleEndian::write_u64(&mut out[16..], used);
        LittleEndian::write_u64(&mut out[24..], available);
        LittleEndian::write_u64(&mut out[32..], log);
    }

    fn decode(b: &[u8]) -> Self {
        VhostUserVringAddr {
            index: LittleEndian::read_u32(b),
            flags: LittleEndian::read_u32(&b[4..]),
            descriptor: LittleEndian::read_u64(&b[8..]),
            used: LittleEndian::read_u64(&b[16..]),
            available: LittleEndian::read_u64(&b[24..]),
            log: LittleEndian::read_u64(&b[32..]),
        }
    }
}

impl VhostUserMsgValidator for VhostUserVringAddr {
    ghost valid = { is_valid_vring_addr };

    fn is_valid(&self) -> bool {
        VhostUserVringAddrFlags::is_known(self.flags)
            && self.descriptor % 16 == 0
            && self.available % 2 == 0
            && self.used % 4 == 0
    }
}
