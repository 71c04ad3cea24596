//! A part of the device's configuration space.

ghost use Rattle.std.specs.Prelude.{◌≡◌, refl};
ghost use Rattle.vhost_message.specs.Records.{config_text, config_of};
ghost use Rattle.vhost_message.specs.RecordLaws.{ConfigFits, config-reads_back};
ghost use Rattle.vhost_message.specs.FlagBits.{config_bits};
ghost use Rattle.vhost_message.specs.Valid.{is_valid_config};

use crate::bytes::{ByteValued, VhostUserMsgValidator};
use crate::flags::VhostUserConfigFlags;
use crate::limits::VHOST_USER_CONFIG_SIZE;
use bitflags::Flags;
use byteorder::{ByteOrder, LittleEndian};

/// A part of the configuration space: where it begins and how long it is, in bytes, and flags (vhost-user
/// specification, "Virtio device config space").
#[derive(Clone, Copy, Default)]
pub struct VhostUserConfig {
    /// The first byte.
    pub offset: u32,
    /// How many bytes.
    pub size: u32,
    /// Bits of `VhostUserConfigFlags`.
    pub flags: u32,
}

impl VhostUserConfig {
    /// The `size` bytes from `offset` on.
    pub fn new(offset: u32, size: u32, flags: VhostUserConfigFlags) -> Self
        ensures { result ≡ record { offset = offset; size = size; flags = config_bits flags } }
    {
        VhostUserConfig {
            offset,
            size,
            flags: flags.bits(),
        }
    }
}

impl ByteValued for VhostUserConfig {
    const SIZE: usize = 12;

    ghost SIZE = { 12 };

    ghost text = { config_text };

    ghost read = { config_of };

    ghost fits = { ConfigFits };

    ghost text_length = { λ _ _. refl };

    ghost reads_back = { config-reads_back };

    fn encode_into(&self, out: &mut [u8]) {
        let VhostUserConfig {
            offset,
            size,
            flags,
        } = *self;
        LittleEndian::write_u32(out, offset);
        LittleEndian::write_u32(&mut out[4..], size);
        LittleEndian::write_u32(&mut out[8..], flags);
    }

    fn decode(b: &[u8]) -> Self {
        VhostUserConfig {
            offset: LittleEndian::read_u32(b),
            size: LittleEndian::read_u32(&b[4..]),
            flags: LittleEndian::read_u32(&b[8..]),
        }
    }
}

impl VhostUserMsgValidator for VhostUserConfig {
    ghost valid = { is_valid_config };

    fn is_valid(&self) -> bool {
        VhostUserConfigFlags::is_known(self.flags)
            && self.size != 0
            && u64::from(self.offset) + u64::from(self.size) <= u64::from(VHOST_USER_CONFIG_SIZE)
    }
}

/// The bytes of a part of the configuration space.
pub type VhostUserConfigPayload = Vec<u8>;
