//! The area of the dirty log.

ghost use Rattle.std.specs.Prelude.{◌≡◌, refl};
ghost use Rattle.vhost_message.specs.Records.{log_text, log_of};
ghost use Rattle.vhost_message.specs.RecordLaws.{LogFits, log-reads_back};
ghost use Rattle.vhost_message.specs.Valid.{is_valid_log};

use crate::bytes::{ByteValued, VhostUserMsgValidator};
use byteorder::{ByteOrder, LittleEndian};

/// The area of shared memory that logs dirty pages: its size and its offset, in bytes (vhost-user specification, "Log
/// description").
#[derive(Clone, Copy, Default)]
pub struct VhostUserLog {
    /// The size of the area.
    pub mmap_size: u64,
    /// Where it begins in the memory that comes with it.
    pub mmap_offset: u64,
}

impl VhostUserLog {
    /// The area of these numbers of bytes.
    pub fn new(mmap_size: u64, mmap_offset: u64) -> Self
        ensures { result ≡ record { mmap_size = mmap_size; mmap_offset = mmap_offset } }
    {
        VhostUserLog {
            mmap_size,
            mmap_offset,
        }
    }
}

impl ByteValued for VhostUserLog {
    const SIZE: usize = 16;

    ghost SIZE = { 16 };

    ghost text = { log_text };

    ghost read = { log_of };

    ghost fits = { LogFits };

    ghost text_length = { λ _ _. refl };

    ghost reads_back = { log-reads_back };

    fn encode_into(&self, out: &mut [u8]) {
        let VhostUserLog {
            mmap_size: size,
            mmap_offset: offset,
        } = *self;
        LittleEndian::write_u64(out, size);
        LittleEndian::write_u64(&mut out[8..], offset);
    }

    fn decode(b: &[u8]) -> Self {
        VhostUserLog {
            mmap_size: LittleEndian::read_u64(b),
            mmap_offset: LittleEndian::read_u64(&b[8..]),
        }
    }
}

impl VhostUserMsgValidator for VhostUserLog {
    ghost valid = { is_valid_log };

    fn is_valid(&self) -> bool {
        self.mmap_size != 0 && self.mmap_size.checked_add(self.mmap_offset).is_some()
    }
}
