//! The inflight region.

ghost use Rattle.std.specs.Prelude.{◌≡◌, refl};
ghost use Rattle.vhost_message.specs.Records.{inflight_text, inflight_of};
ghost use Rattle.vhost_message.specs.RecordLaws.{InflightFits, inflight-reads_back};
ghost use Rattle.vhost_message.specs.Valid.{is_valid_inflight};

use crate::bytes::{ByteValued, VhostUserMsgValidator};
use byteorder::{ByteOrder, LittleEndian};

/// The inflight region, in shared memory: its size and offset in bytes, the number of queues and their size in
/// descriptors (vhost-user specification, "Inflight description"). Four reserved bytes at the end are written 0 and not
/// read.
#[derive(Clone, Copy, Default)]
pub struct VhostUserInflight {
    /// The size of the region.
    pub mmap_size: u64,
    /// Where it begins in the memory that comes with it.
    pub mmap_offset: u64,
    /// How many queues.
    pub num_queues: u16,
    /// How many descriptors a queue has.
    pub queue_size: u16,
}

impl VhostUserInflight {
    /// The region of these numbers.
    pub fn new(mmap_size: u64, mmap_offset: u64, num_queues: u16, queue_size: u16) -> Self
        ensures { result ≡ record { mmap_size = mmap_size; mmap_offset = mmap_offset; num_queues = num_queues; queue_size = queue_size } }
    {
        VhostUserInflight {
            mmap_size,
            mmap_offset,
            num_queues,
            queue_size,
        }
    }
}

impl ByteValued for VhostUserInflight {
    const SIZE: usize = 24;

    ghost SIZE = { 24 };

    ghost text = { inflight_text };

    ghost read = { inflight_of };

    ghost fits = { InflightFits };

    ghost text_length = { λ _ _. refl };

    ghost reads_back = { inflight-reads_back };

    fn encode_into(&self, out: &mut [u8]) {
        let VhostUserInflight {
            mmap_size: size,
            mmap_offset: offset,
            num_queues: queues,
            queue_size: length,
        } = *self;
        LittleEndian::write_u64(out, size);
        LittleEndian::write_u64(&mut out[8..], offset);
        LittleEndian::write_u16(&mut out[16..], queues);
        LittleEndian::write_u16(&mut out[18..], length);
        LittleEndian::write_u32(&mut out[20..], 0);
    }

    fn decode(b: &[u8]) -> Self {
        VhostUserInflight {
            mmap_size: LittleEndian::read_u64(b),
            mmap_offset: LittleEndian::read_u64(&b[8..]),
            num_queues: LittleEndian::read_u16(&b[16..]),
            queue_size: LittleEndian::read_u16(&b[18..]),
        }
    }
}

impl VhostUserMsgValidator for VhostUserInflight {
    ghost valid = { is_valid_inflight };

    fn is_valid(&self) -> bool {
        self.num_queues != 0 && self.queue_size != 0
    }
}
