//! The head of a display's replies.

ghost use Rattle.std.specs.Prelude.{◌≡◌, ◌<◌, ◌^◌, ◌++◌, length};
ghost use Rattle.vhost_message.specs.Text.{digits};
ghost use Rattle.vhost_gpu_message.specs.CtrlHdr.{ctrl_hdr_text, ctrl_hdr_of, CtrlHdrFits, ctrl_hdr-length, ctrl_hdr-reads_back};

use byteorder::{ByteOrder, LittleEndian};
use vhost_message::{ByteValued, VhostUserMsgValidator};

/// The head of a display's reply: its type and flags, and the fence, context and ring of virtio-gpu (virtio
/// specification, "GPU Device").
#[derive(Clone, Copy, Debug, Default, PartialEq, Eq)]
pub struct VirtioGpuCtrlHdr {
    /// The type of the reply.
    pub type_: u32,
    /// Flags of the reply.
    pub flags: u32,
    /// The number of the fence.
    pub fence_id: u64,
    /// The number of the context.
    pub ctx_id: u32,
    /// The number of the ring.
    pub ring_idx: u8,
    /// Bytes without a meaning.
    pub padding: [u8; 3],
}

impl ByteValued for VirtioGpuCtrlHdr {
    const SIZE: usize = 24;

    ghost SIZE = { 24 };

    ghost text = { ctrl_hdr_text };

    ghost read = { ctrl_hdr_of };

    ghost fits = { CtrlHdrFits };

    ghost text_length = { ctrl_hdr-length };

    ghost reads_back = { ctrl_hdr-reads_back };

    fn encode_into(&self, out: &mut [u8]) {
        let VirtioGpuCtrlHdr {
            type_,
            flags,
            fence_id,
            ctx_id,
            ring_idx,
            padding,
        } = *self;
        let (numbers, tail) = out.split_at_mut(20);
        LittleEndian::write_u32(numbers, type_);
        LittleEndian::write_u32(&mut numbers[4..], flags);
        LittleEndian::write_u64(&mut numbers[8..], fence_id);
        LittleEndian::write_u32(&mut numbers[16..], ctx_id);
        write_tail(tail, ring_idx, &padding);
    }

    fn decode(b: &[u8]) -> Self {
        let mut padding = [0; 3];
        padding.copy_from_slice(&b[21..24]);
        VirtioGpuCtrlHdr {
            type_: LittleEndian::read_u32(b),
            flags: LittleEndian::read_u32(&b[4..]),
            fence_id: LittleEndian::read_u64(&b[8..]),
            ctx_id: LittleEndian::read_u32(&b[16..]),
            ring_idx: b[20],
            padding,
        }
    }
}

impl VhostUserMsgValidator for VirtioGpuCtrlHdr {
    fn is_valid(&self) -> bool {
        true
    }
}

// Writes the number of a ring and the padding behind it.
fn write_tail(out: &mut [u8], ring_idx: u8, padding: &[u8])
    requires room { length out.old ≡ 4 }
    requires padding { length padding.now ≡ 3 }
    ensures text { out.new ≡ digits 1 ring_idx ++ padding.now }
    ensures fits { ring_idx < 2 ^ 8 }
{
    out[0] = ring_idx;
    out[1..].copy_from_slice(padding);
}
