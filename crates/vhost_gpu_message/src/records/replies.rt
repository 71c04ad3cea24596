//! The bodies of a display's replies.

ghost use Rattle.std.specs.Prelude.{◌≡◌, ◌*◌, length};
ghost use Rattle.std.specs.List.{flat_map};
ghost use Rattle.vhost_gpu_message.specs.declared.limits.TheConstants.{VIRTIO_GPU_MAX_SCANOUTS};
ghost use Rattle.vhost_gpu_message.specs.Replies.{empty_info, empty_edid, screens_of, ScreensFit, display_info_text, display_info_of, DisplayInfoFits, display_info-length, display_info-reads_back, edid_text, edid_of, EdidFits, edid-length, edid-reads_back};
ghost use Rattle.vhost_gpu_message.specs.WordRecords.{display_one_text};

use crate::limits::VIRTIO_GPU_MAX_SCANOUTS;
use crate::records::ctrl_hdr::VirtioGpuCtrlHdr;
use crate::records::display::VirtioGpuDisplayOne;
use byteorder::{ByteOrder, LittleEndian};
use vhost_message::{ByteValued, VhostUserMsgValidator};

/// A reply with the screens of a display (virtio specification, "GPU Device").
#[derive(Clone, Copy, Debug, PartialEq, Eq)]
pub struct VirtioGpuRespDisplayInfo {
    /// The head.
    pub hdr: VirtioGpuCtrlHdr,
    /// The screens.
    pub pmodes: [VirtioGpuDisplayOne; VIRTIO_GPU_MAX_SCANOUTS],
}

impl Default for VirtioGpuRespDisplayInfo {
    ghost is_default = { λ r. r ≡ empty_info };

    /// All 0.
    fn default() -> Self {
        VirtioGpuRespDisplayInfo {
            hdr: VirtioGpuCtrlHdr::default(),
            pmodes: [VirtioGpuDisplayOne::default(); VIRTIO_GPU_MAX_SCANOUTS],
        }
    }
}

impl ByteValued for VirtioGpuRespDisplayInfo {
    const SIZE: usize = 408;

    ghost SIZE = { 408 };

    ghost text = { display_info_text };

    ghost read = { display_info_of };

    ghost fits = { DisplayInfoFits };

    ghost text_length = { display_info-length };

    ghost reads_back = { display_info-reads_back };

    fn encode_into(&self, out: &mut [u8]) {
        let (head, screens) = out.split_at_mut(24);
        self.hdr.encode_into(head);
        write_screens(screens, &self.pmodes);
    }

    fn decode(b: &[u8]) -> Self {
        let (head, screens) = b.split_at(24);
        VirtioGpuRespDisplayInfo {
            hdr: VirtioGpuCtrlHdr::decode(head),
            pmodes: read_screens(screens),
        }
    }
}

impl VhostUserMsgValidator for VirtioGpuRespDisplayInfo {
    fn is_valid(&self) -> bool {
        true
    }
}

/// A reply with the EDID of a screen: its bytes, of which `size` count (virtio specification, "GPU Device").
#[derive(Clone, Copy, Debug, PartialEq, Eq)]
pub struct VirtioGpuRespGetEdid {
    /// The head.
    pub hdr: VirtioGpuCtrlHdr,
    /// How many bytes count.
    pub size: u32,
    /// Bytes without a meaning.
    pub padding: u32,
    /// The bytes.
    pub edid: [u8; 1024],
}

impl Default for VirtioGpuRespGetEdid {
    ghost is_default = { λ r. r ≡ empty_edid };

    /// All 0.
    fn default() -> Self {
        VirtioGpuRespGetEdid {
            hdr: VirtioGpuCtrlHdr::default(),
            size: 0,
            padding: 0,
            edid: [0; 1024],
        }
    }
}

impl ByteValued for VirtioGpuRespGetEdid {
    const SIZE: usize = 1056;

    ghost SIZE = { 1056 };

    ghost text = { edid_text };

    ghost read = { edid_of };

    ghost fits = { EdidFits };

    ghost text_length = { edid-length };

    ghost reads_back = { edid-reads_back };

    fn encode_into(&self, out: &mut [u8]) {
        let (size, padding) = (self.size, self.padding);
        let (head, rest) = out.split_at_mut(24);
        self.hdr.encode_into(head);
        let (numbers, edid) = rest.split_at_mut(8);
        LittleEndian::write_u32(numbers, size);
        LittleEndian::write_u32(&mut numbers[4..], padding);
        edid.copy_from_slice(&self.edid);
    }

    fn decode(b: &[u8]) -> Self {
        let (head, rest) = b.split_at(24);
        let mut edid = [0; 1024];
        edid.copy_from_slice(&rest[8..]);
        VirtioGpuRespGetEdid {
            hdr: VirtioGpuCtrlHdr::decode(head),
            size: LittleEndian::read_u32(rest),
            padding: LittleEndian::read_u32(&rest[4..]),
            edid,
        }
    }
}

impl VhostUserMsgValidator for VirtioGpuRespGetEdid {
    fn is_valid(&self) -> bool {
        true
    }
}

// Writes screens one behind the other.
fn write_screens(out: &mut [u8], screens: &[VirtioGpuDisplayOne])
    requires { length out.old ≡ 24 * length screens.now }
    ensures text { out.new ≡ flat_map display_one_text screens.now }
    ensures fits { ScreensFit screens.now }
{
    for (i, screen) in screens.iter().enumerate() {
        screen.encode_into(&mut out[24 * i..24 * i + 24]);
    }
}

// Reads screens one behind the other.
fn read_screens(b: &[u8]) -> [VirtioGpuDisplayOne; VIRTIO_GPU_MAX_SCANOUTS]
    requires { length b.now ≡ 384 }
    ensures read { result ≡ screens_of VIRTIO_GPU_MAX_SCANOUTS b.now }
    ensures fits { ScreensFit result }
{
    let mut screens = [VirtioGpuDisplayOne::default(); VIRTIO_GPU_MAX_SCANOUTS];
    for i in 0..VIRTIO_GPU_MAX_SCANOUTS {
        screens[i] = VirtioGpuDisplayOne::decode(&b[24 * i..24 * i + 24]);
    }
    screens
}
