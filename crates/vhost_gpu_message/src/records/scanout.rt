//! What a screen shows.

ghost use Rattle.std.specs.Prelude.{refl};
ghost use Rattle.vhost_gpu_message.specs.Words.{AreWords};
ghost use Rattle.vhost_gpu_message.specs.WordRecords.{update_words, update_text, update_of, update-reads_back, dmabuf_scanout_words, dmabuf_scanout_text, dmabuf_scanout_of, dmabuf_scanout-reads_back, scanout_words, scanout_text, scanout_of, scanout-reads_back};
ghost use Rattle.vhost_gpu_message.specs.Records.{dmabuf_scanout2_text, dmabuf_scanout2_of, DmabufScanout2Fits, dmabuf_scanout2-reads_back};

use crate::words::{read_words, write_words};
use byteorder::{ByteOrder, LittleEndian};
use vhost_message::{ByteValued, VhostUserMsgValidator};

/// A rectangle of a screen, in pixels.
#[derive(Clone, Copy, Debug, Default, PartialEq, Eq)]
pub struct VhostUserGpuUpdate {
    /// The number of the screen.
    pub scanout_id: u32,
    /// Pixels from the left.
    pub x: u32,
    /// Pixels from the top.
    pub y: u32,
    /// In pixels.
    pub width: u32,
    /// In pixels.
    pub height: u32,
}

impl ByteValued for VhostUserGpuUpdate {
    const SIZE: usize = 20;

    ghost SIZE = { 20 };

    ghost text = { update_text };

    ghost read = { update_of };

    ghost fits = { λ v. AreWords (update_words v) };

    ghost text_length = { λ _ _. refl };

    ghost reads_back = { update-reads_back };

    fn encode_into(&self, out: &mut [u8]) {
        write_words(
            out,
            &[self.scanout_id, self.x, self.y, self.width, self.height],
        );
    }

    fn decode(b: &[u8]) -> Self {
        let [scanout_id, x, y, width, height] = read_words::<5>(b);
        VhostUserGpuUpdate {
            scanout_id,
            x,
            y,
            width,
            height,
        }
    }
}

impl VhostUserMsgValidator for VhostUserGpuUpdate {
    fn is_valid(&self) -> bool {
        true
    }
}

/// A rectangle of a screen that shows a buffer, and the buffer's form.
#[derive(Clone, Copy, Debug, Default, PartialEq, Eq)]
pub struct VhostUserGpuDMABUFScanout {
    /// The number of the screen.
    pub scanout_id: u32,
    /// Pixels from the left.
    pub x: u32,
    /// Pixels from the top.
    pub y: u32,
    /// In pixels.
    pub width: u32,
    /// In pixels.
    pub height: u32,
    /// The width of the buffer, in pixels.
    pub fd_width: u32,
    /// The height of the buffer, in pixels.
    pub fd_height: u32,
    /// Bytes from one line of the buffer to the next.
    pub fd_stride: u32,
    /// Flags of the buffer.
    pub fd_flags: u32,
    /// The code of the form of a pixel.
    pub fd_drm_fourcc: u32,
}

impl ByteValued for VhostUserGpuDMABUFScanout {
    const SIZE: usize = 40;

    ghost SIZE = { 40 };

    ghost text = { dmabuf_scanout_text };

    ghost read = { dmabuf_scanout_of };

    ghost fits = { λ v. AreWords (dmabuf_scanout_words v) };

    ghost text_length = { λ _ _. refl };

    ghost reads_back = { dmabuf_scanout-reads_back };

    fn encode_into(&self, out: &mut [u8]) {
        write_words(
            out,
            &[
                self.scanout_id,
                self.x,
                self.y,
                self.width,
                self.height,
                self.fd_width,
                self.fd_height,
                self.fd_stride,
                self.fd_flags,
                self.fd_drm_fourcc,
            ],
        );
    }

    fn decode(b: &[u8]) -> Self {
        let [
            scanout_id,
            x,
            y,
            width,
            height,
            fd_width,
            fd_height,
            fd_stride,
            fd_flags,
            fd_drm_fourcc,
        ] = read_words::<10>(b);
        VhostUserGpuDMABUFScanout {
            scanout_id,
            x,
            y,
            width,
            height,
            fd_width,
            fd_height,
            fd_stride,
            fd_flags,
            fd_drm_fourcc,
        }
    }
}

impl VhostUserMsgValidator for VhostUserGpuDMABUFScanout {
    fn is_valid(&self) -> bool {
        true
    }
}

/// A screen and its size, in pixels.
#[derive(Clone, Copy, Debug, Default, PartialEq, Eq)]
pub struct VhostUserGpuScanout {
    /// The number of the screen.
    pub scanout_id: u32,
    /// In pixels.
    pub width: u32,
    /// In pixels.
    pub height: u32,
}

impl ByteValued for VhostUserGpuScanout {
    const SIZE: usize = 12;

    ghost SIZE = { 12 };

    ghost text = { scanout_text };

    ghost read = { scanout_of };

    ghost fits = { λ v. AreWords (scanout_words v) };

    ghost text_length = { λ _ _. refl };

    ghost reads_back = { scanout-reads_back };

    fn encode_into(&self, out: &mut [u8]) {
        write_words(out, &[self.scanout_id, self.width, self.height]);
    }

    fn decode(b: &[u8]) -> Self {
        let [scanout_id, width, height] = read_words::<3>(b);
        VhostUserGpuScanout {
            scanout_id,
            width,
            height,
        }
    }
}

impl VhostUserMsgValidator for VhostUserGpuScanout {
    fn is_valid(&self) -> bool {
        true
    }
}

/// A rectangle of a screen that shows a buffer, with the modifier of the buffer's form.
#[derive(Clone, Copy, Debug, Default, PartialEq, Eq)]
pub struct VhostUserGpuDMABUFScanout2 {
    /// The rectangle and the buffer.
    pub dmabuf_scanout: VhostUserGpuDMABUFScanout,
    /// The modifier of the form of a pixel.
    pub modifier: u64,
}

impl ByteValued for VhostUserGpuDMABUFScanout2 {
    const SIZE: usize = 48;

    ghost SIZE = { 48 };

    ghost text = { dmabuf_scanout2_text };

    ghost read = { dmabuf_scanout2_of };

    ghost fits = { DmabufScanout2Fits };

    ghost text_length = { λ _ _. refl };

    ghost reads_back = { dmabuf_scanout2-reads_back };

    fn encode_into(&self, out: &mut [u8]) {
        let modifier = self.modifier;
        let (head, tail) = out.split_at_mut(40);
        self.dmabuf_scanout.encode_into(head);
        LittleEndian::write_u64(tail, modifier);
    }

    fn decode(b: &[u8]) -> Self {
        let (head, tail) = b.split_at(40);
        VhostUserGpuDMABUFScanout2 {
            dmabuf_scanout: VhostUserGpuDMABUFScanout::decode(head),
            modifier: LittleEndian::read_u64(tail),
        }
    }
}

impl VhostUserMsgValidator for VhostUserGpuDMABUFScanout2 {
    fn is_valid(&self) -> bool {
        true
    }
}
