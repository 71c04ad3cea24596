//! Rectangles.

ghost use Rattle.std.specs.Prelude.{refl};
ghost use Rattle.vhost_gpu_message.specs.Words.{AreWords};
ghost use Rattle.vhost_gpu_message.specs.WordRecords.{rect_words, rect_text, rect_of, rect-reads_back};

use crate::words::{read_words, write_words};
use vhost_message::{ByteValued, VhostUserMsgValidator};

/// A rectangle: its corner and its size, in pixels.
#[derive(Clone, Copy, Debug, Default, PartialEq, Eq)]
pub struct VirtioGpuRect {
    /// Pixels from the left.
    pub x: u32,
    /// Pixels from the top.
    pub y: u32,
    /// In pixels.
    pub width: u32,
    /// In pixels.
    pub height: u32,
}

impl ByteValued for VirtioGpuRect {
    const SIZE: usize = 16;

    ghost SIZE = { 16 };

    ghost text = { rect_text };

    ghost read = { rect_of };

    ghost fits = { λ v. AreWords (rect_words v) };

    ghost text_length = { λ _ _. refl };

    ghost reads_back = { rect-reads_back };

    fn encode_into(&self, out: &mut [u8]) {
        write_words(out, &[self.x, self.y, self.width, self.height]);
    }

    fn decode(b: &[u8]) -> Self {
        let [x, y, width, height] = read_words::<4>(b);
        VirtioGpuRect {
            x,
            y,
            width,
            height,
        }
    }
}

impl VhostUserMsgValidator for VirtioGpuRect {
    fn is_valid(&self) -> bool {
        true
    }
}
