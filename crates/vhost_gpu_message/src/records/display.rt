//! Screens.

ghost use Rattle.std.specs.Prelude.{refl};
ghost use Rattle.vhost_gpu_message.specs.Words.{AreWords};
ghost use Rattle.vhost_gpu_message.specs.WordRecords.{display_one_words, display_one_text, display_one_of, display_one-reads_back};

use crate::records::rect::VirtioGpuRect;
use crate::words::{read_words, write_words};
use vhost_message::{ByteValued, VhostUserMsgValidator};

/// A screen: its rectangle in pixels, and whether it is used.
#[derive(Clone, Copy, Debug, Default, PartialEq, Eq)]
pub struct VirtioGpuDisplayOne {
    /// Its rectangle.
    pub r: VirtioGpuRect,
    /// Not 0 where the screen is used.
    pub enabled: u32,
    /// Flags of the screen.
    pub flags: u32,
}

impl ByteValued for VirtioGpuDisplayOne {
    const SIZE: usize = 24;

    ghost SIZE = { 24 };

    ghost text = { display_one_text };

    ghost read = { display_one_of };

    ghost fits = { λ v. AreWords (display_one_words v) };

    ghost text_length = { λ _ _. refl };

    ghost reads_back = { display_one-reads_back };

    fn encode_into(&self, out: &mut [u8]) {
        write_words(
            out,
            &[
                self.r.x,
                self.r.y,
                self.r.width,
                self.r.height,
                self.enabled,
                self.flags,
            ],
        );
    }

    fn decode(b: &[u8]) -> Self {
        let [x, y, width, height, enabled, flags] = read_words::<6>(b);
        VirtioGpuDisplayOne {
            r: VirtioGpuRect {
                x,
                y,
                width,
                height,
            },
            enabled,
            flags,
        }
    }
}

impl VhostUserMsgValidator for VirtioGpuDisplayOne {
    fn is_valid(&self) -> bool {
        true
    }
}
