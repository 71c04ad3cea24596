//! The cursor.

ghost use Rattle.std.specs.Prelude.{refl};
ghost use Rattle.vhost_gpu_message.specs.Words.{AreWords};
ghost use Rattle.vhost_gpu_message.specs.WordRecords.{cursor_pos_words, cursor_pos_text, cursor_pos_of, cursor_pos-reads_back, cursor_update_words, cursor_update_text, cursor_update_of, cursor_update-reads_back};

use crate::words::{read_words, write_words};
use vhost_message::{ByteValued, VhostUserMsgValidator};

/// Where the cursor is on a screen, in pixels.
#[derive(Clone, Copy, Debug, Default, PartialEq, Eq)]
pub struct VhostUserGpuCursorPos {
    /// The number of the screen.
    pub scanout_id: u32,
    /// Pixels from the left.
    pub x: u32,
    /// Pixels from the top.
    pub y: u32,
}

impl ByteValued for VhostUserGpuCursorPos {
    const SIZE: usize = 12;

    ghost SIZE = { 12 };

    ghost text = { cursor_pos_text };

    ghost read = { cursor_pos_of };

    ghost fits = { λ v. AreWords (cursor_pos_words v) };

    ghost text_length = { λ _ _. refl };

    ghost reads_back = { cursor_pos-reads_back };

    fn encode_into(&self, out: &mut [u8]) {
        write_words(out, &[self.scanout_id, self.x, self.y]);
    }

    fn decode(b: &[u8]) -> Self {
        let [scanout_id, x, y] = read_words::<3>(b);
        VhostUserGpuCursorPos { scanout_id, x, y }
    }
}

impl VhostUserMsgValidator for VhostUserGpuCursorPos {
    fn is_valid(&self) -> bool {
        true
    }
}

/// Where the cursor is, its image's hot spot, and the image behind it.
#[derive(Clone, Copy, Debug, Default, PartialEq, Eq)]
pub struct VhostUserGpuCursorUpdate {
    /// Where the cursor is.
    pub pos: VhostUserGpuCursorPos,
    /// Pixels from the image's left to its hot spot.
    pub hot_x: u32,
    /// Pixels from the image's top to its hot spot.
    pub hot_y: u32,
}

impl ByteValued for VhostUserGpuCursorUpdate {
    const SIZE: usize = 20;

    ghost SIZE = { 20 };

    ghost text = { cursor_update_text };

    ghost read = { cursor_update_of };

    ghost fits = { λ v. AreWords (cursor_update_words v) };

    ghost text_length = { λ _ _. refl };

    ghost reads_back = { cursor_update-reads_back };

    fn encode_into(&self, out: &mut [u8]) {
        write_words(
            out,
            &[
                self.pos.scanout_id,
                self.pos.x,
                self.pos.y,
                self.hot_x,
                self.hot_y,
            ],
        );
    }

    fn decode(b: &[u8]) -> Self {
        let [scanout_id, x, y, hot_x, hot_y] = read_words::<5>(b);
        VhostUserGpuCursorUpdate {
            pos: VhostUserGpuCursorPos { scanout_id, x, y },
            hot_x,
            hot_y,
        }
    }
}

impl VhostUserMsgValidator for VhostUserGpuCursorUpdate {
    fn is_valid(&self) -> bool {
        true
    }
}
