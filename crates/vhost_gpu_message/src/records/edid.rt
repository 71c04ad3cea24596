//! Requests of a screen's EDID.

ghost use Rattle.std.specs.Prelude.{refl};
ghost use Rattle.vhost_gpu_message.specs.Words.{AreWords};
ghost use Rattle.vhost_gpu_message.specs.WordRecords.{edid_request_words, edid_request_text, edid_request_of, edid_request-reads_back};

use crate::words::{read_words, write_words};
use vhost_message::{ByteValued, VhostUserMsgValidator};

/// Which screen's EDID is asked for.
#[derive(Clone, Copy, Debug, Default, PartialEq, Eq)]
pub struct VhostUserGpuEdidRequest {
    /// The number of the screen.
    pub scanout_id: u32,
}

impl ByteValued for VhostUserGpuEdidRequest {
    const SIZE: usize = 4;

    ghost SIZE = { 4 };

    ghost text = { edid_request_text };

    ghost read = { edid_request_of };

    ghost fits = { λ v. AreWords (edid_request_words v) };

    ghost text_length = { λ _ _. refl };

    ghost reads_back = { edid_request-reads_back };

    fn encode_into(&self, out: &mut [u8]) {
        write_words(out, &[self.scanout_id]);
    }

    fn decode(b: &[u8]) -> Self {
        let [scanout_id] = read_words::<1>(b);
        VhostUserGpuEdidRequest { scanout_id }
    }
}

impl VhostUserMsgValidator for VhostUserGpuEdidRequest {
    fn is_valid(&self) -> bool {
        true
    }
}
