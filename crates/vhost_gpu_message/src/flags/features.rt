//! Feature bits of the vhost-user-gpu channel.

ghost use Rattle.std.specs.Prelude.{⊤, [], ◌∷◌, codes};

use bitflags::{Flag, Flags};

/// The features of the vhost-user-gpu channel. As in the crate `vhost`, EDID has no bit.
#[derive(Clone, Copy, Debug, PartialEq, Eq)]
pub struct VhostUserGpuProtocolFeatures {
    bits: u64,
}

impl VhostUserGpuProtocolFeatures {
    /// The display answers GET_EDID.
    pub const EDID: VhostUserGpuProtocolFeatures = VhostUserGpuProtocolFeatures { bits: 0x0 };

    /// The display accepts DMABUF_SCANOUT2.
    pub const DMABUF2: VhostUserGpuProtocolFeatures = VhostUserGpuProtocolFeatures { bits: 0x1 };

    const FLAGS: &'static [Flag<VhostUserGpuProtocolFeatures>] = &[
        Flag {
            name: "EDID",
            value: VhostUserGpuProtocolFeatures::EDID,
        },
        Flag {
            name: "DMABUF2",
            value: VhostUserGpuProtocolFeatures::DMABUF2,
        },
    ];
}

impl Flags for VhostUserGpuProtocolFeatures {
    type Bits = u64;

    ghost exact = { ⊤ };

    ghost table = { (codes "EDID", 0) ∷ (codes "DMABUF2", 1) ∷ [] };

    ghost set_of = { λ f. f.bits };

    fn flags<'a>() -> &'a [Flag<VhostUserGpuProtocolFeatures>] {
        VhostUserGpuProtocolFeatures::FLAGS
    }

    fn bits(&self) -> u64 {
        self.bits
    }

    fn from_bits_retain(bits: u64) -> VhostUserGpuProtocolFeatures {
        VhostUserGpuProtocolFeatures { bits }
    }
}
