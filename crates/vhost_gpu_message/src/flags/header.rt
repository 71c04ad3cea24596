//! The flags of a header.

ghost use Rattle.std.specs.Prelude.{⊤, [], ◌∷◌, codes};

use bitflags::{Flag, Flags};
use vhost_message::header_bit;

/// The flags in the header of a message to or from a display.
#[derive(Drop)]
pub struct VhostUserGpuHeaderFlag {
    bits: u32,
}

impl VhostUserGpuHeaderFlag {
    /// The message is a reply.
    pub const REPLY: VhostUserGpuHeaderFlag = VhostUserGpuHeaderFlag {
        bits: 1 << header_bit::REPLY,
    };

    const FLAGS: &'static [Flag<VhostUserGpuHeaderFlag>] = &[Flag {
        name: "REPLY",
        value: VhostUserGpuHeaderFlag::REPLY,
    }];
}

impl Flags for VhostUserGpuHeaderFlag {
    type Bits = u32;

    ghost exact = { ⊤ };

    ghost table = { (codes "REPLY", 4) ∷ [] };

    ghost set_of = { λ f. f.bits };

    fn flags<'a>() -> &'a [Flag<VhostUserGpuHeaderFlag>] {
        VhostUserGpuHeaderFlag::FLAGS
    }

    fn bits(&self) -> u32 {
        self.bits
    }

    fn from_bits_retain(bits: u32) -> VhostUserGpuHeaderFlag {
        VhostUserGpuHeaderFlag { bits }
    }
}
