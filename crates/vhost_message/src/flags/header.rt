//! The flags of a header.

ghost use Rattle.std.specs.Prelude.{⊤, [], ◌∷◌, codes};

use crate::header_bit;
use bitflags::{Flag, Flags};

/// The flags in the header of a message, and its version in the two low bits.
#[derive(Drop)]
pub struct VhostUserHeaderFlag {
    bits: u32,
}

impl VhostUserHeaderFlag {
    /// The bits of the version.
    pub const VERSION: VhostUserHeaderFlag = VhostUserHeaderFlag { bits: 0x3 };

    /// The message is a reply.
    pub const REPLY: VhostUserHeaderFlag = VhostUserHeaderFlag {
        bits: 1 << header_bit::REPLY,
    };

    /// The sender asks for an acknowledgement.
    pub const NEED_REPLY: VhostUserHeaderFlag = VhostUserHeaderFlag {
        bits: 1 << header_bit::NEED_REPLY,
    };

    /// REPLY and NEED_REPLY.
    pub const ALL_FLAGS: VhostUserHeaderFlag = VhostUserHeaderFlag { bits: 0xc };

    /// The bits that have no meaning.
    pub const RESERVED_BITS: VhostUserHeaderFlag = VhostUserHeaderFlag { bits: 0xffff_fff0 };

    const FLAGS: &'static [Flag<VhostUserHeaderFlag>] = &[
        Flag {
            name: "VERSION",
            value: VhostUserHeaderFlag::VERSION,
        },
        Flag {
            name: "REPLY",
            value: VhostUserHeaderFlag::REPLY,
        },
        Flag {
            name: "NEED_REPLY",
            value: VhostUserHeaderFlag::NEED_REPLY,
        },
        Flag {
            name: "ALL_FLAGS",
            value: VhostUserHeaderFlag::ALL_FLAGS,
        },
        Flag {
            name: "RESERVED_BITS",
            value: VhostUserHeaderFlag::RESERVED_BITS,
        },
    ];
}

impl Flags for VhostUserHeaderFlag {
    type Bits = u32;

    ghost exact = { ⊤ };

    ghost table = { (codes "VERSION", 3) ∷ (codes "REPLY", 4) ∷ (codes "NEED_REPLY", 8) ∷ (codes "ALL_FLAGS", 12) ∷ (codes "RESERVED_BITS", 4294967280) ∷ [] };

    ghost set_of = { λ f. f.bits };

    fn flags<'a>() -> &'a [Flag<VhostUserHeaderFlag>] {
        VhostUserHeaderFlag::FLAGS
    }

    fn bits(&self) -> u32 {
        self.bits
    }

    fn from_bits_retain(bits: u32) -> VhostUserHeaderFlag {
        VhostUserHeaderFlag { bits }
    }
}
