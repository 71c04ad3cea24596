//! The flags of a part of the configuration space.

ghost use Rattle.std.specs.Prelude.{⊤, ◌≡◌, nat_le, [], ◌∷◌, codes};

use bitflags::{Flag, Flags};

/// How a part of the configuration space may be used.
#[derive(Clone, Copy, Debug, PartialEq, Eq)]
pub struct VhostUserConfigFlags {
    bits: u32,
}

impl VhostUserConfigFlags {
    /// Only the parts that the driver may write.
    pub const WRITABLE: VhostUserConfigFlags = VhostUserConfigFlags { bits: 0x1 };

    /// The access belongs to a live migration.
    pub const LIVE_MIGRATION: VhostUserConfigFlags = VhostUserConfigFlags { bits: 0x2 };

    const FLAGS: &'static [Flag<VhostUserConfigFlags>] = &[
        Flag {
            name: "WRITABLE",
            value: VhostUserConfigFlags::WRITABLE,
        },
        Flag {
            name: "LIVE_MIGRATION",
            value: VhostUserConfigFlags::LIVE_MIGRATION,
        },
    ];

    // Whether all of these bits are flags.
    pub(crate) fn is_known(bits: u32) -> bool
        ensures { result ≡ nat_le bits 3 }
    {
        VhostUserConfigFlags::from_bits(bits).is_some()
    }
}

impl Flags for VhostUserConfigFlags {
    type Bits = u32;

    ghost exact = { ⊤ };

    ghost table = { (codes "WRITABLE", 1) ∷ (codes "LIVE_MIGRATION", 2) ∷ [] };

    ghost set_of = { λ f. f.bits };

    fn flags<'a>() -> &'a [Flag<VhostUserConfigFlags>] {
        VhostUserConfigFlags::FLAGS
    }

    fn bits(&self) -> u32 {
        self.bits
    }

    fn from_bits_retain(bits: u32) -> VhostUserConfigFlags {
        VhostUserConfigFlags { bits }
    }
}
