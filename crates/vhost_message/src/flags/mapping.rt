//! The flags of a mapping.

ghost use Rattle.std.specs.Prelude.{⊤, ◌≡◌, nat_le, [], ◌∷◌, codes};

use bitflags::{Flag, Flags};

/// How a mapping of a shared memory region may be used.
#[derive(Clone, Copy, Debug, Default, PartialEq, Eq)]
pub struct VhostUserMMapFlags {
    bits: u64,
}

impl VhostUserMMapFlags {
    /// The mapping may be written.
    pub const WRITABLE: VhostUserMMapFlags = VhostUserMMapFlags { bits: 0x1 };

    const FLAGS: &'static [Flag<VhostUserMMapFlags>] = &[Flag {
        name: "WRITABLE",
        value: VhostUserMMapFlags::WRITABLE,
    }];

    // Whether all of these bits are flags.
    pub(crate) fn is_known(bits: u64) -> bool
        ensures { result ≡ nat_le bits 1 }
    {
        VhostUserMMapFlags::from_bits(bits).is_some()
    }
}

impl Flags for VhostUserMMapFlags {
    type Bits = u64;

    ghost exact = { ⊤ };

    ghost table = { (codes "WRITABLE", 1) ∷ [] };

    ghost set_of = { λ f. f.bits };

    fn flags<'a>() -> &'a [Flag<VhostUserMMapFlags>] {
        VhostUserMMapFlags::FLAGS
    }

    fn bits(&self) -> u64 {
        self.bits
    }

    fn from_bits_retain(bits: u64) -> VhostUserMMapFlags {
        VhostUserMMapFlags { bits }
    }
}
