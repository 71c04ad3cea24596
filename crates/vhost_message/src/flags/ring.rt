//! The flags of a ring's addresses.

ghost use Rattle.std.specs.Prelude.{⊤, ◌≡◌, nat_le, [], ◌∷◌, codes};

use bitflags::{Flag, Flags};

/// Whether a ring's address comes with one for the log of dirty pages.
#[derive(Drop)]
pub struct VhostUserVringAddrFlags {
    bits: u32,
}

impl VhostUserVringAddrFlags {
    /// Writes to the ring are logged.
    pub const VHOST_VRING_F_LOG: VhostUserVringAddrFlags = VhostUserVringAddrFlags { bits: 0x1 };

    const FLAGS: &'static [Flag<VhostUserVringAddrFlags>] = &[Flag {
        name: "VHOST_VRING_F_LOG",
        value: VhostUserVringAddrFlags::VHOST_VRING_F_LOG,
    }];

    // Whether all of these bits are flags.
    pub(crate) fn is_known(bits: u32) -> bool
        ensures { result ≡ nat_le bits 1 }
    {
        VhostUserVringAddrFlags::from_bits(bits).is_some()
    }
}

impl Flags for VhostUserVringAddrFlags {
    type Bits = u32;

    ghost exact = { ⊤ };

    ghost table = { (codes "VHOST_VRING_F_LOG", 1) ∷ [] };

    ghost set_of = { λ f. f.bits };

    fn flags<'a>() -> &'a [Flag<VhostUserVringAddrFlags>] {
        VhostUserVringAddrFlags::FLAGS
    }

    fn bits(&self) -> u32 {
        self.bits
    }

    fn from_bits_retain(bits: u32) -> VhostUserVringAddrFlags {
        VhostUserVringAddrFlags { bits }
    }
}
