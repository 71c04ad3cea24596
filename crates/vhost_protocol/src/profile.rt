//! Whose behaviour a side of the protocol has.

/// Whose behaviour a side of the protocol has, where real peers do otherwise than the crate `vhost`.
///
/// Two sides that stay in step have the same one.
#[derive(Clone, Copy, Debug, PartialEq, Eq)]
pub enum Profile {
    /// That of the crate `vhost`.
    Vhost,
    /// That of the specification, and of QEMU, DPDK and other peers.
    Standard,
}

impl Profile {
    ghost use Rattle.std.specs.Prelude.{◌≡◌};
    ghost use Rattle.vhost_protocol.specs.Profile.{is_standard as standard};

    /// Whether it is `Standard`.
    pub fn is_standard(self) -> bool
        ensures { result ≡ standard self }
    {
        matches!(self, Profile::Standard)
    }
}
