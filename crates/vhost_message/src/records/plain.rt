//! No body, and a body of one number.

ghost use Rattle.std.specs.Prelude.{◌≡◌, ◌<◌, ◌^◌, [], refl, ⊤};
ghost use Rattle.vhost_message.specs.Text.{digits, number_at};

use crate::bytes::{ByteValued, VhostUserMsgValidator};
use byteorder::{ByteOrder, LittleEndian};

/// No body: 0 bytes.
#[derive(Clone, Copy, Default)]
pub struct VhostUserEmpty;

/// One number of 8 bytes.
#[derive(Clone, Copy, Default)]
pub struct VhostUserU64 {
    /// The number.
    pub value: u64,
}

impl VhostUserU64 {
    /// The record of a number.
    pub fn new(value: u64) -> Self
        ensures { result ≡ record { value = value } }
    {
        VhostUserU64 { value }
    }
}

impl ByteValued for VhostUserEmpty {
    const SIZE: usize = 0;

    ghost SIZE = { 0 };

    ghost text = { λ _. [] };

    ghost read = { λ _. record {} };

    ghost fits = { λ _. ⊤ };

    ghost text_length = { λ _ _. refl };

    ghost reads_back = { λ v _. refl };

    fn encode_into(&self, _out: &mut [u8]) {}

    fn decode(_b: &[u8]) -> Self {
        VhostUserEmpty
    }
}

impl VhostUserMsgValidator for VhostUserEmpty {
    fn is_valid(&self) -> bool {
        true
    }
}

impl ByteValued for VhostUserU64 {
    ghost use Rattle.vhost_message.specs.Plain.{u64-reads_back};

    const SIZE: usize = 8;

    ghost SIZE = { 8 };

    ghost text = { λ v. digits 8 v.value };

    ghost read = { λ bytes. record { value = number_at 0 8 bytes } };

    ghost fits = { λ v. v.value < 2 ^ 64 };

    ghost text_length = { λ v _. refl };

    ghost reads_back = { u64-reads_back };

    fn encode_into(&self, out: &mut [u8]) {
        let value = self.value;
        LittleEndian::write_u64(out, value);
    }

    fn decode(b: &[u8]) -> Self {
        VhostUserU64 {
            value: LittleEndian::read_u64(b),
        }
    }
}

impl VhostUserMsgValidator for VhostUserU64 {
    fn is_valid(&self) -> bool {
        true
    }
}
