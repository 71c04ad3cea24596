//! The name of a shared object.

ghost use Rattle.std.specs.Prelude.{◌≡◌, length, refl};
ghost use Rattle.vhost_message.specs.Valid.{is_valid_uuid};

use crate::bytes::{ByteValued, VhostUserMsgValidator};
use uuid::Uuid;

/// The name of a shared object: 16 bytes (vhost-user specification, "VhostUserShared").
#[derive(Clone, Copy, Default)]
pub struct VhostUserSharedMsg {
    /// The name.
    pub uuid: Uuid,
}

impl ByteValued for VhostUserSharedMsg {
    const SIZE: usize = 16;

    ghost SIZE = { 16 };

    ghost text = { λ s. s.uuid };

    ghost read = { λ bytes. record { uuid = bytes } };

    ghost fits = { λ s. length s.uuid ≡ 16 };

    ghost text_length = { λ _ fits. fits };

    ghost reads_back = { λ _ _. refl };

    fn encode_into(&self, out: &mut [u8]) {
        out.copy_from_slice(self.uuid.as_bytes());
    }

    fn decode(b: &[u8]) -> Self {
        let mut bytes = [0; 16];
        bytes.copy_from_slice(b);
        VhostUserSharedMsg {
            uuid: Uuid::from_bytes(bytes),
        }
    }
}

impl VhostUserMsgValidator for VhostUserSharedMsg {
    ghost valid = { λ s. is_valid_uuid s.uuid };

    fn is_valid(&self) -> bool {
        is_name(self.uuid.as_bytes())
    }
}

// Whether the bytes name an object.
fn is_name(bytes: &[u8; 16]) -> bool
    ensures { result ≡ is_valid_uuid bytes.now }
{
    let name = Uuid::from_bytes(*bytes);
    !name.is_nil() && !name.is_max()
}
