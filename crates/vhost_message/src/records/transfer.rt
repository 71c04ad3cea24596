//! The transfer of the device's state.

ghost use Rattle.std.specs.Prelude.{◌≡◌, refl};
ghost use Rattle.vhost_message.specs.Records.{transfer_text, transfer_of};
ghost use Rattle.vhost_message.specs.RecordLaws.{TransferFits, transfer-reads_back};
ghost use Rattle.vhost_message.specs.Transfer.{direction_number, phase_number};
ghost use Rattle.vhost_message.specs.Valid.{is_valid_transfer};

use crate::bytes::{ByteValued, VhostUserMsgValidator};
use crate::transfer_state::{VhostTransferStateDirection, VhostTransferStatePhase};
use byteorder::{ByteOrder, LittleEndian};

/// Which way the device's state goes, and in which phase (vhost-user specification, "Device state transfer
/// parameters").
#[derive(Clone, Copy, Default)]
pub struct VhostUserTransferDeviceState {
    /// The number of a `VhostTransferStateDirection`.
    pub direction: u32,
    /// The number of a `VhostTransferStatePhase`.
    pub phase: u32,
}

impl VhostUserTransferDeviceState {
    /// A transfer in this direction and phase.
    pub fn new(direction: VhostTransferStateDirection, phase: VhostTransferStatePhase) -> Self
        ensures { result ≡ record { direction = direction_number direction; phase = phase_number phase } }
    {
        VhostUserTransferDeviceState {
            direction: direction.into(),
            phase: phase.into(),
        }
    }
}

impl ByteValued for VhostUserTransferDeviceState {
    const SIZE: usize = 8;

    ghost SIZE = { 8 };

    ghost text = { transfer_text };

    ghost read = { transfer_of };

    ghost fits = { TransferFits };

    ghost text_length = { λ _ _. refl };

    ghost reads_back = { transfer-reads_back };

    fn encode_into(&self, out: &mut [u8]) {
        let VhostUserTransferDeviceState { direction, phase } = *self;
        LittleEndian::write_u32(out, direction);
        LittleEndian::write_u32(&mut out[4..], phase);
    }

    fn decode(b: &[u8]) -> Self {
        VhostUserTransferDeviceState {
            direction: LittleEndian::read_u32(b),
            phase: LittleEndian::read_u32(&b[4..]),
        }
    }
}

impl VhostUserMsgValidator for VhostUserTransferDeviceState {
    ghost valid = { is_valid_transfer };

    fn is_valid(&self) -> bool {
        VhostTransferStateDirection::try_from(self.direction).is_ok()
            && VhostTransferStatePhase::try_from(self.phase).is_ok()
    }
}
