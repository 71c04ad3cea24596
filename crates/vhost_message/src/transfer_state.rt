//! Which way the state of a device goes, and when.

ghost use Rattle.std.specs.Prelude.{◌≡◌};
ghost use Rattle.vhost_message.specs.Transfer.{direction_number, direction_at, phase_number, phase_at};

/// Which way the state of a device is transferred.
#[derive(Clone, Copy, Debug, PartialEq, Eq, PartialOrd, Ord)]
pub enum VhostTransferStateDirection {
    /// From the backend to the frontend.
    SAVE = 0,
    /// From the frontend to the backend.
    LOAD = 1,
}

/// In which phase of a migration the state of a device is transferred.
#[derive(Clone, Copy, Debug, PartialEq, Eq, PartialOrd, Ord)]
pub enum VhostTransferStatePhase {
    /// The device is stopped.
    STOPPED = 0,
}

impl From<VhostTransferStateDirection> for u32 {
    ghost from_gives = { λ direction number. number ≡ direction_number direction };

    fn from(direction: VhostTransferStateDirection) -> u32 {
        direction as u32
    }
}

impl TryFrom<u32> for VhostTransferStateDirection {
    type Error = ();

    ghost try_from_gives = { λ number direction. direction ≡ direction_at number };

    fn try_from(value: u32) -> Result<VhostTransferStateDirection, ()> {
        match value {
            0 => Ok(VhostTransferStateDirection::SAVE),
            1 => Ok(VhostTransferStateDirection::LOAD),
            _ => Err(()),
        }
    }
}

impl From<VhostTransferStatePhase> for u32 {
    ghost from_gives = { λ phase number. number ≡ phase_number phase };

    fn from(phase: VhostTransferStatePhase) -> u32 {
        phase as u32
    }
}

impl TryFrom<u32> for VhostTransferStatePhase {
    type Error = ();

    ghost try_from_gives = { λ number phase. phase ≡ phase_at number };

    fn try_from(value: u32) -> Result<VhostTransferStatePhase, ()> {
        match value {
            0 => Ok(VhostTransferStatePhase::STOPPED),
            _ => Err(()),
        }
    }
}
