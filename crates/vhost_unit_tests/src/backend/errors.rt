//! The texts of errors.

use crate::texts::are_shown;
use vhost_backend::Error;
use vhost_message::{Error as ProtocolError, IoCause};

static ERRORS: [(Error, &str); 12] = [
    (Error::InvalidOperation, "invalid vhost operations"),
    (Error::InvalidGuestMemory, "invalid guest memory object"),
    (
        Error::InvalidGuestMemoryRegion,
        "invalid guest memory region",
    ),
    (Error::InvalidIotlbMsg, "invalid IOTLB message"),
    (Error::InvalidQueue, "invalid virtqueue"),
    (
        Error::DescriptorTableAddress,
        "invalid virtqueue descriptor table address",
    ),
    (Error::UsedAddress, "invalid virtqueue used table address"),
    (
        Error::AvailAddress,
        "invalid virtqueue available table address",
    ),
    (Error::LogAddress, "invalid virtqueue log address"),
    (Error::IOError(IoCause::Raw(5)), "IO error: os error 5"),
    (Error::IOError(IoCause::Named("gone")), "IO error: gone"),
    (
        Error::VhostUserProtocol(ProtocolError::OversizedMsg),
        "vhost-user: oversized message",
    ),
];

#[test]
fn texts(rt: HostRuntime) {
    assert!(rt; are_shown(rt.alloc(), &ERRORS));
}
