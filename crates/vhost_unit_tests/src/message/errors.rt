//! The texts of errors.

use crate::texts::{are_shown, is_shown};
use std::alloc::Global;
use vhost_message::{Error, IoCause, IoError, VhostUserProtocolFeatures, VhostUserVirtioFeatures};

static PLAIN: [(Error, &str); 15] = [
    (Error::InvalidParam, "invalid parameters"),
    (Error::InvalidMessage, "invalid message"),
    (Error::NotUnixSocket, "socket is not AF_UNIX"),
    (Error::NotStreamSocket, "socket is not SOCK_STREAM"),
    (Error::PartialMessage, "partial message"),
    (Error::Disconnected, "peer disconnected"),
    (Error::OversizedMsg, "oversized message"),
    (Error::IncorrectFds, "wrong number of attached fds"),
    (Error::BackendInternalError, "backend internal error"),
    (Error::FrontendInternalError, "Frontend internal error"),
    (Error::FeatureMismatch, "virtio/protocol features mismatch"),
    (
        Error::MemFdCreateError,
        "handler failed to allocate memfd during get_inflight_fd",
    ),
    (
        Error::FileTruncateError,
        "handler failed to truncate memfd during get_inflight_fd",
    ),
    (
        Error::MemFdSealError,
        "handler failed to apply seals to memfd during get_inflight_fd",
    ),
    (Error::OutOfMemory, "out of memory"),
];

static WITH_A_PART: [(Error, &str); 9] = [
    (
        Error::InvalidOperation("not now"),
        "invalid operation: not now",
    ),
    (
        Error::InactiveFeature(VhostUserVirtioFeatures::PROTOCOL_FEATURES),
        "inactive feature: 1073741824",
    ),
    (
        Error::InactiveOperation(VhostUserProtocolFeatures::SHMEM),
        "inactive protocol operation: 4194304",
    ),
    (
        Error::InvalidSocketFd(IoCause::Raw(88)),
        "invalid AF_UNIX SOCK_STREAM socket fd: os error 88",
    ),
    (
        Error::SocketError(IoCause::Raw(9)),
        "socket error: os error 9",
    ),
    (
        Error::SocketConnect(IoCause::Raw(13)),
        "can't connect to peer: os error 13",
    ),
    (
        Error::SocketBroken(IoCause::Named("closed")),
        "socket is broken: closed",
    ),
    (
        Error::SocketRetry(IoCause::Raw(-4)),
        "temporary socket error: os error -4",
    ),
    (
        Error::ReqHandlerError(IoCause::Named("no device")),
        "handler failed to handle request: no device",
    ),
];

#[test]
fn plain_texts(rt: HostRuntime) {
    assert!(rt; are_shown(rt.alloc(), &PLAIN));
}

#[test]
fn texts_with_a_part(rt: HostRuntime) {
    assert!(rt; are_shown(rt.alloc(), &WITH_A_PART));
}

/// Errors of a handler, each with its text, and that of its cause.
static OF_HANDLERS: [(IoError, &str, &str); 4] = [
    (IoError::Raw(38), "os error 38", "os error 38"),
    (IoError::Named("busy"), "busy", "busy"),
    (
        IoError::Of(Error::PartialMessage),
        "partial message",
        "vhost-user error",
    ),
    (
        IoError::In("recv_body", Error::SocketBroken(IoCause::Raw(5))),
        "recv_body: socket is broken: os error 5",
        "recv_body",
    ),
];

/// Whether each error and its cause are shown as the texts beside it.
fn are_told(alloc: Global, cases: &[(IoError, &str, &str)]) -> bool {
    for (error, text, cause) in cases {
        if !is_shown(alloc, error, text) || !is_shown(alloc, &error.cause(), cause) {
            return false;
        }
    }
    true
}

#[test]
fn errors_of_handlers(rt: HostRuntime) {
    assert!(rt; are_told(rt.alloc(), &OF_HANDLERS));
}
