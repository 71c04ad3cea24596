//! Which protocol features a side may offer or accept.

use vhost_message::protocol_bit;

/// The protocol features whose requests a frontend makes: it accepts what a backend offers of these, and no more. Left out are those
/// whose requests it does not make, STATUS among them: a backend may wait for SET_STATUS then; those of the backend channel alone; and
/// those that change what a request means.
pub const ASKED_PROTOCOL_FEATURES: u64 = 1 << protocol_bit::MQ
    | 1 << protocol_bit::LOG_SHMFD
    | 1 << protocol_bit::REPLY_ACK
    | 1 << protocol_bit::MTU
    | 1 << protocol_bit::BACKEND_REQ
    | 1 << protocol_bit::PAGEFAULT
    | 1 << protocol_bit::CONFIG
    | 1 << protocol_bit::INFLIGHT_SHMFD
    | 1 << protocol_bit::RESET_DEVICE
    | 1 << protocol_bit::CONFIGURE_MEM_SLOTS
    | 1 << protocol_bit::SHARED_OBJECT
    | 1 << protocol_bit::DEVICE_STATE
    | 1 << protocol_bit::SHMEM;

/// The protocol features whose requests a handler serves: a device offers what it can do of these, and no more. A frontend that accepts
/// another sends requests that nobody serves.
pub const SERVED_PROTOCOL_FEATURES: u64 = ASKED_PROTOCOL_FEATURES
    | 1 << protocol_bit::BACKEND_SEND_FD
    | 1 << protocol_bit::HOST_NOTIFIER;
