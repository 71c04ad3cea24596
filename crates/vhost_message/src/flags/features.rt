//! Feature bits that both sides negotiate.

ghost use Rattle.std.specs.Prelude.{⊤, ◌≡◌, [], ◌∷◌, codes};

use crate::{protocol_bit, virtio_bit};
use bitflags::{Flag, Flags};

/// The bits of the virtio features that the protocol gives a meaning.
#[derive(Clone, Copy, Debug, PartialEq, Eq)]
pub struct VhostUserVirtioFeatures {
    bits: u64,
}

impl VhostUserVirtioFeatures {
    /// Writes to guest memory are logged.
    pub const LOG_ALL: VhostUserVirtioFeatures = VhostUserVirtioFeatures {
        bits: 1 << virtio_bit::LOG_ALL,
    };

    /// The features of the protocol are negotiated too.
    pub const PROTOCOL_FEATURES: VhostUserVirtioFeatures = VhostUserVirtioFeatures {
        bits: 1 << virtio_bit::PROTOCOL_FEATURES,
    };

    const FLAGS: &'static [Flag<VhostUserVirtioFeatures>] = &[
        Flag {
            name: "LOG_ALL",
            value: VhostUserVirtioFeatures::LOG_ALL,
        },
        Flag {
            name: "PROTOCOL_FEATURES",
            value: VhostUserVirtioFeatures::PROTOCOL_FEATURES,
        },
    ];
}

impl Flags for VhostUserVirtioFeatures {
    type Bits = u64;

    ghost exact = { ⊤ };

    ghost table = { (codes "LOG_ALL", 67108864) ∷ (codes "PROTOCOL_FEATURES", 1073741824) ∷ [] };

    ghost set_of = { λ f. f.bits };

    fn flags<'a>() -> &'a [Flag<VhostUserVirtioFeatures>] {
        VhostUserVirtioFeatures::FLAGS
    }

    fn bits(&self) -> u64 {
        self.bits
    }

    fn from_bits_retain(bits: u64) -> VhostUserVirtioFeatures {
        VhostUserVirtioFeatures { bits }
    }
}

/// The features of the protocol itself.
#[derive(Clone, Copy, Debug, PartialEq, Eq)]
pub struct VhostUserProtocolFeatures {
    bits: u64,
}

impl VhostUserProtocolFeatures {
    /// Several queues: GET_QUEUE_NUM.
    pub const MQ: VhostUserProtocolFeatures = VhostUserProtocolFeatures {
        bits: 1 << protocol_bit::MQ,
    };

    /// The log of dirty pages comes as shared memory.
    pub const LOG_SHMFD: VhostUserProtocolFeatures = VhostUserProtocolFeatures {
        bits: 1 << protocol_bit::LOG_SHMFD,
    };

    /// SEND_RARP.
    pub const RARP: VhostUserProtocolFeatures = VhostUserProtocolFeatures {
        bits: 1 << protocol_bit::RARP,
    };

    /// A request may ask for an acknowledgement.
    pub const REPLY_ACK: VhostUserProtocolFeatures = VhostUserProtocolFeatures {
        bits: 1 << protocol_bit::REPLY_ACK,
    };

    /// NET_SET_MTU.
    pub const MTU: VhostUserProtocolFeatures = VhostUserProtocolFeatures {
        bits: 1 << protocol_bit::MTU,
    };

    /// The backend may send requests, over the backend channel.
    pub const BACKEND_REQ: VhostUserProtocolFeatures = VhostUserProtocolFeatures {
        bits: 1 << protocol_bit::BACKEND_REQ,
    };

    /// SET_VRING_ENDIAN.
    pub const CROSS_ENDIAN: VhostUserProtocolFeatures = VhostUserProtocolFeatures {
        bits: 1 << protocol_bit::CROSS_ENDIAN,
    };

    /// CREATE_CRYPTO_SESSION and CLOSE_CRYPTO_SESSION.
    pub const CRYPTO_SESSION: VhostUserProtocolFeatures = VhostUserProtocolFeatures {
        bits: 1 << protocol_bit::CRYPTO_SESSION,
    };

    /// Migration by postcopy.
    pub const PAGEFAULT: VhostUserProtocolFeatures = VhostUserProtocolFeatures {
        bits: 1 << protocol_bit::PAGEFAULT,
    };

    /// GET_CONFIG and SET_CONFIG.
    pub const CONFIG: VhostUserProtocolFeatures = VhostUserProtocolFeatures {
        bits: 1 << protocol_bit::CONFIG,
    };

    /// The backend may send file descriptors over the backend channel.
    pub const BACKEND_SEND_FD: VhostUserProtocolFeatures = VhostUserProtocolFeatures {
        bits: 1 << protocol_bit::BACKEND_SEND_FD,
    };

    /// The backend may register notifiers of the host.
    pub const HOST_NOTIFIER: VhostUserProtocolFeatures = VhostUserProtocolFeatures {
        bits: 1 << protocol_bit::HOST_NOTIFIER,
    };

    /// GET_INFLIGHT_FD and SET_INFLIGHT_FD.
    pub const INFLIGHT_SHMFD: VhostUserProtocolFeatures = VhostUserProtocolFeatures {
        bits: 1 << protocol_bit::INFLIGHT_SHMFD,
    };

    /// RESET_DEVICE.
    pub const RESET_DEVICE: VhostUserProtocolFeatures = VhostUserProtocolFeatures {
        bits: 1 << protocol_bit::RESET_DEVICE,
    };

    /// Rings are notified by messages.
    pub const INBAND_NOTIFICATIONS: VhostUserProtocolFeatures = VhostUserProtocolFeatures {
        bits: 1 << protocol_bit::INBAND_NOTIFICATIONS,
    };

    /// Regions are added and removed one by one.
    pub const CONFIGURE_MEM_SLOTS: VhostUserProtocolFeatures = VhostUserProtocolFeatures {
        bits: 1 << protocol_bit::CONFIGURE_MEM_SLOTS,
    };

    /// GET_STATUS and SET_STATUS.
    pub const STATUS: VhostUserProtocolFeatures = VhostUserProtocolFeatures {
        bits: 1 << protocol_bit::STATUS,
    };

    /// Regions say how Xen maps them.
    pub const XEN_MMAP: VhostUserProtocolFeatures = VhostUserProtocolFeatures {
        bits: 1 << protocol_bit::XEN_MMAP,
    };

    /// Objects are shared by name.
    pub const SHARED_OBJECT: VhostUserProtocolFeatures = VhostUserProtocolFeatures {
        bits: 1 << protocol_bit::SHARED_OBJECT,
    };

    /// The state of the device is transferred.
    pub const DEVICE_STATE: VhostUserProtocolFeatures = VhostUserProtocolFeatures {
        bits: 1 << protocol_bit::DEVICE_STATE,
    };

    /// A ring may stop while descriptors are in flight.
    pub const GET_VRING_BASE_INFLIGHT: VhostUserProtocolFeatures = VhostUserProtocolFeatures {
        bits: 1 << protocol_bit::GET_VRING_BASE_INFLIGHT,
    };

    /// Addresses may be those of the guest.
    pub const GPA_ADDRESSES: VhostUserProtocolFeatures = VhostUserProtocolFeatures {
        bits: 1 << protocol_bit::GPA_ADDRESSES,
    };

    /// Shared memory regions of the device.
    pub const SHMEM: VhostUserProtocolFeatures = VhostUserProtocolFeatures {
        bits: 1 << protocol_bit::SHMEM,
    };

    const FLAGS: &'static [Flag<VhostUserProtocolFeatures>] = &[
        Flag {
            name: "MQ",
            value: VhostUserProtocolFeatures::MQ,
        },
        Flag {
            name: "LOG_SHMFD",
            value: VhostUserProtocolFeatures::LOG_SHMFD,
        },
        Flag {
            name: "RARP",
            value: VhostUserProtocolFeatures::RARP,
        },
        Flag {
            name: "REPLY_ACK",
            value: VhostUserProtocolFeatures::REPLY_ACK,
        },
        Flag {
            name: "MTU",
            value: VhostUserProtocolFeatures::MTU,
        },
        Flag {
            name: "BACKEND_REQ",
            value: VhostUserProtocolFeatures::BACKEND_REQ,
        },
        Flag {
            name: "CROSS_ENDIAN",
            value: VhostUserProtocolFeatures::CROSS_ENDIAN,
        },
        Flag {
            name: "CRYPTO_SESSION",
            value: VhostUserProtocolFeatures::CRYPTO_SESSION,
        },
        Flag {
            name: "PAGEFAULT",
            value: VhostUserProtocolFeatures::PAGEFAULT,
        },
        Flag {
            name: "CONFIG",
            value: VhostUserProtocolFeatures::CONFIG,
        },
        Flag {
            name: "BACKEND_SEND_FD",
            value: VhostUserProtocolFeatures::BACKEND_SEND_FD,
        },
        Flag {
            name: "HOST_NOTIFIER",
            value: VhostUserProtocolFeatures::HOST_NOTIFIER,
        },
        Flag {
            name: "INFLIGHT_SHMFD",
            value: VhostUserProtocolFeatures::INFLIGHT_SHMFD,
        },
        Flag {
            name: "RESET_DEVICE",
            value: VhostUserProtocolFeatures::RESET_DEVICE,
        },
        Flag {
            name: "INBAND_NOTIFICATIONS",
            value: VhostUserProtocolFeatures::INBAND_NOTIFICATIONS,
        },
        Flag {
            name: "CONFIGURE_MEM_SLOTS",
            value: VhostUserProtocolFeatures::CONFIGURE_MEM_SLOTS,
        },
        Flag {
            name: "STATUS",
            value: VhostUserProtocolFeatures::STATUS,
        },
        Flag {
            name: "XEN_MMAP",
            value: VhostUserProtocolFeatures::XEN_MMAP,
        },
        Flag {
            name: "SHARED_OBJECT",
            value: VhostUserProtocolFeatures::SHARED_OBJECT,
        },
        Flag {
            name: "DEVICE_STATE",
            value: VhostUserProtocolFeatures::DEVICE_STATE,
        },
        Flag {
            name: "GET_VRING_BASE_INFLIGHT",
            value: VhostUserProtocolFeatures::GET_VRING_BASE_INFLIGHT,
        },
        Flag {
            name: "GPA_ADDRESSES",
            value: VhostUserProtocolFeatures::GPA_ADDRESSES,
        },
        Flag {
            name: "SHMEM",
            value: VhostUserProtocolFeatures::SHMEM,
        },
    ];
}

impl Flags for VhostUserProtocolFeatures {
    type Bits = u64;

    ghost exact = { ⊤ };

    ghost table = { (codes "MQ", 1) ∷ (codes "LOG_SHMFD", 2) ∷ (codes "RARP", 4) ∷ (codes "REPLY_ACK", 8) ∷ (codes "MTU", 16) ∷ (codes "BACKEND_REQ", 32) ∷ (codes "CROSS_ENDIAN", 64) ∷ (codes "CRYPTO_SESSION", 128) ∷ (codes "PAGEFAULT", 256) ∷ (codes "CONFIG", 512) ∷ (codes "BACKEND_SEND_FD", 1024) ∷ (codes "HOST_NOTIFIER", 2048) ∷ (codes "INFLIGHT_SHMFD", 4096) ∷ (codes "RESET_DEVICE", 8192) ∷ (codes "INBAND_NOTIFICATIONS", 16384) ∷ (codes "CONFIGURE_MEM_SLOTS", 32768) ∷ (codes "STATUS", 65536) ∷ (codes "XEN_MMAP", 131072) ∷ (codes "SHARED_OBJECT", 262144) ∷ (codes "DEVICE_STATE", 524288) ∷ (codes "GET_VRING_BASE_INFLIGHT", 1048576) ∷ (codes "GPA_ADDRESSES", 2097152) ∷ (codes "SHMEM", 4194304) ∷ [] };

    ghost set_of = { λ f. f.bits };

    fn flags<'a>() -> &'a [Flag<VhostUserProtocolFeatures>] {
        VhostUserProtocolFeatures::FLAGS
    }

    fn bits(&self) -> u64 {
        self.bits
    }

    fn from_bits_retain(bits: u64) -> VhostUserProtocolFeatures {
        VhostUserProtocolFeatures { bits }
    }
}
