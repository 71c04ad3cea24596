//! The numbers of the bits of the features of the protocol itself.

/// Several queues: GET_QUEUE_NUM.
pub const MQ: u32 = 0;

/// The log of dirty pages comes as shared memory.
pub const LOG_SHMFD: u32 = 1;

/// SEND_RARP.
pub const RARP: u32 = 2;

/// A request may ask for an acknowledgement.
pub const REPLY_ACK: u32 = 3;

/// NET_SET_MTU.
pub const MTU: u32 = 4;

/// The backend may send requests, over the backend channel.
pub const BACKEND_REQ: u32 = 5;

/// SET_VRING_ENDIAN.
pub const CROSS_ENDIAN: u32 = 6;

/// CREATE_CRYPTO_SESSION and CLOSE_CRYPTO_SESSION.
pub const CRYPTO_SESSION: u32 = 7;

/// Migration by postcopy.
pub const PAGEFAULT: u32 = 8;

/// GET_CONFIG and SET_CONFIG.
pub const CONFIG: u32 = 9;

/// The backend may send file descriptors over the backend channel.
pub const BACKEND_SEND_FD: u32 = 10;

/// The backend may register notifiers of the host.
pub const HOST_NOTIFIER: u32 = 11;

/// GET_INFLIGHT_FD and SET_INFLIGHT_FD.
pub const INFLIGHT_SHMFD: u32 = 12;

/// RESET_DEVICE.
pub const RESET_DEVICE: u32 = 13;

/// Rings are notified by messages.
pub const INBAND_NOTIFICATIONS: u32 = 14;

/// Regions are added and removed one by one.
pub const CONFIGURE_MEM_SLOTS: u32 = 15;

/// GET_STATUS and SET_STATUS.
pub const STATUS: u32 = 16;

/// Regions say how Xen maps them.
pub const XEN_MMAP: u32 = 17;

/// Objects are shared by name.
pub const SHARED_OBJECT: u32 = 18;

/// The state of the device is transferred.
pub const DEVICE_STATE: u32 = 19;

/// A ring may stop while descriptors are in flight.
pub const GET_VRING_BASE_INFLIGHT: u32 = 20;

/// Addresses may be those of the guest.
pub const GPA_ADDRESSES: u32 = 21;

/// Shared memory regions of the device.
pub const SHMEM: u32 = 22;
