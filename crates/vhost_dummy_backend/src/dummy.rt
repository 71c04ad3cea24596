//! The example device and what it remembers.

ghost use Rattle.std.specs.Prelude.{◌≡◌, ◌^◌, Some, IfOk, IfErr, true, false, bit_or};
ghost use Rattle.vhost_message.specs.declared.error.Error.TheVariants.{InvalidParam};
ghost use Rattle.vhost_message.specs.declared.protocol_bit.TheConstants.{SHMEM};

use crate::spares::Spares;
use bitflags::Flags;
use std::alloc::Global;
use vhost_link::Link;
use vhost_message::{Error, Result, VhostUserProtocolFeatures, VhostUserShMemConfig, virtio_bit};

/// How many rings it has.
pub const MAX_QUEUE_NUM: usize = 2;

/// The greatest size of a ring, in descriptors.
pub const MAX_VRING_NUM: usize = 256;

/// How many regions of memory it supports.
pub const MAX_MEM_SLOTS: usize = 509;

/// The virtio features that it offers: two of the device's own, and the protocol features.
pub const VIRTIO_FEATURES: u64 = (1 << virtio_bit::PROTOCOL_FEATURES) | 0b11;

/// A device without any function, that keeps the rules of the protocol. Where it has to give a file descriptor, it gives one of
/// those that it was made with, the last one first.
///
/// Mirrors the example device of the crate `vhost`, which makes temporary files.
#[derive(Drop)]
pub struct DummyBackendReqHandler<L: Link> {
    /// Whether a frontend owns the session.
    pub owned: bool,
    /// Whether virtio features were accepted.
    pub features_acked: bool,
    /// The virtio features that were accepted.
    pub acked_features: u64,
    /// The protocol features that were accepted, and SHMEM where a configuration was set.
    pub acked_protocol_features: u64,
    /// The greatest size of a packet that was set, in bytes; 0 before.
    pub mtu: u16,
    /// How many rings may be named.
    pub queue_num: usize,
    /// The size of each ring, in descriptors.
    pub vring_num: [u32; MAX_QUEUE_NUM],
    /// The first index of each ring to look for available descriptors.
    pub vring_base: [u32; MAX_QUEUE_NUM],
    /// The call descriptor of each ring, by which it would signal used buffers.
    pub call_fd: [Option<L::Handle>; MAX_QUEUE_NUM],
    /// The kick descriptor of each ring, by which the driver signals available buffers.
    pub kick_fd: [Option<L::Handle>; MAX_QUEUE_NUM],
    /// The error descriptor of each ring, by which it would signal errors.
    pub err_fd: [Option<L::Handle>; MAX_QUEUE_NUM],
    /// Whether each ring was kicked, and not stopped since.
    pub vring_started: [bool; MAX_QUEUE_NUM],
    /// Whether each ring is enabled.
    pub vring_enabled: [bool; MAX_QUEUE_NUM],
    /// A copy of the file descriptor that it gave out last for an inflight region.
    pub inflight_file: Option<L::Handle>,
    /// A copy of the file descriptor that it gave out last for a shared object.
    pub shared_file: Option<L::Handle>,
    /// Its regions of shared memory, if any.
    pub shmem_config: Option<VhostUserShMemConfig>,
    pub(crate) spare: Spares<L::Handle>,
    pub(crate) alloc: Global,
}

impl<L: Link> DummyBackendReqHandler<L> {
    ghost use Rattle.vhost_dummy_backend.specs.Dummy.{fresh, has_ring};

    /// A device that nobody owns, with file descriptors to give out.
    pub fn new(alloc: Global, spare: Vec<L::Handle>) -> Self
        ensures { result ≡ fresh alloc spare.items }
    {
        DummyBackendReqHandler {
            owned: false,
            features_acked: false,
            acked_features: 0,
            acked_protocol_features: 0,
            mtu: 0,
            queue_num: MAX_QUEUE_NUM,
            vring_num: [0; MAX_QUEUE_NUM],
            vring_base: [0; MAX_QUEUE_NUM],
            call_fd: [None, None],
            kick_fd: [None, None],
            err_fd: [None, None],
            vring_started: [false; MAX_QUEUE_NUM],
            vring_enabled: [false; MAX_QUEUE_NUM],
            inflight_file: None,
            shared_file: None,
            shmem_config: None,
            spare: Spares::new(spare),
            alloc,
        }
    }

    /// Gives it regions of shared memory, and the protocol feature SHMEM.
    pub fn set_shmem_config(&mut self, config: VhostUserShMemConfig)
        ensures { self.new ≡ record self.old { shmem_config = Some config; acked_protocol_features = bit_or self.old.acked_protocol_features (2 ^ SHMEM) } }
    {
        self.acked_protocol_features |= VhostUserProtocolFeatures::SHMEM.bits();
        self.shmem_config = Some(config);
    }

    /// The place of a ring; InvalidParam where there is none of this index.
    pub(crate) fn ring(&self, index: u32) -> Result<usize>
        ensures found { IfOk result (λ ring. (has_ring self.now index ≡ true) × (ring ≡ index)) }
        ensures missing { IfErr result (λ e. (has_ring self.now index ≡ false) × (e ≡ InvalidParam)) }
    {
        let ring = index as usize;
        if ring < self.queue_num && ring < MAX_QUEUE_NUM {
            Ok(ring)
        } else {
            Err(Error::InvalidParam)
        }
    }
}
