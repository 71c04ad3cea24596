//! What a device answered, and what is replied.

ghost use Rattle.std.specs.Prelude.{◌≡◌, length};

use crate::call::Area;
use std::alloc::AllocError;
use vhost_message::{
    Result, VhostUserConfig, VhostUserInflight, VhostUserLog, VhostUserSingleMemoryRegion,
    VhostUserVringState,
};

/// What a device answers a call. An answer of another kind than its call asks for counts as BackendInternalError.
#[derive(Drop)]
pub enum DeviceAnswer<H> {
    /// To calls without a value. To SetBackendReqFd and SetGpuSocket also why the channel could not be opened.
    Done(Result<()>),
    /// To GetFeatures, GetProtocolFeatures, GetQueueNum and GetMaxMemSlots.
    Number(Result<u64>),
    /// To SetMemTable: while postcopy listens, where each region is mapped.
    Bases(Result<Option<Vec<u64>>>),
    /// To AddMemRegion: while postcopy listens, where the region is mapped.
    Base(Result<Option<u64>>),
    /// To GetVringBase.
    RingState(Result<VhostUserVringState>),
    /// To GetConfig.
    Bytes(Result<Vec<u8>>),
    /// To GetSharedObject and PostcopyAdvice.
    Handle(Result<H>),
    /// To GetInflightFd.
    Inflight(Result<(VhostUserInflight, H)>),
    /// To SetDeviceStateFd.
    StateHandle(Result<Option<H>>),
    /// To GetShmemConfig: the regions of shared memory are in their place, which lies beside the answer.
    Shmem(Result<()>),
}

/// How the answer of a call is reported to the frontend.
#[derive(Clone, Copy)]
pub enum Then {
    /// It is acknowledged.
    Ack,
    /// The same for bases, and for a base, that nobody asked for.
    AckTable,
    AckRegion,
    /// The same as `Ack`; the virtio features are remembered.
    AckFeatures(u64),
    /// The same; the protocol features are remembered.
    AckProtocolFeatures(u64),
    /// The same; postcopy listens where the device agreed.
    AckListen,
    /// The same; postcopy is over.
    AckEnd,
    /// Its number is the reply, and is remembered as offered.
    Offers,
    /// Its number is the reply, with REPLY_ACK.
    OffersProtocol,
    Number,
    RingState,
    Config(Area),
    Handle,
    /// The same as `Handle`; postcopy was advised of where the device agreed.
    HandleAdvise,
    Inflight,
    StateHandle,
    Check,
    Shmem,
    Log(VhostUserLog),
    Base(VhostUserSingleMemoryRegion),
    /// Bases for so many regions are the reply.
    Bases(usize),
    Unwritten,
}

/// A part of configuration space with its bytes, which are the device's answer.
#[derive(Copy)]
pub struct ConfigReply<'t> {
    pub(crate) area: Area,
    pub(crate) bytes: &'t [u8],
    ghost whole: { length bytes.now ≡ area.config.size },
}

impl<'t> Clone for ConfigReply<'t> {
    ghost use Rattle.std.specs.Prelude.{◌≡◌, ⊤};

    ghost is_clone = { λ reply copy. copy ≡ reply };

    ghost is_infallible = { λ _. ⊤ };

    fn clone(&self) -> std::result::Result<ConfigReply<'t>, AllocError> {
        Ok(*self)
    }
}

impl<'t> ConfigReply<'t> {
    ghost use Rattle.std.specs.Prelude.{◌≡◌, ◌≤◌, ◌+◌, length};
    ghost use Rattle.vhost_message.specs.declared.limits.TheConstants.{MAX_MSG_SIZE};
    ghost use Rattle.vhost_backend_req_handler_core.specs.Replies.{bytes_in, record_in};

    /// The record.
    pub fn config(&self) -> VhostUserConfig
        ensures { result ≡ record_in self.now }
    {
        self.area.config
    }

    /// The bytes behind it, for which there is room in a message.
    pub fn bytes(&self) -> &'t [u8]
        ensures bytes { result.now ≡ bytes_in self.now }
        ensures size { 12 + length result.now ≤ MAX_MSG_SIZE }
    {
        self.bytes
    }
}

/// The body of a reply. What is long is lent by the device's answer, or lies beside it.
#[derive(Clone, Copy)]
pub enum Reply<'t> {
    Empty,
    U64(u64),
    OneRegion(VhostUserSingleMemoryRegion),
    RingState(VhostUserVringState),
    /// The record alone.
    Config(VhostUserConfig),
    ConfigBytes(ConfigReply<'t>),
    InflightArea(VhostUserInflight),
    LogArea(VhostUserLog),
    /// The regions of shared memory in their place.
    Shmem,
    /// The regions of the request's table, each with the base at the same place.
    Regions(&'t [u64]),
}

/// What is replied to the frontend.
#[derive(Clone, Copy)]
pub enum Told<'t, H> {
    Silent,
    /// Whether it succeeded.
    Acknowledged(bool),
    Replied(Reply<'t>),
    /// With the descriptor on the first byte.
    RepliedWith(Reply<'t>, &'t H),
}

/// What the session answers.
#[derive(Clone, Copy)]
pub enum Verdict {
    /// Success.
    Fine,
    /// What the device answered, without its value.
    Device,
    /// BackendInternalError.
    Internal,
}

/// What a call became: the session's answer, and what is replied.
#[derive(Clone, Copy)]
pub struct Conclusion<'t, H> {
    pub verdict: Verdict,
    pub told: Told<'t, H>,
}
