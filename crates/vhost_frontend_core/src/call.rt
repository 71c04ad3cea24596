//! What a caller asks of a frontend, over the descriptors of any link.

use crate::regions::Regions;
use vhost_backend::{VhostUserDirtyLogRegion, VhostUserMemoryRegionInfo};
use vhost_message::{
    HeardReq, VhostTransferStateDirection, VhostTransferStatePhase, VhostUserConfigFlags,
    VhostUserInflight, VhostUserProtocolFeatures, VhostUserSharedMsg, VringConfigData,
};

/// A call of a frontend with its arguments: descriptors, regions and bytes are lent. A ring is named by its index.
///
/// Below each call stand the errors that its arguments and the session have it refused with; nothing is sent then. Where the
/// answer is not only whether it succeeded, its form stands there, too.
#[derive(Drop)]
pub enum Call<'a, H> {
    /// The virtio features that the backend offers, which are remembered: `Number`.
    GetFeatures,
    /// Accepts virtio features.
    SetFeatures(u64),
    /// Becomes the owner of the session.
    SetOwner,
    /// Gives the session up.
    ResetOwner,
    /// The protocol features that the backend offers, those that have a meaning: `Number`.
    ///
    /// InactiveFeature: it offers none.
    GetProtocolFeatures,
    /// Accepts protocol features.
    ///
    /// InactiveFeature: the backend offers none.
    SetProtocolFeatures(VhostUserProtocolFeatures),
    /// How many queues the backend has at most, which is remembered: `Number`.
    ///
    /// InactiveOperation: MQ is not accepted. InvalidMessage: the backend replied more than 0x8000; the old number stays.
    GetQueueNum,
    /// Resets the device.
    ///
    /// InactiveOperation: RESET_DEVICE is not accepted.
    ResetDevice,
    /// Gives the guest's memory: 1 region or more, each with the descriptor that maps it. While postcopy listens, the answer is
    /// where each is mapped, in their order: `Bases`.
    ///
    /// InvalidParam: there is no region, there are more than a table may have, or one has the size 0 or no descriptor.
    /// InvalidMessage: the reply is of other regions.
    SetMemTable(Regions<'a, H>),
    /// Says where the log lies: at this base, or in this region where shared memory is agreed on.
    ///
    /// InvalidParam: the region has no descriptor. InvalidMessage: the log region in the reply is not valid; under `Standard` the
    /// reply may have any size, and its payload is not looked at.
    SetLogBase(u64, Option<VhostUserDirtyLogRegion<'a, H>>),
    /// Gives the descriptor by which the backend signals that it logged.
    SetLogFd(&'a H),
    /// Sets a ring's size, in descriptors.
    ///
    /// InvalidParam: the backend has no queue of this index, or the index has more than 32 bits.
    SetVringNum(usize, u16),
    /// Sets a ring's next descriptor index; refused as `SetVringNum` is.
    SetVringBase(usize, u32),
    /// Says where a ring's parts lie; refused as `SetVringNum` is, or where the flags are neither 0 nor 1.
    SetVringAddr(usize, VringConfigData),
    /// Stops a ring. Its next descriptor index: `Number`. Refused as `SetVringNum` is.
    GetVringBase(usize),
    /// Gives the call descriptor, by which the backend signals used buffers. Where there is none, the driver polls.
    ///
    /// InvalidParam: the backend has no queue of this index, or the index is greater than 255.
    SetVringCall(usize, Option<&'a H>),
    /// Gives the kick descriptor, by which the driver signals available buffers; refused as `SetVringCall` is.
    SetVringKick(usize, Option<&'a H>),
    /// Gives the error descriptor, by which the backend signals an error; refused as `SetVringCall` is.
    SetVringErr(usize, Option<&'a H>),
    /// Enables or disables a ring; refused as `SetVringNum` is.
    ///
    /// InactiveFeature: the protocol features are not accepted.
    SetVringEnable(usize, bool),
    /// So many bytes of the configuration space from this byte on; as many as the buffer has, which is sent along: where they
    /// lie, and the bytes: `Config`.
    ///
    /// InvalidParam: there is no byte, the part lies beyond the space, or the buffer has more bytes than fit. The same where it
    /// has none: under `Standard` nothing is sent then, by the other profile nothing is received. InactiveOperation: CONFIG is
    /// not accepted. BackendInternalError: the reply is bare, or under `Standard` has no body, since the backend has no such
    /// bytes. InvalidMessage: the reply is of another part, or has a descriptor.
    GetConfig(u32, u32, VhostUserConfigFlags, &'a [u8]),
    /// Changes the configuration space from this byte on.
    ///
    /// InvalidParam: there is no byte, or they are more than fit, or lie beyond the space. InactiveOperation: CONFIG is not
    /// accepted.
    SetConfig(u32, VhostUserConfigFlags, &'a [u8]),
    /// Gives the backend channel, on which the backend may send requests.
    ///
    /// InactiveOperation: BACKEND_REQ is not accepted.
    SetBackendRequestFd(&'a H),
    /// The descriptor of a shared object: `Handle`.
    ///
    /// InactiveOperation: SHARED_OBJECT is not accepted. InvalidParam: the name is not valid. InvalidMessage: no descriptor
    /// came. BackendInternalError: none came under `Standard`, where that says that there is no such object. IncorrectFds:
    /// several did.
    GetSharedObject(VhostUserSharedMsg),
    /// The inflight region: where it lies, and its descriptor: `Inflight`.
    ///
    /// InactiveOperation: INFLIGHT_SHMFD is not accepted. InvalidMessage: no descriptor came. BackendInternalError: none came
    /// with a region of the size 0 under `Standard`, where that says that there is none. IncorrectFds: several did.
    GetInflightFd(VhostUserInflight),
    /// Gives the inflight region.
    ///
    /// InactiveOperation: INFLIGHT_SHMFD is not accepted. InvalidParam: the region's size, the number of queues, or their
    /// size is 0.
    SetInflightFd(VhostUserInflight, &'a H),
    /// How many regions of memory the backend can be given: `Number`.
    ///
    /// InactiveOperation: CONFIGURE_MEM_SLOTS is not accepted.
    GetMaxMemSlots,
    /// Gives the backend a region. While postcopy listens, the answer is where it is mapped: `Base`.
    ///
    /// InactiveOperation: CONFIGURE_MEM_SLOTS is not accepted. InvalidParam: the region's size is 0, or it has no
    /// descriptor. InvalidMessage: the reply is of another region.
    AddMemRegion(VhostUserMemoryRegionInfo<'a, H>),
    /// Removes a region from the backend.
    ///
    /// InactiveOperation: CONFIGURE_MEM_SLOTS is not accepted. InvalidParam: the region's size is 0.
    RemoveMemRegion(VhostUserMemoryRegionInfo<'a, H>),
    /// The regions of shared memory: `ShmemConfig`.
    ///
    /// InactiveOperation: SHMEM is not accepted.
    GetShmemConfig,
    /// Begins a transfer of the backend's state over this descriptor. The descriptor that the backend wants in its place, if
    /// any: `StateHandle`.
    ///
    /// InactiveOperation: DEVICE_STATE is not accepted. BackendInternalError: the backend failed. IncorrectFds: several
    /// descriptors came.
    SetDeviceStateFd(VhostTransferStateDirection, VhostTransferStatePhase, &'a H),
    /// Checks whether the transfer succeeded.
    ///
    /// InactiveOperation: DEVICE_STATE is not accepted. BackendInternalError: it failed.
    CheckDeviceState,
    /// Announces that postcopy is going to begin; it is advised from then on. The userfaultfd: `Handle`.
    ///
    /// InactiveOperation: PAGEFAULT is not accepted. InvalidMessage: no descriptor came. BackendInternalError: none came under
    /// `Standard`, where that says that there is no userfaultfd. IncorrectFds: several did.
    PostcopyAdvise,
    /// Asks the backend to listen for page faults, as it does once this succeeded. Under `Standard` an acknowledgement is asked
    /// for wherever both sides agreed on them, whatever the flags of requests.
    ///
    /// InactiveOperation: PAGEFAULT is not accepted.
    PostcopyListen,
    /// Announces that postcopy has ended, as it has once this succeeded. Under `Standard` it asks for what `PostcopyListen` asks
    /// for, and a reply is awaited in any case.
    ///
    /// InactiveOperation: PAGEFAULT is not accepted. BackendInternalError: the backend failed; under `Standard` whoever listened
    /// has ended all the same.
    PostcopyEnd,
    /// Acknowledges that the regions are mapped which this request brought: SET_MEM_TABLE or ADD_MEM_REG. Nothing is
    /// awaited.
    ///
    /// InvalidParam: it is another request.
    PostcopyAckMemRegions(HeardReq),
    /// Sets the MTU, in bytes.
    ///
    /// InactiveOperation: MTU is not accepted.
    SetMtu(u16),
}
