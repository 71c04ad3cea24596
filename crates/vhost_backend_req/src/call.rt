//! A call of the backend channel, as a value.

use vhost_message::{BackendReq, VhostUserMMap, VhostUserMsgHeader, VhostUserSharedMsg};

/// A call of a channel, or one of its flags.
#[derive(Drop)]
pub enum ReverseCall<H> {
    /// Whether requests are acknowledged by a number.
    SetReplyAck(bool),
    /// Whether calls about shared objects are sent.
    SetSharedObject(bool),
    /// Whether calls about shared memory are sent.
    SetShmem(bool),
    /// Whether a change of the configuration is reported.
    SetConfigChange(bool),
    /// `handle_config_change`.
    HandleConfigChange,
    /// `shared_object_add`.
    SharedObjectAdd(VhostUserSharedMsg),
    /// `shared_object_remove`.
    SharedObjectRemove(VhostUserSharedMsg),
    /// `shared_object_lookup`.
    SharedObjectLookup(VhostUserSharedMsg, H),
    /// `shmem_map`.
    ShmemMap(VhostUserMMap, H),
    /// `shmem_unmap`.
    ShmemUnmap(VhostUserMMap),
}

/// What became of a call that is a value.
#[derive(Drop)]
pub enum Asked {
    /// It was a flag, which is set; nothing was sent.
    Set,
    /// Its request was sent: the header, where a reply is awaited.
    Sent(Option<VhostUserMsgHeader<BackendReq>>),
}
