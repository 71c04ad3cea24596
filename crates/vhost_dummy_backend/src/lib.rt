//! An example device, that keeps the rules of the protocol and has no function of its own.
#![tactic(auto)]

mod dummy;
mod handler;
mod spares;

pub use dummy::{
    DummyBackendReqHandler, MAX_MEM_SLOTS, MAX_QUEUE_NUM, MAX_VRING_NUM, VIRTIO_FEATURES,
};
