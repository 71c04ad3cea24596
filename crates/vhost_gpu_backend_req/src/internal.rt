//! The backend's end of the vhost-user-gpu channel.

ghost use Rattle.std.specs.Prelude.{◌≡◌, Some, IfOk, IfErr};
ghost use Rattle.vhost_message.specs.declared.error.Error.TheVariants.{OutOfMemory};

use std::alloc::Global;
use vhost_connection::Endpoint;
use vhost_gpu_message::{GpuBackendReq, VhostUserGpuMsgHeader};
use vhost_link::Link;
use vhost_message::Result;

pub(crate) type Header = VhostUserGpuMsgHeader<GpuBackendReq>;

/// The backend's end of the vhost-user-gpu channel, and whether it was marked as failed. `GpuBackend` holds it behind a lock.
///
/// Mirrors `BackendInternal` of `vhost::vhost_user::gpu_backend_req`.
#[derive(Drop)]
pub struct BackendInternal<L: Link> {
    pub(crate) endpoint: Endpoint<Header, L>,
    pub(crate) failed: Option<i32>,
}

impl<L: Link> BackendInternal<L> {
    ghost use Rattle.std.specs.Borrow.{sem, Lends};
    ghost use Rattle.vhost_connection.specs.State.{state};
    ghost use Rattle.vhost_connection.specs.contracts.endpoint.Endpoint.{the_row as endpoint_row};
    ghost use Rattle.vhost_gpu_message.specs.contracts.gpu_backend_req.GpuBackendReq.{the_row as code_row};
    ghost use Rattle.vhost_gpu_message.specs.contracts.header.VhostUserGpuMsgHeader.{the_row as header_row};
    ghost use Rattle.vhost_gpu_backend_req.specs.contracts.internal.BackendInternal.{the_row};
    ghost use Rattle.vhost_gpu_backend_req.specs.Channel.{channel, opened, with_endpoint};

    /// A channel over a link, that is not marked as failed. Each message may use at most so many retries.
    ///
    /// OutOfMemory: an allocation failed.
    pub fn from_stream(alloc: Global, link: L, budget: u32) -> Result<Self>
        ensures opened { IfOk result (λ b. channel b ≡ opened link budget) }
        ensures memory { IfErr result (λ e. e ≡ OutOfMemory) }
    {
        Ok(BackendInternal {
            endpoint: Endpoint::from_stream(alloc, link, budget)?,
            failed: None,
        })
    }

    /// Marks the channel as failed with the number of a system's error, also with 0. An earlier mark is replaced.
    pub fn set_failed(&mut self, error: i32)
        ensures { channel self.new ≡ record (channel self.old) { failed = Some error } }
    {
        self.failed = Some(error);
    }

    /// Lends its endpoint.
    pub fn endpoint_mut(&mut self) -> &mut Endpoint<Header, L>
        ensures* lender { sem 𝓛 (Lends (the_row L.row L.Handle.row) (endpoint_row (header_row code_row) L.row L.Handle.row) self.entry result (λ e. with_endpoint self.old e)) }
        ensures value { state result.now ≡ (channel self.old).endpoint }
    {
        &mut self.endpoint
    }

    /// Whether the last call that sent or received met an I/O error: the link failed, or retried once too often.
    pub fn faulted(&self) -> bool
        ensures { result ≡ (channel self.now).endpoint.faulted }
    {
        self.endpoint.faulted()
    }
}
