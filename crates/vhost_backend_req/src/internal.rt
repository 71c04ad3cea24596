//! The backend's end of the channel to its frontend.

ghost use Rattle.std.specs.Prelude.{◌≡◌, Some, IfOk, IfErr};
ghost use Rattle.vhost_message.specs.declared.error.Error.TheVariants.{OutOfMemory};

use std::alloc::Global;
use vhost_connection::Endpoint;
use vhost_link::Link;
use vhost_message::{BackendReq, Result, VhostUserMsgHeader};

pub(crate) type Header = VhostUserMsgHeader<BackendReq>;

/// The backend's end of the channel to its frontend: what both sides negotiated, and whether it was marked as
/// failed. `Backend` holds it behind a lock.
///
/// Mirrors `BackendInternal` of `vhost::vhost_user::backend_req`.
#[derive(Drop)]
pub struct BackendInternal<L: Link> {
    pub(crate) endpoint: Endpoint<Header, L>,
    pub(crate) reply_ack: bool,
    pub(crate) shared_object: bool,
    pub(crate) shmem: bool,
    pub(crate) config_change: bool,
    pub(crate) failed: Option<i32>,
}

impl<L: Link> BackendInternal<L> {
    ghost use Rattle.std.specs.Borrow.{sem, Lends};
    ghost use Rattle.vhost_backend_req.specs.Channel.{channel, opened, with_endpoint};
    ghost use Rattle.vhost_backend_req.specs.contracts.internal.BackendInternal.{the_row};
    ghost use Rattle.vhost_connection.specs.State.{state};
    ghost use Rattle.vhost_connection.specs.contracts.endpoint.Endpoint.{the_row as endpoint_row};
    ghost use Rattle.vhost_message.specs.contracts.backend_req.BackendReq.{the_row as code_row};
    ghost use Rattle.vhost_message.specs.contracts.header.VhostUserMsgHeader.{the_row as header_row};

    /// A channel over a link, with nothing negotiated yet and not marked as failed. Each message may use at most so many retries.
    ///
    /// OutOfMemory: an allocation failed.
    pub fn from_stream(alloc: Global, link: L, budget: u32) -> Result<Self>
        ensures opened { IfOk result (λ b. channel b ≡ opened link budget) }
        ensures memory { IfErr result (λ e. e ≡ OutOfMemory) }
    {
        Ok(BackendInternal {
            endpoint: Endpoint::from_stream(alloc, link, budget)?,
            reply_ack: false,
            shared_object: false,
            shmem: false,
            config_change: false,
            failed: None,
        })
    }

    /// Marks the channel as failed with the number of a system's error, also with 0. An earlier mark is replaced.
    pub fn set_failed(&mut self, error: i32)
        ensures { channel self.new ≡ record (channel self.old) { failed = Some error } }
    {
        self.failed = Some(error);
    }

    /// Whether requests are acknowledged by a number.
    pub fn set_reply_ack_flag(&mut self, on: bool)
        ensures { channel self.new ≡ record (channel self.old) { reply_ack = on } }
    {
        self.reply_ack = on;
    }

    /// Whether calls about shared objects are sent.
    pub fn set_shared_object_flag(&mut self, on: bool)
        ensures { channel self.new ≡ record (channel self.old) { shared_object = on } }
    {
        self.shared_object = on;
    }

    /// Whether calls about shared memory are sent.
    pub fn set_shmem_flag(&mut self, on: bool)
        ensures { channel self.new ≡ record (channel self.old) { shmem = on } }
    {
        self.shmem = on;
    }

    /// Whether a change of the configuration is reported.
    pub fn set_config_change_flag(&mut self, on: bool)
        ensures { channel self.new ≡ record (channel self.old) { config_change = on } }
    {
        self.config_change = on;
    }

    /// Lends its endpoint.
    pub fn endpoint_mut(&mut self) -> &mut Endpoint<Header, L>
        ensures* lender { sem 𝓛 (Lends (the_row L.row L.Handle.row) (endpoint_row (header_row code_row) L.row L.Handle.row) self.entry result (λ e. with_endpoint self.old e)) }
        ensures value { state result.now ≡ (channel self.old).endpoint }
    {
        &mut self.endpoint
    }

    /// Whether the last call that sent or received met an I/O error: the link failed, or retried once too often.
    pub fn faulted(&self) -> bool
        ensures { result ≡ (channel self.now).endpoint.faulted }
    {
        self.endpoint.faulted()
    }
}
