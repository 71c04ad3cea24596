//! Endpoints over sockets, and a duplicate of the link of one.

ghost use Rattle.std.specs.Prelude.{◌≡◌, IfOk, IfErr};

use crate::endpoint::Endpoint;
use std::alloc::Global;
use std::net::Net;
use vhost_link::{Link, UnixLink, cause_of};
use vhost_message::{Error, IoCause, MsgHeader, Result};

impl<M: MsgHeader, L: Link> Endpoint<M, L> {
    ghost use Rattle.vhost_connection.specs.State.{state};

    /// A duplicate of its link, or why there is none. It doesn't see what was received ahead.
    pub fn try_clone_sock(&self) -> std::result::Result<L, IoCause>
        ensures { L.duplicates (state self.now).link result }
    {
        self.source.link.duplicate()
    }
}

impl<M: MsgHeader> Endpoint<M, UnixLink> {
    ghost use Rattle.vhost_connection.specs.State.{state, fresh};
    ghost use Rattle.vhost_connection.specs.Sockets.{IsConnectError};

    /// Connects to the socket at a path, with a retry limit for each message.
    ///
    /// SocketConnect: the system refused, whatever the number. OutOfMemory: an allocation failed.
    pub fn connect(rt: &impl Net, alloc: Global, path: &str, budget: u32) -> Result<Self>
        ensures opened { IfOk result (λ e. state e ≡ fresh (state e).link budget) }
        ensures refused { IfErr result IsConnectError }
    {
        match UnixLink::connect(rt, path) {
            Ok(link) => Endpoint::from_stream(alloc, link, budget),
            Err(error) => Err(Error::SocketConnect(cause_of(&error))),
        }
    }
}
