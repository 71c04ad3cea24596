//! What is to be sent.

ghost use Rattle.std.specs.Prelude.{◌≡◌, ◌≤◌, [], vec_capacity};
ghost use Rattle.vhost_message.specs.declared.limits.TheConstants.{MAX_ATTACHED_FD_ENTRIES};

use crate::records::put_fds;
use std::alloc::{AllocError, Global};
use vhost_connection::Endpoint;
use vhost_link::{Link, MemLink, PlainHandle};
use vhost_message::{MAX_ATTACHED_FD_ENTRIES, MsgHeader};

/// What is to be sent: a link that hands it out, none of whose calls is cut, and a list for the descriptors of one piece.
#[derive(Drop)]
pub struct Outgoing {
    pub link: MemLink,
    list: Vec<PlainHandle>,
    ghost room: { MAX_ATTACHED_FD_ENTRIES ≤ vec_capacity list },
    ghost uncut: { link.script ≡ [] },
}

impl Outgoing {
    ghost use Rattle.std.specs.Prelude.{◌≡◌, ◌<◌, ◌≤◌, [], length, IfOk};
    ghost use Rattle.vhost_connection.specs.State.{state};
    ghost use Rattle.vhost_c_common.specs.Moving.{HandsOut};

    /// Nothing is to be sent.
    pub fn new(alloc: Global) -> std::result::Result<Outgoing, AllocError>
        ensures { IfOk result (λ o. o.link.pending ≡ []) }
    {
        Ok(Outgoing {
            link: MemLink::new(alloc, Vec::new(alloc)),
            list: Vec::with_capacity(alloc, MAX_ATTACHED_FD_ENTRIES)?,
        })
    }

    /// Hands out a piece of what an endpoint sent: bytes, with the descriptors on the first of them. The answer is how many of each;
    /// no byte is left where it is 0.
    pub fn hand_sent<M: MsgHeader>(
        &mut self,
        end: &mut Endpoint<M, MemLink>,
        bytes: &mut [u8],
        fds: &mut [i32],
    ) -> (usize, usize)
        requires bytes { 0 < length bytes.old }
        requires fds { MAX_ATTACHED_FD_ENTRIES ≤ length fds.old }
        ensures out { HandsOut (state end.old).link.sent (state end.new).link.sent bytes.new fds.new result }
        ensures rest { state end.new ≡ record (state end.old) { link = record (state end.old).link { sent = (state end.new).link.sent } } }
        ensures kept { self.new.link ≡ self.old.link }
    {
        self.list.clear();
        let count = end.link().hand_sent(bytes, &mut self.list);
        put_fds(&self.list, fds);
        (count, self.list.len())
    }

    /// Hands out a piece: bytes, with the descriptors on the first of them. The answer is how many of each; no byte is
    /// left where it is 0. It wants no memory.
    pub fn hand_out(&mut self, bytes: &mut [u8], fds: &mut [i32]) -> (usize, usize)
        requires bytes { 0 < length bytes.old }
        requires fds { MAX_ATTACHED_FD_ENTRIES ≤ length fds.old }
        ensures { HandsOut self.old.link.pending self.new.link.pending bytes.new fds.new result }
    {
        self.list.clear();
        let count = self.link.recv(bytes, &mut self.list).unwrap();
        put_fds(&self.list, fds);
        (count, self.list.len())
    }
}
