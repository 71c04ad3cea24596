//! A link that receives what it sent.

ghost use Rattle.std.specs.Prelude.{◌≡◌, ◌<◌, ◌≤◌, [], ◌++◌, length, take, drop, Ok};
ghost use Rattle.vhost_link.specs.declared.handle.Kind.TheVariants.{NoSocket};

use std::alloc::Global;
use std::marker::Model;
use vhost_link::{Handle, Kind, Link};
use vhost_message::IoCause;

/// A file descriptor that would travel with a byte. This link carries none.
#[derive(Clone, Copy, Debug)]
pub struct Ticket {
    /// Its number.
    pub number: u32,
}

impl Handle for Ticket {
    ghost kinds = { λ ticket result. result ≡ Ok NoSocket };

    ghost duplicates = { λ ticket result. result ≡ Ok ticket };

    fn kind(&self) -> Result<Kind, IoCause> {
        Ok(Kind::NoSocket)
    }

    fn duplicate(&self) -> Result<Ticket, IoCause> {
        Ok(*self)
    }
}

/// A link whose other end is itself. A contract sees the bytes that are still to be received.
#[derive(Drop)]
pub struct Loopback {
    bytes: Vec<u8>,
    /// How many of them were received.
    gone: usize,
}

impl Model for Loopback {
    ghost use Rattle.std.specs.Prelude.{◌≤◌, ℕ, List, drop, vec_len};

    ghost Value = { List ℕ };

    ghost view = { λ link. drop link.gone link.bytes.items };

    ghost invariant = { λ link. link.gone ≤ vec_len link.bytes };
}

impl Loopback {
    /// A link that holds nothing.
    pub fn new(alloc: Global) -> Loopback
        ensures { result ≡ [] }
    {
        Loopback {
            bytes: Vec::new(alloc),
            gone: 0,
        }
    }

    /// Fills the room, from its start, with the bytes that come next; how many these are.
    fn hand_out(&mut self, room: &mut [u8]) -> usize
        requires { 0 < length room.old }
        ensures within { result ≤ length room.old }
        ensures rest { drop result room.new ≡ drop result room.old }
        ensures front { self.old ≡ take result room.new ++ self.new }
        ensures end { result ≡ 0 → self.old ≡ [] }
    {
        let left = &self.bytes[self.gone..];
        let count = left.len().min(room.len());
        room[..count].copy_from_slice(&left[..count]);
        self.gone += count;
        count
    }
}

impl Link for Loopback {
    ghost use Rattle.std.specs.Prelude.{⊤};
    ghost use Rattle.vhost_examples.specs.Loopback.{event};

    type Handle = Ticket;

    ghost event = { event };

    ghost duplicates = { λ _ _. ⊤ };

    ghost opens = { λ _ _ _. ⊤ };

    /// Accepts all bytes. It carries no file descriptors, and says so; a failed allocation is `Raw(12)`.
    fn send(&mut self, bytes: &[u8], handles: &[&Ticket]) -> Result<usize, IoCause> {
        if !handles.is_empty() {
            return Err(IoCause::Named("handles cannot be carried"));
        }
        match self.bytes.extend_from_slice(bytes) {
            Ok(()) => Ok(bytes.len()),
            Err(_) => Err(IoCause::Raw(12)),
        }
    }

    /// Gives all that fits into the room; 0 where nothing is left.
    fn recv(&mut self, room: &mut [u8], _handles: &mut Vec<Ticket>) -> Result<usize, IoCause> {
        Ok(self.hand_out(room))
    }

    fn duplicate(&self) -> Result<Loopback, IoCause> {
        Err(IoCause::Named("link cannot be duplicated"))
    }

    fn of_handle(&self, _ticket: Ticket) -> Result<Loopback, IoCause> {
        Err(IoCause::Named("not a socket"))
    }
}
