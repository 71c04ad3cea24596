//! A link between two threads.

ghost use Rattle.std.specs.Prelude.{◌≡◌, ◌<◌, ◌≤◌, [], length, map, IfOk, IfSome, vec_capacity};
ghost use Rattle.vhost_message.specs.declared.limits.TheConstants.{MAX_ATTACHED_FD_ENTRIES};
ghost use Rattle.vhost_link.specs.Law.{Sends};
ghost use Rattle.vhost_link.specs.Rings.{AreNewEnds, event, Fills, TriesReceive, FillsRoom, Compared, RingLaw};

mod as_link;
mod ends;
mod pop;
mod push;
mod token;

use crate::hub::Hub;
use crate::plain::PlainHandle;
pub use ends::Ends;
use std::alloc::{AllocError, Global};
use std::marker::Model;
use std::sync::Arc;
pub use token::Token;
use vhost_message::IoCause;

/// One end of a link between two threads, which share no lock: a ring of pieces goes each way.
///
/// Only its receive as a `Link` waits, by `R`.
#[derive(Drop)]
pub struct SharedLink<R> {
    ends: Ends,
    hub: Arc<Hub, Global>,
    rt: R,
}

impl<R> Model for SharedLink<R> {
    ghost use Rattle.vhost_link.specs.Rings.{RingEnds};

    ghost Value = { RingEnds };

    ghost view = { λ link. link.ends };
}

impl<R: Copy + Drop> SharedLink<R> {
    /// Both ends of a new link, whose rings have room for so many pieces each: more than `MAX_ATTACHED_FD_ENTRIES`. Descriptors that
    /// they are to open were given out by the hub.
    ///
    /// `AllocError`: an allocation failed.
    pub fn pair(
        rt: R,
        alloc: Global,
        hub: &Arc<Hub, Global>,
        capacity: usize,
    ) -> Result<(SharedLink<R>, SharedLink<R>), AllocError>
        requires { MAX_ATTACHED_FD_ENTRIES < capacity }
        ensures { IfOk result (λ p. AreNewEnds capacity p.0 p.1) }
    {
        let (near, far) = Ends::pair(alloc, capacity)?;
        let first = Arc::try_clone(hub)?;
        let second = Arc::try_clone(hub)?;
        let near = SharedLink {
            ends: near,
            hub: first,
            rt,
        };
        let far = SharedLink {
            ends: far,
            hub: second,
            rt,
        };
        Ok((near, far))
    }
}

impl<R: Drop> SharedLink<R> {
    /// Accepts the descriptors and as many bytes as there is room for behind them, and waits for no one; the answer is how many.
    ///
    /// The caller has at least one byte, and at most `MAX_ATTACHED_FD_ENTRIES` descriptors.
    /// `Raw(EAGAIN)`: there is no room for the descriptors and one byte. Nothing was accepted.
    pub fn send(&mut self, bytes: &[u8], handles: &[&PlainHandle]) -> Result<usize, IoCause>
        requires bytes { 0 < length bytes.now }
        requires handles { length handles.now ≤ MAX_ATTACHED_FD_ENTRIES }
        ensures law { Sends event self.old bytes.now (map (λ h. h.now) handles.now) result self.new }
        ensures fills { Fills (length bytes.now) (length handles.now) result self.new }
    {
        self.ends.send(bytes, handles)
    }

    /// Hands out what has come, and waits for no one: what fits into the room, up to the next byte that brings descriptors. The answer
    /// is how many bytes; `None` where nothing has come yet, and 0 where the other end is gone and nothing is left.
    ///
    /// The descriptors are those of the first byte. The caller's list is empty, with room for `MAX_ATTACHED_FD_ENTRIES`.
    pub fn try_recv(&mut self, room: &mut [u8], handles: &mut Vec<PlainHandle>) -> Option<usize>
        requires room { 0 < length room.old }
        requires list { handles.old.items ≡ [] }
        requires places { MAX_ATTACHED_FD_ENTRIES ≤ vec_capacity handles.old }
        ensures law { TriesReceive self.old room.old result room.new handles.new.items self.new }
        ensures fills { FillsRoom (length room.old) result self.new }
        ensures places { vec_capacity handles.old ≤ vec_capacity handles.new }
    {
        self.ends.try_recv(room, handles)
    }

    /// Drops the link, and reports what it sent. `None` if the other end was dropped before.
    pub fn finish(self) -> Option<Token>
        ensures { IfSome result (λ t. (t.ring ≡ self.output) × (t.cells ≡ self.sent)) }
    {
        self.into_ends().finish()
    }

    /// How many pieces are left of what the other end sent: one for each byte and one for each descriptor. From now on a receive
    /// finds them all.
    ///
    /// The token is the other end's.
    pub fn compare(&mut self, token: Token) -> usize
        requires { token.ring ≡ self.old.input }
        ensures { Compared token self.old result self.new }
    {
        self.ends.compare(token)
    }

    /// The two ring ends, which a hub accepts.
    pub fn into_ends(self) -> Ends
        ensures { result ≡ self }
    {
        let SharedLink {
            ends,
            hub: _,
            rt: _,
        } = self;
        ends
    }
}

/// What single calls of a link between threads add up to: it accepted what was appended to all that it sent, and handed out what
/// was appended to all that it received. It never fails for good.
pub fn ring_law()
    ensures { RingLaw }
{}
