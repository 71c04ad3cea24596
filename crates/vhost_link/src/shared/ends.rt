//! The two rings of one end of a link.

ghost use Rattle.std.specs.Prelude.{◌≡◌, ◌<◌, ◌≤◌, [], length, map, IfOk, IfSome, vec_capacity};
ghost use Rattle.rtrb.specs.Ring.{sent, received};
ghost use Rattle.vhost_message.specs.declared.limits.TheConstants.{MAX_ATTACHED_FD_ENTRIES};
ghost use Rattle.vhost_link.specs.Law.{Sends};
ghost use Rattle.vhost_link.specs.Rings.{AreNewEnds, ends_of, event, Fills, TriesReceive, FillsRoom, Compared};

use crate::piece::{Piece, PieceOrder};
use crate::plain::PlainHandle;
use crate::shared::pop::{keep_handles, take_bytes};
use crate::shared::push::{push_bytes, push_handles};
use crate::shared::token::Token;
use rtrb::{Consumer, Producer, RingBuffer};
use std::alloc::{AllocError, Global};
use std::marker::Model;
use vhost_message::errno::EAGAIN;
use vhost_message::{IoCause, MAX_ATTACHED_FD_ENTRIES};

/// One end of a link between two threads: the ring that it sends to, and the one that it receives from.
#[derive(Drop)]
pub struct Ends {
    output: Producer<Piece, Global, PieceOrder>,
    input: Consumer<Piece, Global, PieceOrder>,
    /// Descriptors whose byte has not come yet.
    kept: Vec<PlainHandle>,
}

impl Model for Ends {
    ghost use Rattle.std.specs.Prelude.{◌≡◌, ◌≤◌, [], length, vec_capacity};
    ghost use Rattle.rtrb.specs.Ring.{sent, received};
    ghost use Rattle.vhost_message.specs.declared.limits.TheConstants.{MAX_ATTACHED_FD_ENTRIES};
    ghost use Rattle.vhost_link.specs.Pieces.{waiting};
    ghost use Rattle.vhost_link.specs.Rings.{RingEnds, ends_of};

    ghost Value = { RingEnds };

    ghost view = { λ ends. ends_of ends.output ends.input ends.kept.items };

    ghost invariant = { λ ends. (waiting (sent ends.output) ≡ []) × (ends.kept.items ≡ waiting (received ends.input)) × (length ends.kept.items ≤ MAX_ATTACHED_FD_ENTRIES) × (MAX_ATTACHED_FD_ENTRIES ≤ vec_capacity ends.kept) };
}

impl Ends {
    /// The ends of a new link, whose rings have room for so many pieces each.
    pub(crate) fn pair(alloc: Global, capacity: usize) -> Result<(Ends, Ends), AllocError>
        ensures { IfOk result (λ p. AreNewEnds capacity p.0 p.1) }
    {
        let (near, far) = RingBuffer::with_protocol::<Global, PieceOrder>(alloc, capacity)?;
        let (back, input) = RingBuffer::with_protocol::<Global, PieceOrder>(alloc, capacity)?;
        let first = Ends::new(alloc, near, input)?;
        let second = Ends::new(alloc, back, far)?;
        Ok((first, second))
    }

    /// Accepts the descriptors and a prefix of the bytes, or nothing.
    pub(crate) fn send(&mut self, bytes: &[u8], handles: &[&PlainHandle]) -> Result<usize, IoCause>
        requires bytes { 0 < length bytes.now }
        requires handles { length handles.now ≤ MAX_ATTACHED_FD_ENTRIES }
        ensures law { Sends event self.old bytes.now (map (λ h. h.now) handles.now) result self.new }
        ensures fills { Fills (length bytes.now) (length handles.now) result self.new }
    {
        let free = self.output.slots();
        if free <= handles.len() {
            return Err(IoCause::Raw(EAGAIN));
        }
        push_handles(&mut self.output, handles);
        let count = bytes.len().min(free - handles.len());
        push_bytes(&mut self.output, &bytes[..count]);
        Ok(count)
    }

    /// Hands out what has come, up to the next byte with descriptors; `None` where nothing has, and 0 where nothing will.
    pub(crate) fn try_recv(
        &mut self,
        room: &mut [u8],
        handles: &mut Vec<PlainHandle>,
    ) -> Option<usize>
        requires room { 0 < length room.old }
        requires list { handles.old.items ≡ [] }
        requires places { MAX_ATTACHED_FD_ENTRIES ≤ vec_capacity handles.old }
        ensures law { TriesReceive self.old room.old result room.new handles.new.items self.new }
        ensures fills { FillsRoom (length room.old) result self.new }
        ensures places { vec_capacity handles.old ≤ vec_capacity handles.new }
    {
        let ended = self.input.is_abandoned();
        self.input.slots();
        keep_handles(&mut self.input, &mut self.kept);
        if self.input.cached_slots() == 0 {
            if ended {
                return Some(0);
            }
            return None;
        }
        handles.append(&mut self.kept).unwrap();
        Some(take_bytes(&mut self.input, room))
    }

    /// Sends no more; what it sent, unless the other end is gone.
    pub(crate) fn finish(self) -> Option<Token>
        ensures { IfSome result (λ t. (t.ring ≡ self.output) × (t.cells ≡ self.sent)) }
    {
        let Ends {
            output,
            input: _,
            kept: _,
        } = self;
        Some(Token::new(output.finish()?))
    }

    /// How many pieces are left of what the other end sent, which sends no more.
    pub(crate) fn compare(&mut self, token: Token) -> usize
        requires { token.ring ≡ self.old.input }
        ensures { Compared token self.old result self.new }
    {
        let mut finished = token.into_finished();
        self.kept.len() + self.input.slots_after(&mut finished)
    }

    fn new(
        alloc: Global,
        output: Producer<Piece, Global, PieceOrder>,
        input: Consumer<Piece, Global, PieceOrder>,
    ) -> Result<Ends, AllocError>
        requires { (sent output ≡ []) × (received input ≡ []) }
        ensures { IfOk result (λ e. e ≡ ends_of output input []) }
    {
        Ok(Ends {
            output,
            input,
            kept: Vec::with_capacity(alloc, MAX_ATTACHED_FD_ENTRIES)?,
        })
    }
}
