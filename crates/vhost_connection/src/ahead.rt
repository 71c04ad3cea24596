//! Receiving ahead: a link is asked for more than a message needs, and only where nothing waits.

ghost use Rattle.std.specs.Prelude.{◌≡◌, ◌==◌, ◌<◌, ◌≤◌, ◌++◌, [], true, false, length, take, drop, min, vec_capacity, IfOk};
ghost use Rattle.vhost_message.specs.declared.limits.TheConstants.{MAX_ATTACHED_FD_ENTRIES};
ghost use Rattle.vhost_link.specs.Law.{Receives};
ghost use Rattle.vhost_connection.specs.Ahead.{waiting, way, Asks, reads_ahead};

use crate::buffer::{ReadAhead, Source};
use std::alloc::{AllocError, Global};
use vhost_link::Link;
use vhost_message::IoCause;

/// How many bytes a link is asked for at once.
const READ_AHEAD: usize = 8192;

impl ReadAhead {
    /// With nothing in it.
    pub fn new(alloc: Global) -> Result<ReadAhead, AllocError>
        ensures { IfOk result (λ a. waiting a ≡ []) }
    {
        Ok(ReadAhead {
            buffer: vec![in alloc; 0; READ_AHEAD]?,
            start: 0,
            end: 0,
        })
    }

    /// Whether nothing waits.
    fn is_empty(&self) -> bool
        ensures { result ≡ (length (waiting self.now) == 0) }
    {
        self.start == self.end
    }

    /// Forgets what waits.
    pub(crate) fn clear(&mut self)
        ensures { waiting self.new ≡ [] }
    {
        self.start = self.end;
    }

    /// What waits.
    pub(crate) fn front(&self) -> &[u8]
        ensures { result.now ≡ waiting self.now }
    {
        &self.buffer[self.start..self.end]
    }

    /// Forgets so many bytes of what waits.
    pub(crate) fn skip(&mut self, count: usize)
        requires { count ≤ length (waiting self.old) }
        ensures { waiting self.new ≡ drop count (waiting self.old) }
    {
        self.start += count;
    }

    /// Puts bytes behind what waits, where there is room for them: whether there was.
    pub(crate) fn add(&mut self, bytes: &[u8]) -> bool
        ensures added { result ≡ true → waiting self.new ≡ waiting self.old ++ bytes.now }
        ensures full { result ≡ false → waiting self.new ≡ waiting self.old }
    {
        if self.is_empty() {
            self.start = 0;
            self.end = 0;
        }
        self.put(bytes)
    }

    /// The same behind the last byte of the buffer that waits.
    fn put(&mut self, bytes: &[u8]) -> bool
        ensures added { result ≡ true → waiting self.new ≡ waiting self.old ++ bytes.now }
        ensures full { result ≡ false → waiting self.new ≡ waiting self.old }
    {
        if bytes.len() > self.buffer.len() - self.end {
            return false;
        }
        let end = self.end + bytes.len();
        self.buffer[self.end..end].copy_from_slice(bytes);
        self.end = end;
        true
    }

    /// Hands on what waits, as much as fits into the room.
    pub(crate) fn take_out(&mut self, room: &mut [u8]) -> usize
        ensures count { result ≡ min (length (waiting self.old)) (length room.old) }
        ensures room { room.new ≡ take result (waiting self.old) ++ drop result room.old }
        ensures left { waiting self.new ≡ drop result (waiting self.old) }
    {
        let waiting = self.end - self.start;
        let count = if waiting < room.len() {
            waiting
        } else {
            room.len()
        };
        room[..count].copy_from_slice(&self.buffer[self.start..self.start + count]);
        self.start += count;
        count
    }
}

/// Receives from the link, with room for as much as can wait. All that it brings waits.
fn ask<L: Link>(
    link: &mut L,
    ahead: &mut ReadAhead,
    list: &mut Vec<L::Handle>,
) -> Result<(), IoCause>
    requires none { waiting ahead.old ≡ [] }
    requires list { list.old.items ≡ [] }
    requires places { MAX_ATTACHED_FD_ENTRIES ≤ vec_capacity list.old }
    ensures asked { Asks L.event link.old result (waiting ahead.new) list.new.items link.new }
    ensures places { vec_capacity list.old ≤ vec_capacity list.new }
{
    let count = link.recv(&mut ahead.buffer[..], list)?;
    ahead.start = 0;
    ahead.end = count;
    Ok(())
}

/// Receives what fits into the room: of what waits, or where nothing waits, of what one receive of the link brings.
pub fn recv_some<L: Link>(
    source: &mut Source<L>,
    room: &mut [u8],
    list: &mut Vec<L::Handle>,
) -> Result<usize, IoCause>
    requires room { 0 < length room.old }
    requires list { list.old.items ≡ [] }
    requires places { MAX_ATTACHED_FD_ENTRIES ≤ vec_capacity list.old }
    ensures got { Receives (reads_ahead L.event) (way source.old) room.old result room.new list.new.items (way source.new) }
    ensures places { vec_capacity list.old ≤ vec_capacity list.new }
{
    if source.ahead.is_empty() {
        ask(&mut source.link, &mut source.ahead, list)?;
    }
    Ok(source.ahead.take_out(room))
}
