//! Bytes on their way.

ghost use Rattle.std.specs.Prelude.{◌≡◌, [], ◌++◌, ◌+◌, ◌<◌, ◌≤◌, ◌==◌, length, take, drop, min, OnOk, OnErr, vec_len, vec_capacity};
ghost use Rattle.vhost_message.specs.declared.limits.TheConstants.{MAX_ATTACHED_FD_ENTRIES};
ghost use Rattle.vhost_protocol.specs.Stream.{carrying, bytes, first_handles};
ghost use Rattle.vhost_link.specs.Mem.{piece};

use crate::mark::{Mark, end_of_piece, find_handles, move_marks, put_mark, shift_marks, take_mark};
use crate::plain::PlainHandle;
use std::alloc::{AllocError, Global};
use std::collections::VecDeque;
use std::marker::Model;

/// Bytes on their way, and the descriptors that some of them bring. A contract sees a stream's bytes, each with its descriptors.
#[derive(Drop)]
pub struct Flow {
    /// All bytes since the buffer was last empty.
    bytes: Vec<u8>,
    /// How many of them have gone.
    from: usize,
    /// Which of the others bring descriptors.
    marks: VecDeque<Mark>,
}

impl Model for Flow {
    ghost use Rattle.std.specs.Prelude.{◌≤◌, List, length, drop};
    ghost use Rattle.vhost_protocol.specs.Stream.{Cell};
    ghost use Rattle.vhost_link.specs.declared.plain.PlainHandle.{PlainHandle};
    ghost use Rattle.vhost_link.specs.Marks.{marked, Within};

    ghost Value = { List (Cell PlainHandle) };

    ghost view = { λ flow. marked flow.from (drop flow.from flow.bytes.items) flow.marks.items };

    ghost invariant = { λ flow. (flow.from ≤ length flow.bytes.items) × Within flow.from (length flow.bytes.items) flow.marks.items };
}

impl Flow {
    /// No bytes.
    pub(crate) fn new(alloc: Global) -> Flow
        ensures { result ≡ [] }
    {
        Flow {
            bytes: Vec::new(alloc),
            from: 0,
            marks: VecDeque::new(alloc),
        }
    }

    /// How many bytes there are.
    pub fn len(&self) -> usize
        ensures { result ≡ length self.now }
    {
        self.bytes.len() - self.from
    }

    /// Whether there is no byte.
    pub fn is_empty(&self) -> bool
        ensures { result ≡ (length self.now == 0) }
    {
        self.from == self.bytes.len()
    }

    /// The bytes.
    pub fn bytes(&self) -> &[u8]
        ensures bytes { result.now ≡ bytes self.now }
        ensures len { length result.now ≡ length self.now }
    {
        &self.bytes[self.from..]
    }

    /// The descriptors that the byte at an index brings, `MAX_ATTACHED_FD_ENTRIES` at most; where there is no such byte, none.
    pub fn handles(&self, index: usize) -> &[PlainHandle]
        ensures handles { result.now ≡ first_handles (drop index self.now) }
        ensures few { length result.now ≤ MAX_ATTACHED_FD_ENTRIES }
    {
        if index >= self.len() {
            return &[];
        }
        find_handles(&self.marks, self.from + index)
    }

    /// Forgets all bytes, and keeps the buffer.
    pub(crate) fn clear(&mut self)
        ensures { self.new ≡ [] }
    {
        self.bytes.clear();
        self.marks.clear();
        self.from = 0;
    }

    /// Begins again at the start of the buffer, where at least half of it has gone.
    fn restart(&mut self)
        ensures { self.new ≡ self.old }
    {
        let left = self.bytes.len() - self.from;
        if self.from < left {
            return;
        }
        shift_marks(&mut self.marks, self.from);
        self.bytes.rotate_left(self.from);
        self.bytes.truncate(left);
        self.from = 0;
    }

    /// Puts bytes at the end, with the descriptors on the first of them; where an allocation fails, nothing.
    pub(crate) fn put(&mut self, bytes: &[u8], handles: Vec<PlainHandle>) -> Result<(), AllocError>
        requires { vec_len handles ≤ MAX_ATTACHED_FD_ENTRIES }
        ensures put { OnOk result (self.new ≡ self.old ++ carrying handles.items bytes.now) }
        ensures refused { OnErr result (self.new ≡ self.old) }
    {
        if bytes.is_empty() {
            return Ok(());
        }
        self.restart();
        self.bytes.reserve(bytes.len())?;
        put_mark(&mut self.marks, self.bytes.len(), handles)?;
        put_bytes(&mut self.bytes, bytes);
        Ok(())
    }

    /// Moves all bytes of another behind its own; where an allocation fails, none.
    pub(crate) fn append(&mut self, other: &mut Flow) -> Result<(), AllocError>
        ensures appended { OnOk result ((self.new ≡ self.old ++ other.old) × (other.new ≡ [])) }
        ensures refused { OnErr result ((self.new ≡ self.old) × (other.new ≡ other.old)) }
    {
        self.bytes.reserve(other.len())?;
        self.marks.reserve(other.marks.len())?;
        let to = self.bytes.len();
        move_marks(&mut other.marks, other.from, &mut self.marks, to);
        put_bytes(&mut self.bytes, &other.bytes[other.from..]);
        other.bytes.clear();
        other.from = 0;
        Ok(())
    }

    /// Hands out the bytes of one receive into the room, and the descriptors of the first of them into the list.
    pub(crate) fn get(&mut self, room: &mut [u8], handles: &mut Vec<PlainHandle>) -> usize
        requires room { 0 < length room.old }
        requires list { handles.old.items ≡ [] }
        requires places { MAX_ATTACHED_FD_ENTRIES ≤ vec_capacity handles.old }
        ensures count { result ≡ min (length room.old) (length (piece self.old)) }
        ensures rest { drop result room.new ≡ drop result room.old }
        ensures got { self.old ≡ carrying handles.new.items (take result room.new) ++ self.new }
        ensures few { length handles.new.items ≤ MAX_ATTACHED_FD_ENTRIES }
        ensures none { result ≡ 0 → handles.new.items ≡ [] }
        ensures places { vec_capacity handles.old ≤ vec_capacity handles.new }
    {
        take_mark(&mut self.marks, self.from, handles);
        let end = end_of_piece(&self.marks, self.bytes.len());
        let count = room.len().min(end - self.from);
        room[..count].copy_from_slice(&self.bytes[self.from..self.from + count]);
        self.from += count;
        count
    }
}

/// Puts bytes behind others, in a buffer that has room for them.
fn put_bytes(all: &mut Vec<u8>, bytes: &[u8])
    requires { vec_len all.old + length bytes.now ≤ vec_capacity all.old }
    ensures { all.new.items ≡ all.old.items ++ bytes.now }
{
    all.extend_from_slice(bytes).unwrap();
}
