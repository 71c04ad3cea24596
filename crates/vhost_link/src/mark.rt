//! Marks: which bytes on their way bring descriptors.

ghost use Rattle.std.specs.Prelude.{◌≡◌, [], ◌∷◌, ◌++◌, ◌+◌, ◌-◌, ◌^◌, ◌<◌, ◌≤◌, length, map, OnOk, OnErr, vec_len, vec_capacity};
ghost use Rattle.std.specs.VecDeque.{deque_len, deque_capacity};
ghost use Rattle.vhost_message.specs.declared.limits.TheConstants.{MAX_ATTACHED_FD_ENTRIES};
ghost use Rattle.vhost_link.specs.Marks.{brought, later, first_place, found, mark_of, moved, Within};

use crate::plain::PlainHandle;
use std::alloc::AllocError;
use std::collections::VecDeque;

/// The descriptors that one byte brings.
#[derive(Drop)]
pub(crate) struct Mark {
    /// The place of the byte.
    pub(crate) at: usize,
    /// Its descriptors: at least one.
    pub(crate) handles: Vec<PlainHandle>,
}

/// Removes the mark of a place, if it is the first one: its descriptors go into the list.
pub(crate) fn take_mark(marks: &mut VecDeque<Mark>, at: usize, handles: &mut Vec<PlainHandle>)
    requires few { length (brought at marks.old.items) ≤ MAX_ATTACHED_FD_ENTRIES }
    requires list { handles.old.items ≡ [] }
    requires places { MAX_ATTACHED_FD_ENTRIES ≤ vec_capacity handles.old }
    ensures handles { handles.new.items ≡ brought at marks.old.items }
    ensures marks { marks.new.items ≡ later at marks.old.items }
    ensures places { vec_capacity handles.old ≤ vec_capacity handles.new }
{
    match marks.front() {
        Some(mark) if mark.at == at => {}
        _ => return,
    }
    if let Some(mut mark) = marks.pop_front() {
        handles.append(&mut mark.handles).unwrap();
    }
}

/// Where the first byte with descriptors stands, or else the end.
pub(crate) fn end_of_piece(marks: &VecDeque<Mark>, end: usize) -> usize
    ensures { result ≡ first_place marks.now.items end }
{
    match marks.front() {
        Some(mark) => mark.at,
        None => end,
    }
}

/// The descriptors of a place.
pub(crate) fn find_handles(marks: &VecDeque<Mark>, at: usize) -> &[PlainHandle]
    ensures { result.now ≡ found at marks.now.items }
{
    for i in 0..marks.len() {
        if marks[i].at == at {
            return marks[i].handles.as_slice();
        }
    }
    &[]
}

/// Puts a mark for some descriptors at the end, if there are any; where an allocation fails, none.
pub(crate) fn put_mark(
    marks: &mut VecDeque<Mark>,
    at: usize,
    handles: Vec<PlainHandle>,
) -> Result<(), AllocError>
    ensures put { OnOk result (marks.new.items ≡ marks.old.items ++ mark_of at handles) }
    ensures refused { OnErr result (marks.new.items ≡ marks.old.items) }
{
    if handles.is_empty() {
        return Ok(());
    }
    marks.reserve(1)?;
    marks.push_back_reserved(Mark { at, handles });
    Ok(())
}

/// Lets the places of marks, which counted from 0, count from another place.
pub(crate) fn shift_marks(marks: &mut VecDeque<Mark>, from: usize)
    requires { Within from (2 ^ 63) marks.old.items }
    ensures { marks.new.items ≡ map (moved from 0) marks.old.items }
{
    for i in 0..marks.len() {
        marks[i].at -= from;
    }
}

/// Moves marks behind others. Their places count from `from` before, and from `to` then.
pub(crate) fn move_marks(
    marks: &mut VecDeque<Mark>,
    from: usize,
    out: &mut VecDeque<Mark>,
    to: usize,
)
    requires room { deque_len out.old + deque_len marks.old ≤ deque_capacity out.old }
    requires places { Within from (from + (2 ^ 63 - to)) marks.old.items }
    requires to { to ≤ 2 ^ 63 }
    ensures moved { out.new.items ≡ out.old.items ++ map (moved from to) marks.old.items }
    ensures none { marks.new.items ≡ [] }
{
    while let Some(mark) = marks.pop_front() {
        let Mark { at, handles } = mark;
        out.push_back_reserved(Mark {
            at: at - from + to,
            handles,
        });
    }
}
