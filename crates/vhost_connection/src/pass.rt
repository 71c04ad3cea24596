//! One pass over a link, with a retry limit.

ghost use Rattle.std.specs.Prelude.{◌≡◌, ◌<◌, ◌≤◌, [], length, take, vec_capacity, map, if◌then◌else◌};
ghost use Rattle.vhost_message.specs.declared.limits.TheConstants.{MAX_ATTACHED_FD_ENTRIES};
ghost use Rattle.vhost_protocol.specs.Stream.{carrying};
ghost use Rattle.vhost_connection.specs.Ahead.{way, reads_ahead};
ghost use Rattle.vhost_link.specs.Law.{Receives, TakesAll};
ghost use Rattle.vhost_connection.specs.Pass.{SendsPart, SendsSome, SendsWhole, AtOnce, joined, GetsFirst, GetsRest, GetsWhole, GetsParts};

use crate::ahead::recv_some;
use crate::buffer::Source;
use vhost_link::Link;
use vhost_message::IoCause;

/// How bytes went out: whether any did, how many retries are left, and the I/O error that stopped them.
#[derive(Drop)]
pub struct SendPass {
    pub moved: bool,
    pub left: u32,
    pub fault: Option<IoCause>,
}

/// Sends some of the bytes from this count on, the descriptors with the first of all.
fn send_part<L: Link>(
    link: &mut L,
    bytes: &[u8],
    handles: &[&L::Handle],
    count: usize,
) -> Result<usize, IoCause>
    requires handles { length handles.now ≤ MAX_ATTACHED_FD_ENTRIES }
    requires count { count < length bytes.now }
    ensures part { SendsPart L.event link.old (carrying (map (λ h. h.now) handles.now) bytes.now) count result link.new }
    ensures whole { count ≡ 0 → L.takes_all link.old → TakesAll L.takes_all (length bytes.now) result link.new }
{
    if count == 0 {
        link.send(bytes, handles)
    } else {
        link.send(&bytes[count..], &[])
    }
}

/// Sends some of the bytes, at least one where there are any, by one call of the link.
pub fn send_once<L: Link>(
    link: &mut L,
    bytes: &[u8],
    handles: &[&L::Handle],
) -> Result<usize, IoCause>
    requires { length handles.now ≤ MAX_ATTACHED_FD_ENTRIES }
    ensures { SendsSome L.event link.old bytes.now (map (λ h. h.now) handles.now) result link.new }
{
    if bytes.is_empty() {
        return Ok(0);
    }
    link.send(bytes, handles)
}

/// Sends all of the bytes, with the descriptors on the first of them.
pub fn send_whole<L: Link>(
    link: &mut L,
    bytes: &[u8],
    handles: &[&L::Handle],
    budget: u32,
) -> SendPass
    requires { length handles.now ≤ MAX_ATTACHED_FD_ENTRIES }
    ensures sent { SendsWhole L.event link.old (carrying (map (λ h. h.now) handles.now) bytes.now) budget result link.new }
    ensures once { L.takes_all link.old → 0 < length bytes.now → AtOnce L.event link.old (carrying (map (λ h. h.now) handles.now) bytes.now) result.fault link.new }
{
    let mut count = 0;
    let mut left = budget;
    while count < bytes.len() {
        match send_part(link, bytes, handles, count) {
            Ok(n) => count += n,
            Err(cause) => {
                if !cause.is_retry() || left == 0 {
                    return SendPass {
                        moved: count > 0,
                        left,
                        fault: Some(cause),
                    };
                }
                left -= 1;
            }
        }
    }
    SendPass {
        moved: count > 0,
        left,
        fault: None,
    }
}

/// Sends the next piece of a message, with the descriptors on its first byte unless something went out before.
fn send_piece<L: Link>(
    link: &mut L,
    piece: &[u8],
    handles: &[&L::Handle],
    moved: bool,
    budget: u32,
) -> SendPass
    requires { length handles.now ≤ MAX_ATTACHED_FD_ENTRIES }
    ensures { SendsWhole L.event link.old (carrying (if moved then [] else map (λ h. h.now) handles.now) piece.now) budget result link.new }
{
    if moved {
        send_whole(link, piece, &[], budget)
    } else {
        send_whole(link, piece, handles, budget)
    }
}

/// Sends all of the pieces, one after another, with the descriptors on the first byte of all.
pub fn send_pieces<L: Link>(
    link: &mut L,
    pieces: &[&[u8]],
    handles: &[&L::Handle],
    budget: u32,
) -> SendPass
    requires { length handles.now ≤ MAX_ATTACHED_FD_ENTRIES }
    ensures { SendsWhole L.event link.old (carrying (map (λ h. h.now) handles.now) (joined pieces.now)) budget result link.new }
{
    let mut moved = false;
    let mut left = budget;
    for piece in pieces {
        let sent = send_piece(link, piece, handles, moved, left);
        moved |= sent.moved;
        left = sent.left;
        if let Some(cause) = sent.fault {
            return SendPass {
                moved,
                left,
                fault: Some(cause),
            };
        }
    }
    SendPass {
        moved,
        left,
        fault: None,
    }
}

/// Why a receiver stopped.
#[derive(Drop)]
pub enum PassEnd {
    /// The room is full.
    Whole,
    /// The stream has ended.
    AtEnd,
    /// The link failed, or retried once too often.
    Fault(IoCause),
}

/// What came: how many bytes, whether one of them brought descriptors, how many retries are left, and why it stopped.
#[derive(Drop)]
pub struct RecvPass {
    pub count: usize,
    pub surplus: bool,
    pub left: u32,
    pub stop: PassEnd,
}

/// What came first: how many bytes, how many retries are left, and the I/O error, if any. No bytes and no I/O error is the
/// stream's end.
#[derive(Drop)]
pub struct First {
    pub count: usize,
    pub left: u32,
    pub fault: Option<IoCause>,
}

/// Receives the first bytes, and their descriptors.
fn recv_first<L: Link>(
    source: &mut Source<L>,
    room: &mut [u8],
    list: &mut Vec<L::Handle>,
    budget: u32,
) -> First
    requires room { 0 < length room.old }
    requires list { list.old.items ≡ [] }
    requires places { MAX_ATTACHED_FD_ENTRIES ≤ vec_capacity list.old }
    ensures got { GetsFirst (reads_ahead L.event) (way source.old) room.old budget result room.new list.new.items (way source.new) }
    ensures places { vec_capacity list.old ≤ vec_capacity list.new }
{
    let mut left = budget;
    loop {
        match recv_some(source, room, list) {
            Ok(count) => {
                return First {
                    count,
                    left,
                    fault: None,
                };
            }
            Err(cause) => {
                if !cause.is_retry() || left == 0 {
                    return First {
                        count: 0,
                        left,
                        fault: Some(cause),
                    };
                }
                left -= 1;
            }
        }
    }
}

/// Receives until the room is full. The descriptors of what comes are dropped.
pub fn recv_rest<L: Link>(
    source: &mut Source<L>,
    room: &mut [u8],
    spare: &mut Vec<L::Handle>,
    budget: u32,
) -> RecvPass
    requires list { spare.old.items ≡ [] }
    requires places { MAX_ATTACHED_FD_ENTRIES ≤ vec_capacity spare.old }
    ensures got { GetsRest (reads_ahead L.event) (way source.old) room.old budget result room.new (way source.new) }
    ensures list { spare.new.items ≡ [] }
    ensures places { vec_capacity spare.old ≤ vec_capacity spare.new }
{
    let mut count = 0;
    let mut left = budget;
    let mut surplus = false;
    while count < room.len() {
        match recv_some(source, &mut room[count..], spare) {
            Ok(0) => {
                return RecvPass {
                    count,
                    surplus,
                    left,
                    stop: PassEnd::AtEnd,
                };
            }
            Ok(n) => {
                count += n;
                if !spare.is_empty() {
                    surplus = true;
                    spare.clear();
                }
            }
            Err(cause) => {
                if !cause.is_retry() || left == 0 {
                    return RecvPass {
                        count,
                        surplus,
                        left,
                        stop: PassEnd::Fault(cause),
                    };
                }
                left -= 1;
            }
        }
    }
    RecvPass {
        count,
        surplus,
        left,
        stop: PassEnd::Whole,
    }
}

/// Receives until the room is full, and keeps the descriptors of the first byte.
fn recv_whole<L: Link>(
    source: &mut Source<L>,
    room: &mut [u8],
    list: &mut Vec<L::Handle>,
    spare: &mut Vec<L::Handle>,
    budget: u32,
) -> RecvPass
    requires room { 0 < length room.old }
    requires list { list.old.items ≡ [] }
    requires places { MAX_ATTACHED_FD_ENTRIES ≤ vec_capacity list.old }
    requires spare { spare.old.items ≡ [] }
    requires spare_places { MAX_ATTACHED_FD_ENTRIES ≤ vec_capacity spare.old }
    ensures got { GetsWhole (reads_ahead L.event) (way source.old) room.old budget result room.new list.new.items (way source.new) }
    ensures places { vec_capacity list.old ≤ vec_capacity list.new }
    ensures spare { spare.new.items ≡ [] }
    ensures spare_places { vec_capacity spare.old ≤ vec_capacity spare.new }
{
    let first = recv_first(source, room, list, budget);
    if let Some(cause) = first.fault {
        return RecvPass {
            count: 0,
            surplus: false,
            left: first.left,
            stop: PassEnd::Fault(cause),
        };
    }
    if first.count == 0 {
        return RecvPass {
            count: 0,
            surplus: false,
            left: first.left,
            stop: PassEnd::AtEnd,
        };
    }
    let rest = recv_rest(source, &mut room[first.count..], spare, first.left);
    RecvPass {
        count: first.count + rest.count,
        surplus: rest.surplus,
        left: rest.left,
        stop: rest.stop,
    }
}

/// What came in two parts: how many bytes of each, how many retries are left, and why it stopped.
#[derive(Drop)]
pub struct Parts {
    pub count: usize,
    pub more: usize,
    pub left: u32,
    pub stop: PassEnd,
}

/// Receives so many bytes to the start of the buffer, and then into the room until it is full; keeps the descriptors of the
/// first byte.
pub fn recv_parts<L: Link>(
    source: &mut Source<L>,
    text: &mut [u8],
    len: usize,
    room: &mut [u8],
    list: &mut Vec<L::Handle>,
    spare: &mut Vec<L::Handle>,
    budget: u32,
) -> Parts
    requires some { 0 < len }
    requires len { len ≤ length text.old }
    requires list { list.old.items ≡ [] }
    requires places { MAX_ATTACHED_FD_ENTRIES ≤ vec_capacity list.old }
    requires spare { spare.old.items ≡ [] }
    requires spare_places { MAX_ATTACHED_FD_ENTRIES ≤ vec_capacity spare.old }
    ensures got { GetsParts (reads_ahead L.event) (way source.old) len room.old budget result text.new room.new list.new.items (way source.new) }
    ensures places { vec_capacity list.old ≤ vec_capacity list.new }
    ensures spare { spare.new.items ≡ [] }
    ensures spare_places { vec_capacity spare.old ≤ vec_capacity spare.new }
{
    let front = recv_whole(source, &mut text[..len], list, spare, budget);
    if front.count < len {
        return Parts {
            count: front.count,
            more: 0,
            left: front.left,
            stop: front.stop,
        };
    }
    let rest = recv_rest(source, room, spare, front.left);
    Parts {
        count: front.count,
        more: rest.count,
        left: rest.left,
        stop: rest.stop,
    }
}

/// Receives at most so many bytes to the start of the buffer by one call of the link, and their descriptors.
pub fn recv_once<L: Link>(
    source: &mut Source<L>,
    text: &mut [u8],
    len: usize,
    list: &mut Vec<L::Handle>,
) -> Result<usize, IoCause>
    requires some { 0 < len }
    requires len { len ≤ length text.old }
    requires list { list.old.items ≡ [] }
    requires places { MAX_ATTACHED_FD_ENTRIES ≤ vec_capacity list.old }
    ensures got { Receives (reads_ahead L.event) (way source.old) (take len text.old) result (take len text.new) list.new.items (way source.new) }
    ensures places { vec_capacity list.old ≤ vec_capacity list.new }
{
    recv_some(source, &mut text[..len], list)
}

/// Receives so many bytes to the start of the buffer, and drops all descriptors.
pub fn recv_bytes<L: Link>(
    source: &mut Source<L>,
    text: &mut [u8],
    len: usize,
    spare: &mut Vec<L::Handle>,
    budget: u32,
) -> RecvPass
    requires len { len ≤ length text.old }
    requires list { spare.old.items ≡ [] }
    requires places { MAX_ATTACHED_FD_ENTRIES ≤ vec_capacity spare.old }
    ensures got { GetsRest (reads_ahead L.event) (way source.old) (take len text.old) budget result (take len text.new) (way source.new) }
    ensures list { spare.new.items ≡ [] }
    ensures places { vec_capacity spare.old ≤ vec_capacity spare.new }
{
    recv_rest(source, &mut text[..len], spare, budget)
}
