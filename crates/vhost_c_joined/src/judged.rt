//! A session that judges what goes between a frontend and a backend: it is given each request, is answered as the reply says, and
//! what it writes is compared with that.

ghost use Rattle.std.specs.Prelude.{◌≡◌, ◌≢◌, ◌≤◌, ◌+◌, [], true, false, length, take, drop};
ghost use Rattle.vhost_message.specs.declared.limits.TheConstants.{MAX_MEM_REGIONS};
ghost use Rattle.vhost_c_common.specs.Records.{inflight_in};
ghost use Rattle.vhost_c_backend.specs.Serving.{Request};
ghost use Rattle.vhost_c_joined.specs.Device.{IsDue};
ghost use Rattle.vhost_c_joined.specs.Judged.{Given, Holds, HoldsBases, HoldsInflight, Judges, JudgesAll, JudgesNew, JudgesOne, ServesAs, Writes, due_at, kind_in, told_area, told_bases, told_done, told_fd, told_number, told_state, told_word};

use crate::joined::{answer, unless_want};
use crate::wire::Halt;
use byteorder::{ByteOrder, LittleEndian};
use std::alloc::Global;
use vhost_c_backend::{Reply, Served};
use vhost_c_common::{Inflight, Refusal};
use vhost_connection::talks_law;
use vhost_message::{
    ByteValued, MAX_ATTACHED_FD_ENTRIES, MAX_MEM_REGIONS, MAX_MSG_TEXT, MEMORY_REGION_SIZE,
    MSG_HEADER_SIZE, VhostUserInflight, read_region,
};

/// The bytes of a request, and of its reply, each with the descriptors that came with its first byte. Both are empty where no
/// message goes out for a call, and the reply is where nobody waits for one.
#[derive(Clone, Copy)]
pub struct Exchange<'a> {
    pub request: &'a [u8],
    pub request_fds: &'a [i32],
    pub reply: &'a [u8],
    pub reply_fds: &'a [i32],
}

/// What a reply is made of, by the call of the device.
#[derive(Clone, Copy)]
pub(crate) enum Kind {
    /// A number that says whether the call succeeded, or nothing.
    Done,
    Number,
    /// The index of a ring, and a number.
    Ring,
    /// Where each region is mapped; without a region, as of `Done`.
    Bases,
    /// Bytes of the configuration space, or none where the call was refused.
    Config,
    /// What came with the request: the call succeeded.
    Same,
    /// A descriptor, or none where the call was refused.
    Fd,
    /// The same; without one, a number says whether the device uses the one that came.
    StateFd,
    /// The inflight region and its descriptor, or none where the call was refused.
    Inflight,
    /// Its value has another form: the call was refused.
    Refused,
}

/// Opens a session, and judges exchanges, one after another: whether each reply is what the session writes.
///
/// WantsMemory: an allocation failed. Silent: bytes are missing of a request.
pub fn judged_run(alloc: Global, exchanges: &[Exchange<'_>]) -> Result<(bool, Served), Halt>
    ensures { JudgesNew exchanges.now result }
{
    let mut judge = match Served::new(alloc) {
        Ok(session) => session,
        Err(error) => return Err(Halt::WantsMemory(Refusal::Protocol(error))),
    };
    match judged_all(&mut judge, exchanges) {
        Ok(right) => Ok((right, judge)),
        Err(halt) => Err(halt),
    }
}

/// Judges exchanges, one after another, as long as each reply is what the session writes: whether all are.
///
/// The ends are those of `judged_run`.
pub fn judged_all(judge: &mut Served, exchanges: &[Exchange<'_>]) -> Result<bool, Halt>
    ensures { JudgesAll exchanges.now judge.old result judge.new }
{
    'exchanges: for i in 0..exchanges.len() {
        match judged_one(judge, exchanges[i]) {
            Ok(true) => {}
            Ok(false) => return Ok(false),
            Err(halt) => return Err(halt),
        }
    }
    Ok(true)
}

/// Judges an exchange: whether its reply is what the session writes. Where no message went out for a call, none is written.
///
/// The ends are those of `judged_run`.
fn judged_one(judge: &mut Served, exchange: Exchange<'_>) -> Result<bool, Halt>
    ensures { JudgesOne exchange.entry judge.old result judge.new }
{
    if exchange.request.is_empty() {
        return Ok(exchange.reply.is_empty());
    }
    judged(judge, exchange)
}

/// Judges a request and its reply: whether the session writes this reply, where its device answers as the reply says.
///
/// The ends are those of `judged_run`.
pub fn judged(judge: &mut Served, exchange: Exchange<'_>) -> Result<bool, Halt>
    ensures { Judges exchange.entry judge.old result judge.new }
{
    match give(judge, exchange.request, exchange.request_fds) {
        Ok(()) => {}
        Err(halt) => return Err(halt),
    }
    match serve_as(judge, exchange.reply, exchange.reply_fds) {
        Ok(()) => Ok(writes(judge, exchange.reply, exchange.reply_fds)),
        Err(halt) => Err(halt),
    }
}

/// The session is given a request: its header with the descriptors, and then its body.
///
/// WantsMemory: an allocation failed. Silent: bytes of the header are missing.
fn give(judge: &mut Served, request: &[u8], fds: &[i32]) -> Result<(), Halt>
    ensures { Given request.now fds.now judge.old result judge.new }
{
    if request.len() < MSG_HEADER_SIZE {
        return Err(Halt::Silent);
    }
    match judge.receive(&request[..MSG_HEADER_SIZE], fds) {
        Ok(()) => {}
        Err(refusal) => return Err(Halt::WantsMemory(refusal)),
    }
    match judge.receive(&request[MSG_HEADER_SIZE..], &[]) {
        Ok(()) => Ok(()),
        Err(refusal) => Err(Halt::WantsMemory(refusal)),
    }
}

/// The session reads the request that came, and its device answers as the reply says.
///
/// WantsMemory: an allocation failed.
fn serve_as(judge: &mut Served, reply: &[u8], fds: &[i32]) -> Result<(), Halt>
    ensures { (m : Request) → IsDue m judge.old → ServesAs m reply.now fds.now judge.old result judge.new }
{
    talks_law();
    let mut places = [0; MAX_MEM_REGIONS];
    let count = bases_of(reply, &mut places);
    match judge.next() {
        Ok(number) => answer(judge, held(kind_of(number), reply, fds, &places[..count])),
        Err(refusal) => unless_want(refusal),
    }
}

/// What the reply to a call is made of, by the call's number.
fn kind_of(number: u32) -> Kind
    ensures { result ≡ kind_in number }
{
    match number {
        1 | 15 | 17 | 36 => Kind::Number,
        5 | 37 => Kind::Bases,
        6 => Kind::Same,
        11 => Kind::Ring,
        24 => Kind::Config,
        28 | 41 => Kind::Fd,
        31 => Kind::Inflight,
        42 => Kind::StateFd,
        44 => Kind::Refused,
        _ => Kind::Done,
    }
}

/// The device's answer that a reply holds, where its regions are mapped so.
fn held<'a>(kind: Kind, reply: &'a [u8], fds: &[i32], bases: &'a [u64]) -> Reply<'a>
    requires { bases.now ≡ told_bases reply.now }
    ensures { Holds kind reply.now fds.now result }
{
    match kind {
        Kind::Number => Reply::Number(number_of(reply)),
        Kind::Ring => Reply::Ring(word_of(reply, 12), word_of(reply, 16)),
        Kind::Config => {
            if reply.len() > 24 {
                Reply::Config(&reply[24..])
            } else {
                Reply::Refused
            }
        }
        Kind::Bases => mapped_at(reply, bases),
        Kind::Same => Reply::Done,
        Kind::Fd => fd_of(fds),
        Kind::StateFd => state_of(number_of(reply), fds),
        Kind::Inflight => inflight_of(reply, fds),
        Kind::Refused => Reply::Refused,
        Kind::Done => done_of(reply),
    }
}

/// The answer without a value: a number that is not 0 says that the call was refused.
fn done_of<'a>(reply: &[u8]) -> Reply<'a>
    ensures { result ≡ told_done reply.now }
{
    if number_of(reply) == 0 {
        Reply::Done
    } else {
        Reply::Refused
    }
}

/// The answer by where regions are mapped; without one, the answer without a value.
fn mapped_at<'a>(reply: &[u8], bases: &'a [u64]) -> Reply<'a>
    ensures { HoldsBases bases.now reply.now result }
{
    if bases.is_empty() {
        return done_of(reply);
    }
    Reply::Bases(bases)
}

/// Where the regions in the body of a reply are mapped, at the front of these places: how many.
fn bases_of(reply: &[u8], places: &mut [u64]) -> usize
    requires { length places.old ≡ MAX_MEM_REGIONS }
    ensures few { result ≤ MAX_MEM_REGIONS }
    ensures bases { take result places.new ≡ told_bases reply.now }
{
    if reply.len() < 20 {
        return 0;
    }
    let regions = &reply[20..];
    let count = (regions.len() / MEMORY_REGION_SIZE).min(MAX_MEM_REGIONS);
    'regions: for i in 0..count {
        places[i] = read_region(regions, i).user_addr;
    }
    count
}

/// The answer by a descriptor: none says that the call was refused.
fn fd_of<'a>(fds: &[i32]) -> Reply<'a>
    ensures { result ≡ told_fd fds.now }
{
    match fds.first() {
        Some(fd) => Reply::Fd(*fd),
        None => Reply::Refused,
    }
}

/// The answer by a descriptor for a state. Without one, the number says whether the device uses the one that came.
fn state_of<'a>(number: u64, fds: &[i32]) -> Reply<'a>
    ensures { result ≡ told_state number fds.now }
{
    match fds.first() {
        Some(fd) => Reply::Fd(*fd),
        None => {
            if number == 0x100 {
                Reply::Fd(-1)
            } else {
                Reply::Refused
            }
        }
    }
}

/// The answer by the inflight region and its descriptor: none says that the call was refused.
fn inflight_of<'a>(reply: &[u8], fds: &[i32]) -> Reply<'a>
    ensures { HoldsInflight reply.now fds.now result }
{
    match fds.first() {
        Some(fd) => Reply::Inflight(area_of(reply), *fd),
        None => Reply::Refused,
    }
}

/// The inflight region in the body of a reply, or one of zeros where the body has another size.
fn area_of(reply: &[u8]) -> Inflight
    ensures { inflight_in result ≡ told_area reply.now }
{
    if reply.len() == MSG_HEADER_SIZE + VhostUserInflight::SIZE {
        Inflight::of(&VhostUserInflight::decode(&reply[MSG_HEADER_SIZE..]))
    } else {
        Inflight::of(&VhostUserInflight::new(0, 0, 0, 0))
    }
}

/// The number in the body of a reply, or 0 where there is none.
fn number_of(reply: &[u8]) -> u64
    ensures { result ≡ told_number reply.now }
{
    if reply.len() < 20 {
        return 0;
    }
    LittleEndian::read_u64(&reply[12..])
}

/// Four bytes of a reply of this place on, or 0 where its body is too short.
fn word_of(reply: &[u8], at: usize) -> u32
    requires { at ≤ 16 }
    ensures { result ≡ told_word at reply.now }
{
    if reply.len() < 20 {
        return 0;
    }
    LittleEndian::read_u32(&reply[at..])
}

/// Whether exactly these bytes are to be sent, and these descriptors with the first of them. If so, nothing is then.
fn writes(judge: &mut Served, text: &[u8], fds: &[i32]) -> bool
    ensures { Writes text.now fds.now judge.old result judge.new }
{
    let mut bytes = [0; MAX_MSG_TEXT];
    let mut handed = [0; MAX_ATTACHED_FD_ENTRIES];
    let mut at: usize = 0;
    'pieces: loop {
        match judge.hand_out(&mut bytes, &mut handed) {
            Ok((count, fd_count)) => {
                if count == 0 {
                    return is_over(text, fds, at);
                }
                let count = count.min(bytes.len());
                let fd_count = fd_count.min(MAX_ATTACHED_FD_ENTRIES);
                if !are_due(fds, at, &handed[..fd_count]) {
                    return false;
                }
                if !is_at(text, at, &bytes[..count]) {
                    return false;
                }
                at += count;
            }
            Err(_) => return false,
        }
    }
}

/// Whether nothing of a message is left at this place.
fn is_over(text: &[u8], fds: &[i32], at: usize) -> bool
    ensures over { result ≡ true → (at ≡ length text.now) × ([] ≡ due_at at fds.now) }
    ensures more { result ≡ false → at ≡ length text.now → [] ≢ due_at at fds.now }
{
    if at != text.len() {
        return false;
    }
    are_due(fds, at, &[])
}

/// Whether these descriptors go with a piece at this place: all with the first byte, and none later.
fn are_due(fds: &[i32], at: usize, handed: &[i32]) -> bool
    ensures due { result ≡ true → handed.now ≡ due_at at fds.now }
    ensures other { result ≡ false → handed.now ≢ due_at at fds.now }
{
    if at == 0 {
        handed == fds
    } else {
        handed.is_empty()
    }
}

/// Whether a piece is there in a text, from a place on.
fn is_at(text: &[u8], at: usize, piece: &[u8]) -> bool
    requires { at ≤ length text.now }
    ensures there { result ≡ true → (at + length piece.now ≤ length text.now) × (piece.now ≡ take (length piece.now) (drop at text.now)) }
    ensures not_there { result ≡ false → at + length piece.now ≤ length text.now → piece.now ≢ take (length piece.now) (drop at text.now) }
{
    if piece.len() > text.len() - at {
        return false;
    }
    &text[at..at + piece.len()] == piece
}
