//! A session with a display, joined to any display: worked consequences of its contracts alone.

ghost use Rattle.std.specs.Prelude.{◌≡◌, ◌<◌, ◌≤◌, ℕ, [], List, All, true, Some, IfOk, IfErr, length, map};
ghost use Rattle.vhost_message.specs.declared.error.Error.TheVariants.{OutOfMemory};
ghost use Rattle.vhost_message.specs.declared.limits.TheConstants.{MAX_ATTACHED_FD_ENTRIES};
ghost use Rattle.vhost_protocol.specs.Gpu.{GpuSent, TheDisplayInfo, TheEdid, gpu_row};
ghost use Rattle.vhost_link.specs.declared.plain.PlainHandle.{PlainHandle};
ghost use Rattle.vhost_gpu_backend_req.specs.Halves.{call_in};
ghost use Rattle.vhost_c_common.specs.Records.{fd_in};
ghost use Rattle.vhost_c_common.specs.declared.refusal.Refusal.TheVariants.{Protocol};
ghost use Rattle.vhost_c_channel.specs.Display.{queued};
ghost use Rattle.vhost_c_channel_joined.specs.JoinedDisplay.{AreDescriptors, AreDone, AreSendable, Comes, Does, DoesAll, HaltsRun, IsAllowed, IsComing, IsHeard, IsIdle, Sends, SendsPiece, Shows, Takes, halted, is_want};
ghost use Rattle.vhost_c_channel_joined.specs.declared.wire.Halt.TheVariants.{WantsMemory};

use crate::wire::Halt;
use std::alloc::Global;
use vhost_c_channel::Display;
use vhost_c_common::{Refusal, handles_of};
use vhost_gpu_backend_req::GpuCall;
use vhost_link::{MemLink, PlainHandle};
use vhost_message::{Error, MAX_ATTACHED_FD_ENTRIES, MAX_MSG_TEXT};

type Outcome<T> = std::result::Result<T, Refusal>;

/// A call of a device, and what its display writes back.
#[derive(Drop)]
pub struct Turn<'a> {
    pub call: GpuCall<PlainHandle>,
    /// The pixels, which the caller sends.
    pub pixels: &'a [u8],
    /// Any bytes. None are read where no reply is awaited.
    pub reply: &'a [u8],
}

/// What a call is answered that is no error: records by their wire bytes.
#[derive(Drop)]
pub enum DisplayAnswer {
    Nothing,
    Features(u64),
    DisplayInfo([u8; 408]),
    Edid([u8; 1056]),
}

/// Opens a session, and does calls, one after another.
///
/// Each end is a `Halt`.
pub fn display_run(
    alloc: Global,
    turns: &[Turn<'_>],
    cuts: &[usize],
) -> Result<(Display, MemLink, Vec<Outcome<DisplayAnswer>>), Halt>
    ensures done { All IsAllowed turns.now → IfOk result (λ r. AreDone turns.now [] r.0 r.1.pending r.2.items) }
    ensures halted { All IsAllowed turns.now → IfErr result (HaltsRun turns.now) }
{
    let mut session = match Display::new(alloc) {
        Ok(session) => session,
        Err(error) => return Err(Halt::WantsMemory(Refusal::Protocol(error))),
    };
    let mut display = MemLink::new(alloc, Vec::new(alloc));
    let mut answers = Vec::new(alloc);
    match display_calls(alloc, &mut session, &mut display, turns, cuts, &mut answers) {
        Ok(()) => Ok((session, display, answers)),
        Err(halt) => Err(halt),
    }
}

/// Calls one after another, whatever each is answered. Their messages go to the display's end of the connection, and their answers
/// behind those that are there.
///
/// Each end is a `Halt`, of the call that was not done.
pub fn display_calls(
    alloc: Global,
    session: &mut Display,
    display: &mut MemLink,
    turns: &[Turn<'_>],
    cuts: &[usize],
    answers: &mut Vec<Outcome<DisplayAnswer>>,
) -> Result<(), Halt>
    ensures { IsIdle session.old → All IsAllowed turns.now → DoesAll turns.now display.old.pending answers.old.items result session.new display.new.pending answers.new.items }
{
    'turns: for turn in turns {
        match display_call(alloc, session, display, turn, cuts) {
            Ok(outcome) => {
                if answers.push(outcome).is_err() {
                    return Err(no_memory());
                }
            }
            Err(halt) => return Err(halt),
        }
    }
    Ok(())
}

/// A call: its message goes to the display's end of the connection, and the reply comes back, both in pieces of at most these
/// lengths.
///
/// Each end is a `Halt`.
pub fn display_call(
    alloc: Global,
    session: &mut Display,
    display: &mut MemLink,
    turn: &Turn<'_>,
    cuts: &[usize],
) -> Result<Outcome<DisplayAnswer>, Halt>
    ensures { IsIdle session.old → IsAllowed turn.now → Does turn.now display.old.pending result session.new display.new.pending }
{
    match session.ask(&turn.call) {
        Ok(()) => {}
        Err(refusal) => return of_refusal(refusal),
    }
    match send(alloc, session, display, cuts) {
        Ok(()) => {}
        Err(halt) => return Err(halt),
    }
    if display.push(turn.pixels, &[]).is_err() {
        return Err(no_memory());
    }
    match receive(session, turn.reply, cuts) {
        Ok(()) => take(session, &turn.call),
        Err(halt) => Err(halt),
    }
}

/// All that is to be sent goes to the display's end of the connection, in such pieces.
///
/// WantsMemory: an allocation failed.
fn send(
    alloc: Global,
    session: &mut Display,
    display: &mut MemLink,
    cuts: &[usize],
) -> Result<(), Halt>
    ensures { AreSendable (queued session.old) → Sends display.old.pending session.old result display.new.pending session.new }
{
    let mut bytes = [0; MAX_MSG_TEXT];
    let mut at: usize = 0;
    'pieces: loop {
        let most = piece_at(cuts, at, bytes.len());
        match piece(alloc, session, display, &mut bytes[..most]) {
            Ok(true) => {}
            Ok(false) => return Ok(()),
            Err(halt) => return Err(halt),
        }
        at = at.saturating_add(1);
    }
}

/// A piece of it, of at most so many bytes as there are places. The answer is whether there was any.
fn piece(
    alloc: Global,
    session: &mut Display,
    display: &mut MemLink,
    bytes: &mut [u8],
) -> Result<bool, Halt>
    requires { 0 < length bytes.old }
    ensures shorter { IfOk result (λ more. more ≡ true → length (queued session.new) < length (queued session.old)) }
    ensures sent { AreSendable (queued session.old) → SendsPiece display.old.pending session.old result display.new.pending session.new }
{
    let mut fds = [0; MAX_ATTACHED_FD_ENTRIES];
    match session.hand_out(bytes, &mut fds) {
        Ok((count, fd_count)) => {
            if count == 0 {
                return Ok(false);
            }
            let count = count.min(bytes.len());
            let fd_count = fd_count.min(fds.len());
            match show(alloc, display, &bytes[..count], &fds[..fd_count]) {
                Ok(()) => Ok(true),
                Err(halt) => Err(halt),
            }
        }
        Err(refusal) => Err(Halt::WantsMemory(refusal)),
    }
}

/// Bytes come to the display's end of the connection, with descriptors on the first of them.
///
/// WantsMemory: an allocation failed.
fn show(alloc: Global, display: &mut MemLink, bytes: &[u8], fds: &[i32]) -> Result<(), Halt>
    requires { length fds.now ≤ MAX_ATTACHED_FD_ENTRIES }
    ensures { (handles : List PlainHandle) → fds.now ≡ map fd_in handles → AreDescriptors handles → Shows handles bytes.now display.old.pending result display.new.pending }
{
    let handles = match handles_of(alloc, fds) {
        Ok(handles) => handles,
        Err(error) => return Err(Halt::WantsMemory(Refusal::Protocol(error))),
    };
    if display.push(bytes, &handles).is_err() {
        return Err(no_memory());
    }
    Ok(())
}

/// A reply comes from the display, in such pieces, as far as bytes of it are known to be missing.
///
/// WantsMemory: an allocation failed. Silent: the display has written all, and bytes are missing.
fn receive(session: &mut Display, reply: &[u8], cuts: &[usize]) -> Result<(), Halt>
    ensures { IsComing reply.now 0 session.old session.old → Comes reply.now session.old result session.new }
{
    let mut at: usize = 0;
    let mut turn: usize = 0;
    'pieces: loop {
        let missing = session.missing();
        if missing == 0 {
            return Ok(());
        }
        if at >= reply.len() {
            return Err(Halt::Silent);
        }
        let most = piece_at(cuts, turn, missing.min(reply.len() - at));
        match session.receive(&reply[at..at + most], &[]) {
            Ok(()) => {}
            Err(refusal) => return Err(Halt::WantsMemory(refusal)),
        }
        at += most;
        turn = turn.saturating_add(1);
    }
}

/// Takes the reply of a call that was asked.
///
/// WantsMemory: an allocation failed.
fn take(session: &mut Display, call: &GpuCall<PlainHandle>) -> Result<Outcome<DisplayAnswer>, Halt>
    ensures { (pixels reply : List ℕ) → IsHeard (gpu_row (call_in call.now pixels)) reply session.old → Takes (gpu_row (call_in call.now pixels)) reply result session.new }
{
    match call {
        GpuCall::GetProtocolFeatures => match session.take_number() {
            Ok(features) => Ok(Ok(DisplayAnswer::Features(features))),
            Err(refusal) => of_refusal(refusal),
        },
        GpuCall::GetDisplayInfo => take_display_info(session),
        GpuCall::GetEdid(_) => take_edid(session),
        _ => match session.take() {
            Ok(()) => Ok(Ok(DisplayAnswer::Nothing)),
            Err(refusal) => of_refusal(refusal),
        },
    }
}

/// Takes that of `get_display_info`.
///
/// WantsMemory: an allocation failed.
fn take_display_info(session: &mut Display) -> Result<Outcome<DisplayAnswer>, Halt>
    ensures { (sent : GpuSent PlainHandle) (reply : List ℕ) → sent.awaited ≡ Some TheDisplayInfo → IsHeard sent reply session.old → Takes sent reply result session.new }
{
    let mut place = [0; 408];
    match session.take_display_info(&mut place) {
        Ok(()) => Ok(Ok(DisplayAnswer::DisplayInfo(place))),
        Err(refusal) => of_refusal(refusal),
    }
}

/// Takes that of `get_edid`.
///
/// WantsMemory: an allocation failed.
fn take_edid(session: &mut Display) -> Result<Outcome<DisplayAnswer>, Halt>
    ensures { (sent : GpuSent PlainHandle) (reply : List ℕ) → sent.awaited ≡ Some TheEdid → IsHeard sent reply session.old → Takes sent reply result session.new }
{
    let mut place = [0; 1056];
    match session.take_edid(&mut place) {
        Ok(()) => Ok(Ok(DisplayAnswer::Edid(place))),
        Err(refusal) => of_refusal(refusal),
    }
}

/// A refusal is what a call was answered, unless memory was refused.
fn of_refusal(refusal: Refusal) -> Result<Outcome<DisplayAnswer>, Halt>
    ensures { result ≡ halted refusal }
{
    if wants_memory(&refusal) {
        return Err(Halt::WantsMemory(refusal));
    }
    Ok(Err(refusal))
}

/// Whether it says that memory was refused.
fn wants_memory(refusal: &Refusal) -> bool
    ensures { result ≡ is_want refusal.now }
{
    matches!(
        refusal,
        Refusal::Protocol(Error::OutOfMemory | Error::SocketRetry(_))
    )
}

/// Memory was refused.
fn no_memory() -> Halt
    ensures { result ≡ WantsMemory (Protocol OutOfMemory) }
{
    Halt::WantsMemory(Refusal::Protocol(Error::OutOfMemory))
}

/// How long a piece is: as the cut at its place says, one byte at least, and no more than there are.
fn piece_at(cuts: &[usize], at: usize, most: usize) -> usize
    requires { 0 < most }
    ensures some { 0 < result }
    ensures few { result ≤ most }
{
    if at < cuts.len() {
        cuts[at].max(1).min(most)
    } else {
        most
    }
}
