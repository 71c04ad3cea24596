//! A frontend's session and a backend's, joined: worked consequences of their contracts alone.

ghost use Rattle.std.specs.Prelude.{◌≡◌, ℕ, Bool, true, false};
ghost use Rattle.vhost_protocol.specs.FrontendCall.{SetHdrFlags};
ghost use Rattle.vhost_frontend_core.specs.Values.{call_of};
ghost use Rattle.vhost_frontend_core.specs.ValueHalves.{IsSent};
ghost use Rattle.vhost_c_backend.specs.Serving.{Request};
ghost use Rattle.vhost_c_joined.specs.Device.{IsSized, IsDue, IsOpen, Serves, halted, is_want};
ghost use Rattle.vhost_c_joined.specs.Joined.{AreAllowed, AreInStep, HasFds, IsPlain, Offers, Joins, JoinsAll, OpensAndJoins, steps_of};
ghost use Rattle.vhost_c_backend.specs.Served.{remembers};

use crate::wire::{Halt, carry_reply, carry_request};
use std::alloc::Global;
use std::collections::VecDeque;
use vhost_c_backend::{Reply, Served};
use vhost_c_common::Refusal;
use vhost_c_frontend::Session;
use vhost_connection::talks_law;
use vhost_frontend_core::FrontendCall;
use vhost_message::Error;

type Outcome<T> = std::result::Result<T, Refusal>;

/// A call of a frontend: its request goes to the backend, whose device answers by this reply, and the answer comes back. Both go
/// with their descriptors, in pieces of at most these lengths. What it was answered is kept by the frontend's session where it is
/// no error.
///
/// Each end is a `Halt`.
pub fn joined_call(
    front: &mut Session,
    back: &mut Served,
    call: FrontendCall,
    reply: Reply<'_>,
    cuts: &[usize],
) -> Result<Outcome<()>, Halt>
    ensures { (bit : Bool) → AreInStep bit front.old back.old → IsPlain (call_of call) → HasFds (call_of call) → IsSized reply.entry → Offers bit (call_of call) reply.entry
        → Joins bit (call_of call) reply.entry front.old back.old result front.new back.new }
{
    if is_sent(&call) {
        return joined_sent(front, back, call, reply, cuts);
    }
    match front.ask(call) {
        Ok(()) => Ok(Ok(())),
        Err(refusal) => of_refusal(refusal),
    }
}

/// Whether a message goes out for a call.
fn is_sent(call: &FrontendCall) -> bool
    ensures sent { result ≡ true → IsSent (call_of call.now) }
    ensures flags { result ≡ false → (flags : ℕ) × (call_of call.now ≡ SetHdrFlags flags) }
{
    match call {
        FrontendCall::SetHdrFlags(_) => false,
        _ => true,
    }
}

/// A call for which a message goes out.
///
/// Each end is a `Halt`.
fn joined_sent(
    front: &mut Session,
    back: &mut Served,
    call: FrontendCall,
    reply: Reply<'_>,
    cuts: &[usize],
) -> Result<Outcome<()>, Halt>
    ensures { (bit : Bool) → AreInStep bit front.old back.old → IsSent (call_of call) → HasFds (call_of call) → IsSized reply.entry → Offers bit (call_of call) reply.entry
        → Joins bit (call_of call) reply.entry front.old back.old result front.new back.new }
{
    match front.ask(call) {
        Ok(()) => {}
        Err(refusal) => return of_refusal(refusal),
    }
    match carry_request(front, back, cuts) {
        Ok(()) => {}
        Err(halt) => return Err(halt),
    }
    match serve(back, reply) {
        Ok(()) => {}
        Err(halt) => return Err(halt),
    }
    if back.ended() {
        return Err(Halt::Ended);
    }
    match carry_reply(back, front, cuts) {
        Ok(()) => {}
        Err(halt) => return Err(halt),
    }
    talks_law();
    match front.take() {
        Ok(()) => Ok(Ok(())),
        Err(refusal) => of_refusal(refusal),
    }
}

/// Calls one after another, as long as there are such and replies: the device answers each by the reply at its place.
///
/// Each end is a `Halt`, of the call that was not done.
pub fn joined_calls(
    front: &mut Session,
    back: &mut Served,
    calls: &mut VecDeque<FrontendCall>,
    replies: &[Reply<'_>],
    cuts: &[usize],
) -> Result<(), Halt>
    ensures { (bit : Bool) → AreInStep bit front.old back.old → AreAllowed bit (steps_of calls.old.items replies.now) → JoinsAll bit (steps_of calls.old.items replies.now) front.old back.old result front.new back.new }
{
    'calls: for i in 0..replies.len() {
        match calls.pop_front() {
            None => return Ok(()),
            Some(call) => match joined_call(front, back, call, replies[i], cuts) {
                Ok(_) => {}
                Err(halt) => return Err(halt),
            },
        }
    }
    Ok(())
}

/// Opens both sessions, with a backend of at most so many queues, and does calls.
///
/// Each end is a `Halt`.
pub fn joined_run(
    alloc: Global,
    max_queue_num: u64,
    calls: &mut VecDeque<FrontendCall>,
    replies: &[Reply<'_>],
    cuts: &[usize],
) -> Result<(Session, Served), Halt>
    ensures { (bit : Bool) → AreAllowed bit (steps_of calls.old.items replies.now) → OpensAndJoins bit max_queue_num (steps_of calls.old.items replies.now) result }
{
    let mut front = match Session::new(alloc, max_queue_num) {
        Ok(session) => session,
        Err(error) => return Err(Halt::WantsMemory(Refusal::Protocol(error))),
    };
    let mut back = match Served::new(alloc) {
        Ok(session) => session,
        Err(error) => return Err(Halt::WantsMemory(Refusal::Protocol(error))),
    };
    match joined_calls(&mut front, &mut back, calls, replies, cuts) {
        Ok(()) => Ok((front, back)),
        Err(halt) => Err(halt),
    }
}

/// Serves the request that came: the device answers by this reply, or refuses where that has another form.
fn serve(back: &mut Served, reply: Reply<'_>) -> Result<(), Halt>
    ensures { (m : Request) → IsDue m back.old → Serves m reply.entry (remembers back.old) result back.new }
{
    talks_law();
    match back.next() {
        Ok(_) => answer(back, reply),
        Err(refusal) => unless_want(refusal),
    }
}

/// Answers the call that is to be answered. Where the reply was no answer, the call is still open, and is refused; else there is
/// none.
pub(crate) fn answer(back: &mut Served, reply: Reply<'_>) -> Result<(), Halt>
    ensures { (m : Request) → IsOpen m back.old → Serves m reply.entry (remembers back.old) result back.new }
{
    match back.reply(reply) {
        Ok(()) => Ok(()),
        Err(refusal) => match unless_want(refusal) {
            Ok(()) => match back.reply(Reply::Refused) {
                Ok(()) => Ok(()),
                Err(refusal) => unless_want(refusal),
            },
            Err(halt) => Err(halt),
        },
    }
}

/// A refusal is what a call was answered, unless memory was refused.
fn of_refusal(refusal: Refusal) -> Result<Outcome<()>, Halt>
    ensures { result ≡ halted (λ why. Err why) refusal }
{
    if wants_memory(&refusal) {
        return Err(Halt::WantsMemory(refusal));
    }
    Ok(Err(refusal))
}

/// Goes on, unless memory was refused.
pub(crate) fn unless_want(refusal: Refusal) -> Result<(), Halt>
    ensures { result ≡ halted (λ why. tt) refusal }
{
    if wants_memory(&refusal) {
        return Err(Halt::WantsMemory(refusal));
    }
    Ok(())
}

/// Whether it says that memory was refused.
fn wants_memory(refusal: &Refusal) -> bool
    ensures { result ≡ is_want refusal.now }
{
    matches!(
        refusal,
        Refusal::Protocol(Error::OutOfMemory | Error::SocketRetry(_))
    )
}
