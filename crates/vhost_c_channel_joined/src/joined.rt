//! Both sessions of the backend channel, joined: worked consequences of their contracts alone.

ghost use Rattle.std.specs.Prelude.{◌≡◌, ◌<◌, ◌^◌, ◌&&◌, ◌==◌, ℕ, Bool, false, true, Some, Result, IfSome, IfNone, IfOk};
ghost use Rattle.vhost_message.specs.declared.backend_req.BackendReq.{BackendReq};
ghost use Rattle.vhost_protocol.specs.IoError.{IoError, seen_io_result};
ghost use Rattle.vhost_protocol.specs.JoinedReverse.{Asks};
ghost use Rattle.vhost_protocol.specs.Reverse as reverse;
ghost use Rattle.vhost_protocol.specs.Served as protocol;
ghost use Rattle.vhost_protocol.specs.Written.{Written};
ghost use Rattle.vhost_link.specs.declared.plain.PlainHandle.{PlainHandle};
ghost use Rattle.vhost_backend_req.specs.Halves.{input_of};
ghost use Rattle.vhost_c_channel.specs.Asking.{flag_in};
ghost use Rattle.vhost_c_channel_joined.specs.Crossing.{Crossing, IsAsked, IsDue, Holds, IsNumber, Meets, Returning, is_call, is_want, reply_to};
ghost use Rattle.vhost_c_channel_joined.specs.Joined.{AreMade, AreInStep, IsMade, Joins, JoinsAll, JoinsBoth, entries};
ghost use Rattle.vhost_c_channel.specs.Serving.{Request, remembers};

use crate::wire::{Halt, carry_reply, carry_request};
use std::alloc::Global;
use std::collections::VecDeque;
use vhost_backend_req::ReverseCall;
use vhost_c_channel::{Channel, ChannelServer, Feature};
use vhost_c_common::Refusal;
use vhost_connection::talks_law;
use vhost_link::PlainHandle;
use vhost_message::{Error, HandlerResult};

type Outcome<T> = std::result::Result<T, Refusal>;

/// A call or a flag, and what the frontend's side answers where it is called.
type Entry = (ReverseCall<PlainHandle>, HandlerResult<u64>);

/// A call that was done: what the device was answered, and whether the run stops there, since the frontend's side met an error in
/// silence.
#[derive(Drop)]
pub struct DoneCall {
    pub outcome: Outcome<()>,
    pub last: bool,
}

impl DoneCall {
    ghost use Rattle.std.specs.Prelude.{◌≡◌, Ok, false};

    /// A flag was set.
    fn of_flag() -> DoneCall
        ensures { result ≡ record { outcome = Ok tt; last = false } }
    {
        DoneCall {
            outcome: Ok(()),
            last: false,
        }
    }
}

/// A call of a device, or a flag: its request goes to the frontend, whose side answers so, and the reply comes back. Both go in
/// pieces of at most these lengths, descriptors with them. A flag is set at once.
///
/// Each end is a `Halt`.
pub fn joined_channel_call(
    asker: &mut Channel,
    server: &mut ChannelServer,
    call: &ReverseCall<PlainHandle>,
    answer: HandlerResult<u64>,
    cuts: &[usize],
) -> Result<DoneCall, Halt>
    ensures { AreInStep asker.old server.old → IsMade (input_of call.now) → Joins (input_of call.now, seen_io_result answer) asker.old server.old result asker.new server.new }
{
    match flag_of(call) {
        Some((feature, on)) => Ok(set_flag(asker, server, feature, on)),
        None => joined_ask(asker, server, call, answer, cuts),
    }
}

/// Calls one after another, until the run stops: whether it did. Those that were not done are left.
///
/// Each end is a `Halt`, of the call that was not done.
pub fn joined_channel_calls(
    asker: &mut Channel,
    server: &mut ChannelServer,
    calls: &mut VecDeque<Entry>,
    cuts: &[usize],
) -> Result<bool, Halt>
    ensures { AreInStep asker.old server.old → AreMade (entries calls.old.items) → JoinsAll (entries calls.old.items) asker.old server.old result (entries calls.new.items) asker.new server.new }
{
    let count = calls.len();
    'calls: for _ in 0..count {
        match calls.pop_front() {
            None => return Ok(false),
            Some((call, answer)) => match joined_channel_call(asker, server, &call, answer, cuts) {
                Ok(done) => {
                    if done.last {
                        return Ok(true);
                    }
                }
                Err(halt) => return Err(halt),
            },
        }
    }
    Ok(false)
}

/// Opens both sessions, and does calls until the run stops.
///
/// Each end is a `Halt`.
pub fn joined_channel_run(
    alloc: Global,
    calls: &mut VecDeque<Entry>,
    cuts: &[usize],
) -> Result<(Channel, ChannelServer), Halt>
    ensures { AreMade (entries calls.old.items) → JoinsBoth (entries calls.old.items) result (entries calls.new.items) }
{
    let mut asker = match Channel::new(alloc) {
        Ok(session) => session,
        Err(error) => return Err(Halt::WantsMemory(Refusal::Protocol(error))),
    };
    let mut server = match ChannelServer::new(alloc) {
        Ok(session) => session,
        Err(error) => return Err(Halt::WantsMemory(Refusal::Protocol(error))),
    };
    match joined_channel_calls(&mut asker, &mut server, calls, cuts) {
        Ok(_) => Ok((asker, server)),
        Err(halt) => Err(halt),
    }
}

/// The flag that is set, if it is one.
fn flag_of(call: &ReverseCall<PlainHandle>) -> Option<(Feature, bool)>
    ensures flag { IfSome result (λ f. input_of call.now ≡ flag_in f.0 f.1) }
    ensures call { result ≡ None → is_call (input_of call.now) ≡ true }
{
    match call {
        ReverseCall::SetReplyAck(on) => Some((Feature::ReplyAck, *on)),
        ReverseCall::SetConfigChange(on) => Some((Feature::ConfigChange, *on)),
        ReverseCall::SetSharedObject(on) => Some((Feature::SharedObject, *on)),
        ReverseCall::SetShmem(on) => Some((Feature::Shmem, *on)),
        _ => None,
    }
}

/// Sets a flag of the device's session. That for acknowledgements is the other session's, too.
fn set_flag(asker: &mut Channel, server: &mut ChannelServer, feature: Feature, on: bool) -> DoneCall
    ensures { (a : Result ℕ IoError) → AreInStep asker.old server.old → Joins (flag_in feature on, a) asker.old server.old (Ok result) asker.new server.new }
{
    asker.agree(feature, on);
    if let Feature::ReplyAck = feature {
        server.acknowledge(on);
        return DoneCall::of_flag();
    }
    DoneCall::of_flag()
}

/// A call of a device.
///
/// Each end is a `Halt`.
fn joined_ask(
    asker: &mut Channel,
    server: &mut ChannelServer,
    call: &ReverseCall<PlainHandle>,
    answer: HandlerResult<u64>,
    cuts: &[usize],
) -> Result<DoneCall, Halt>
    requires { is_call (input_of call.now) ≡ true }
    ensures { AreInStep asker.old server.old → IsMade (input_of call.now) → Joins (input_of call.now, seen_io_result answer) asker.old server.old result asker.new server.new }
{
    match send(asker, server, call, cuts) {
        Ok(Ok(())) => match serve(server, answer) {
            Ok(failed) => come_back(asker, server, failed, cuts),
            Err(halt) => Err(halt),
        },
        Ok(Err(refusal)) => Ok(DoneCall {
            outcome: Err(refusal),
            last: false,
        }),
        Err(halt) => Err(halt),
    }
}

/// Asks, and the request goes over; or the call was not agreed on.
///
/// WantsMemory: an allocation failed.
fn send(
    asker: &mut Channel,
    server: &mut ChannelServer,
    call: &ReverseCall<PlainHandle>,
    cuts: &[usize],
) -> Result<Outcome<()>, Halt>
    ensures { (c : reverse.ReverseCall PlainHandle) → input_of call.now ≡ Asks c → AreInStep asker.old server.old → IsMade (Asks c) → Crossing c asker.old server.old result asker.new server.new }
{
    match asker.ask(call) {
        Ok(()) => match carry_request(asker, server, cuts) {
            Ok(()) => Ok(Ok(())),
            Err(halt) => Err(halt),
        },
        Err(refusal) => {
            if wants_memory(&refusal) {
                return Err(Halt::WantsMemory(refusal));
            }
            Ok(Err(refusal))
        }
    }
}

/// Serves the request that came, whose call is answered so: whether it came to an error.
///
/// WantsMemory: an allocation failed.
fn serve(server: &mut ChannelServer, answer: HandlerResult<u64>) -> Result<bool, Halt>
    ensures { (m : Request) → IsDue m server.old → Meets m (seen_io_result answer) (remembers server.old) result server.new }
{
    talks_law();
    match server.next() {
        Ok(_) => {
            let failed = answer.is_err();
            match server.reply(answer) {
                Ok(()) => Ok(failed),
                Err(refusal) => Err(Halt::WantsMemory(refusal)),
            }
        }
        Err(refusal) => {
            if wants_memory(&refusal) {
                return Err(Halt::WantsMemory(refusal));
            }
            Ok(true)
        }
    }
}

/// The reply comes back, where one is awaited, and is taken.
///
/// WantsMemory: an allocation failed. Silent: one is awaited, and there is none.
fn come_back(
    asker: &mut Channel,
    server: &mut ChannelServer,
    failed: bool,
    cuts: &[usize],
) -> Result<DoneCall, Halt>
    ensures { (w : Written BackendReq PlainHandle) (awaited : Bool) (served : protocol.Served PlainHandle) (heard : Result ℕ IoError) → IsAsked w awaited asker.old → w.reply ≡ false → Holds (reply_to w.request served) server.old → IsNumber served
        → reverse.reverse_answer awaited served ≡ Some heard → Returning awaited served heard failed asker.old server.old result asker.new server.new }
{
    let missing = asker.missing();
    match carry_reply(server, asker, cuts) {
        Ok(()) => {}
        Err(halt) => return Err(halt),
    }
    talks_law();
    let last = is_unheard(failed, missing);
    match asker.take() {
        Ok(()) => Ok(DoneCall {
            outcome: Ok(()),
            last,
        }),
        Err(refusal) => {
            if wants_memory(&refusal) {
                return Err(Halt::WantsMemory(refusal));
            }
            Ok(DoneCall {
                outcome: Err(refusal),
                last,
            })
        }
    }
}

/// Whether nobody hears of what failed: where no reply is missing, none is awaited.
fn is_unheard(failed: bool, missing: usize) -> bool
    ensures { result ≡ (failed && missing == 0) }
{
    failed && missing == 0
}

/// Whether it says that memory was refused.
fn wants_memory(refusal: &Refusal) -> bool
    ensures { result ≡ is_want refusal.now }
{
    matches!(
        refusal,
        Refusal::Protocol(Error::OutOfMemory | Error::SocketRetry(_))
    )
}
