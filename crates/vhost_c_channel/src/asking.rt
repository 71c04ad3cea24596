//! A device's session of the backend channel, whose link is its caller's.

ghost use Rattle.std.specs.Prelude.{◌≡◌, ◌≤◌, IfOk, IfErr};
ghost use Rattle.vhost_c_channel.specs.Asking.{error_in, lacks};
ghost use Rattle.vhost_backend_req.specs.Halves.{input_of};
ghost use Rattle.vhost_message.specs.declared.error.Error.TheVariants.{OutOfMemory};

use std::alloc::Global;
use vhost_backend_req::{Asked, BackendInternal, ReverseCall};
use vhost_c_common::{
    Held, Incoming, Outgoing, Refusal, carry_out, empty, forget_sent, hand_out, receive,
};
use vhost_connection::talks_law;
use vhost_link::{MemLink, PlainHandle};
use vhost_message::{
    BackendReq, Error, IoError, MAX_ATTACHED_FD_ENTRIES, VhostUserMsgHeader,
    VhostUserProtocolFeatures,
};

type Outcome<T> = std::result::Result<T, Refusal>;

/// The header of a request.
type Head = VhostUserMsgHeader<BackendReq>;

/// A link in memory is asked once: what it can't do it will not do.
const BUDGET: u32 = 0;

/// The size of a reply's body: a number.
const NUMBER_SIZE: usize = 8;

/// What both sides agreed on, so that a device may ask for it.
#[derive(Drop, Clone, Copy)]
pub enum Feature {
    /// Requests are replied to.
    ReplyAck,
    /// Changes of the configuration space are reported.
    ConfigChange,
    SharedObject,
    Shmem,
}

/// A session: the channel, what is to be sent, and of the call whose reply is to be taken the header of its request, where a
/// reply is awaited.
#[derive(Drop)]
pub struct Channel {
    channel: BackendInternal<MemLink>,
    outgoing: Outgoing,
    asked: Option<Option<Head>>,
    incoming: Incoming,
    /// The descriptors that came: replies bring none that anybody may claim.
    held: Held,
    alloc: Global,
}

impl Channel {
    ghost use Rattle.std.specs.Prelude.{None, [], false};
    ghost use Rattle.vhost_message.specs.declared.limits.TheConstants.{MAX_MSG_TEXT};
    ghost use Rattle.vhost_protocol.specs.JoinedReverse.{Asks};
    ghost use Rattle.vhost_protocol.specs.Reverse as reverse;
    ghost use Rattle.vhost_link.specs.declared.plain.PlainHandle.{PlainHandle};
    ghost use Rattle.vhost_c_common.specs.Held.{Gets, HandsLoose};
    ghost use Rattle.vhost_c_common.specs.Moving.{HandsOut};
    ghost use Rattle.vhost_c_common.specs.View.{Hands, HandsNone, Receives, TakesNone};
    ghost use Rattle.vhost_c_channel.specs.Asking.{IsNew, Agrees, Asking, AskingNow, endpoint_of, arrived, queued, view, missing_of, Takes};

    /// A new session, with nothing agreed on.
    ///
    /// OutOfMemory: an allocation failed.
    pub fn new(alloc: Global) -> std::result::Result<Channel, Error>
        ensures new { IfOk result (λ s. IsNew s) }
        ensures memory { IfErr result (λ e. e ≡ OutOfMemory) }
    {
        let link = MemLink::new(alloc, Vec::new(alloc));
        let Ok(outgoing) = Outgoing::new(alloc) else {
            return Err(Error::OutOfMemory);
        };
        match BackendInternal::from_stream(alloc, link, BUDGET) {
            Ok(channel) => Ok(Channel {
                channel,
                outgoing,
                asked: None,
                incoming: Incoming::new(),
                held: Held::new(alloc),
                alloc,
            }),
            Err(error) => Err(error),
        }
    }

    /// Whether both sides agreed on this.
    pub fn agree(&mut self, feature: Feature, on: bool)
        ensures { Agrees feature on self.old self.new }
    {
        match feature {
            Feature::ReplyAck => self.channel.set_reply_ack_flag(on),
            Feature::ConfigChange => self.channel.set_config_change_flag(on),
            Feature::SharedObject => self.channel.set_shared_object_flag(on),
            Feature::Shmem => self.channel.set_shmem_flag(on),
        }
    }

    /// Asks. What is to be sent then waits to be handed out.
    ///
    /// NotTaken: the reply of the call before is still to be taken. InactiveOperation: the call was not agreed on. OutOfMemory: an
    /// allocation failed; SocketRetry, SocketBroken: one of the link's failed, now or before. After each, nothing more is to be
    /// sent than before.
    pub fn ask(&mut self, call: &ReverseCall<PlainHandle>) -> Outcome<()>
        ensures { (c : reverse.ReverseCall PlainHandle) → input_of call.now ≡ Asks c → Asking c self.old result self.new }
    {
        if self.asked.is_some() {
            return Err(Refusal::NotTaken);
        }
        match carry_out(self.channel.endpoint_mut(), &mut self.outgoing) {
            Ok(()) => {
                empty(self.channel.endpoint_mut());
                self.ask_now(call)
            }
            Err(error) => Err(Refusal::Protocol(error)),
        }
    }

    /// Asks where nothing is asked, the channel's link has nothing that is to be sent, and nothing that came waits.
    fn ask_now(&mut self, call: &ReverseCall<PlainHandle>) -> Outcome<()>
        requires free { self.old.asked ≡ None }
        requires unsent { (endpoint_of self.old).link.sent ≡ [] }
        requires empty { arrived self.old ≡ [] }
        ensures { (c : reverse.ReverseCall PlainHandle) → input_of call.now ≡ Asks c → AskingNow c self.old result self.new }
    {
        talks_law();
        match self.channel.ask_half(call) {
            Ok(Asked::Sent(head)) => {
                self.incoming = Incoming::new();
                self.asked = Some(head);
                Ok(())
            }
            Ok(Asked::Set) => Ok(()),
            Err(error) => {
                forget_sent(self.alloc, self.channel.endpoint_mut());
                let inactive = Error::InactiveOperation(feature_of(call));
                Err(Refusal::Protocol(protocol_error(error, inactive)))
            }
        }
    }

    /// Hands out a piece of what is to be sent; the answer is how many bytes and descriptors. Nothing is left to be sent
    /// where it is 0.
    ///
    /// NoRoom: there is no room for a byte, or not for all descriptors that one may bring. Then nothing changed.
    pub fn hand_out(&mut self, bytes: &mut [u8], fds: &mut [i32]) -> Outcome<(usize, usize)>
        ensures out { IfOk result (λ n. HandsOut (queued self.old) (queued self.new) bytes.new fds.new n) }
        ensures reason { IfErr result (λ r. HandsNone bytes.new fds.new r) }
        ensures refused { IfErr result (λ _. queued self.new ≡ queued self.old) }
        ensures untouched { IfErr result (λ _. (bytes.new ≡ bytes.old) × (fds.new ≡ fds.old)) }
        ensures rest { Hands (view self.old) (view self.new) }
        ensures held { self.new.held ≡ self.old.held }
    {
        if bytes.is_empty() || fds.len() < MAX_ATTACHED_FD_ENTRIES {
            return Err(Refusal::NoRoom);
        }
        let end = self.channel.endpoint_mut();
        Ok(hand_out(end, &mut self.outgoing, bytes, fds))
    }

    /// How many bytes are known to be missing of the reply. None are where none is awaited.
    pub fn missing(&self) -> usize
        ensures missing { result ≡ missing_of self.now }
        ensures within { result ≤ MAX_MSG_TEXT }
    {
        match self.asked {
            Some(Some(_)) => self.incoming.missing(),
            _ => 0,
        }
    }

    /// Receives bytes of the reply, with the descriptors that came with the first of them.
    ///
    /// TooManyBytes: they are more than are missing. InvalidParam: descriptors without a byte, more than a message may
    /// have, or a negative one. OutOfMemory: an allocation failed. After each, nothing changed.
    pub fn receive(&mut self, bytes: &[u8], fds: &[i32]) -> Outcome<()>
        ensures received { Receives (missing_of self.old) bytes.now fds.now (view self.old) result (view self.new) }
        ensures reason { IfErr result (λ r. TakesNone (missing_of self.old) bytes.now fds.now r) }
        ensures held { Gets fds.now false self.old.held result self.new.held }
    {
        if bytes.len() > self.missing() {
            return Err(Refusal::TooManyBytes);
        }
        if let Err(error) = self.held.make_room(bytes, fds) {
            return Err(Refusal::Protocol(error));
        }
        match receive(self.alloc, self.channel.endpoint_mut(), bytes, fds) {
            Ok(()) => {
                self.held.arrive(fds, false);
                self.incoming.add(bytes);
                Ok(())
            }
            Err(error) => Err(Refusal::Protocol(error)),
        }
    }

    /// Hands out descriptors that came, to the front of a place: how many. Nobody will claim them: they are the caller's from now
    /// on, which closes them. None is left where it is 0 and the place has room.
    pub fn unclaimed(&mut self, place: &mut [i32]) -> usize
        ensures out { HandsLoose self.old.held place.old result place.new self.new.held }
        ensures rest { self.new ≡ record self.old { held = self.new.held } }
    {
        self.held.hand_out(place)
    }

    /// Takes the reply of the call that was asked.
    ///
    /// NothingAsked: no call's reply is still to be taken. NotYet: bytes are missing. After both, nothing changed.
    /// InvalidMessage: the reply has another size than one has, and nothing of it was read; or it is none for this request, or
    /// has descriptors. FrontendInternalError: the frontend refused. After these, nothing is asked any more.
    pub fn take(&mut self) -> Outcome<()>
        ensures { Takes self.old self.new result }
    {
        if self.missing() > 0 {
            return Err(Refusal::NotYet);
        }
        talks_law();
        match self.asked.take() {
            None => Err(Refusal::NothingAsked),
            Some(None) => Ok(()),
            Some(Some(head)) => {
                if self.incoming.size() != NUMBER_SIZE {
                    empty(self.channel.endpoint_mut());
                    return Err(Refusal::Protocol(Error::InvalidMessage));
                }
                match self.channel.take_half(Some(head)) {
                    Ok(_) => Ok(()),
                    Err(error) => {
                        let other = protocol_error(error, Error::InvalidMessage);
                        Err(Refusal::Protocol(other))
                    }
                }
            }
        }
    }
}

/// The error of the protocol that a call of the channel failed with; else the other one.
fn protocol_error(error: IoError, other: Error) -> Error
    ensures { result ≡ error_in error other }
{
    match error {
        IoError::Of(error) => error,
        _ => other,
    }
}

/// The feature of a call.
fn feature_of(call: &ReverseCall<PlainHandle>) -> VhostUserProtocolFeatures
    ensures { result ≡ lacks (input_of call.now) }
{
    match call {
        ReverseCall::HandleConfigChange => VhostUserProtocolFeatures::CONFIG,
        ReverseCall::ShmemMap(_, _) | ReverseCall::ShmemUnmap(_) => {
            VhostUserProtocolFeatures::SHMEM
        }
        _ => VhostUserProtocolFeatures::SHARED_OBJECT,
    }
}
