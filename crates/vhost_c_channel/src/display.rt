//! A device's session of the vhost-user-gpu channel, whose link is its caller's.

ghost use Rattle.std.specs.Prelude.{◌≡◌, ◌≤◌, ℕ, List, length, true, IfOk, IfErr};
ghost use Rattle.vhost_message.specs.declared.limits.TheConstants.{MAX_MSG_SIZE};
ghost use Rattle.vhost_c_channel.specs.Display.{error_in};
ghost use Rattle.vhost_message.specs.declared.error.Error.TheVariants.{OutOfMemory};

use std::alloc::Global;
use vhost_c_common::{
    Held, Incoming, Outgoing, Refusal, carry_out, empty, forget_sent, hand_out, receive,
};
use vhost_connection::talks_law;
use vhost_gpu_backend_req::{Awaited, BackendInternal, GpuCall};
use vhost_gpu_message::{VirtioGpuRespDisplayInfo, VirtioGpuRespGetEdid};
use vhost_link::{MemLink, PlainHandle};
use vhost_message::{
    Error, IoError, MAX_ATTACHED_FD_ENTRIES, VhostUserEmpty, VhostUserMsgValidator, VhostUserU64,
};

type Outcome<T> = std::result::Result<T, Refusal>;

/// A link in memory is asked once: what it can't do it will not do.
const BUDGET: u32 = 0;

/// A session: the channel, what is to be sent, and of the call whose reply is to be taken the reply that is awaited, if any.
#[derive(Drop)]
pub struct Display {
    channel: BackendInternal<MemLink>,
    outgoing: Outgoing,
    asked: Option<Option<Awaited>>,
    incoming: Incoming,
    /// The descriptors that came: replies bring none that anybody may claim.
    held: Held,
    alloc: Global,
}

impl Display {
    ghost use Rattle.std.specs.Prelude.{None, [], false};
    ghost use Rattle.vhost_gpu_backend_req.specs.Halves.{call_in, pixels_of};
    ghost use Rattle.vhost_gpu_message.specs.Replies.{display_info_of, display_info_text, edid_of, edid_text};
    ghost use Rattle.vhost_message.specs.Records.{u64_at};
    ghost use Rattle.vhost_message.specs.declared.limits.TheConstants.{MAX_MSG_TEXT};
    ghost use Rattle.vhost_protocol.specs.Gpu.{GpuReply, TheFeatures, TheDisplayInfo, TheEdid, gpu_record_size};
    ghost use Rattle.vhost_c_common.specs.Held.{Gets, HandsLoose};
    ghost use Rattle.vhost_c_common.specs.Moving.{HandsOut};
    ghost use Rattle.vhost_c_common.specs.View.{Hands, HandsNone, Receives, TakesNone};
    ghost use Rattle.vhost_c_channel.specs.Display.{IsNew, Asking, AskingNow, endpoint_of, arrived, awaits_none, queued, view, missing_of, Takes, TakesRecord, TakesTo};

    /// A new session.
    ///
    /// OutOfMemory: an allocation failed.
    pub fn new(alloc: Global) -> std::result::Result<Display, Error>
        ensures new { IfOk result (λ s. IsNew s) }
        ensures memory { IfErr result (λ e. e ≡ OutOfMemory) }
    {
        let link = MemLink::new(alloc, Vec::new(alloc));
        let Ok(outgoing) = Outgoing::new(alloc) else {
            return Err(Error::OutOfMemory);
        };
        match BackendInternal::from_stream(alloc, link, BUDGET) {
            Ok(channel) => Ok(Display {
                channel,
                outgoing,
                asked: None,
                incoming: Incoming::new(),
                held: Held::new(alloc),
                alloc,
            }),
            Err(error) => Err(error),
        }
    }

    /// Asks. What is to be sent then waits to be handed out; the call's pixels, if any, are sent behind it by the caller.
    ///
    /// NotTaken: the reply of the call before is still to be taken. OversizedMsg: no header can say how many bytes the pixels have.
    /// OutOfMemory: an allocation failed; SocketRetry, SocketBroken: one of the link's failed, now or before. After each, nothing
    /// more is to be sent than before.
    pub fn ask(&mut self, call: &GpuCall<PlainHandle>) -> Outcome<()>
        ensures { (pixels : List ℕ) → length pixels ≡ pixels_of call.now → Asking (call_in call.now pixels) self.old result self.new }
    {
        if self.asked.is_some() {
            return Err(Refusal::NotTaken);
        }
        match carry_out(self.channel.endpoint_mut(), &mut self.outgoing) {
            Ok(()) => {
                empty(self.channel.endpoint_mut());
                self.ask_now(call)
            }
            Err(error) => Err(Refusal::Protocol(error)),
        }
    }

    /// Asks where nothing is asked, the channel's link has nothing that is to be sent, and nothing that came waits.
    fn ask_now(&mut self, call: &GpuCall<PlainHandle>) -> Outcome<()>
        requires free { self.old.asked ≡ None }
        requires unsent { (endpoint_of self.old).link.sent ≡ [] }
        requires empty { arrived self.old ≡ [] }
        ensures { (pixels : List ℕ) → length pixels ≡ pixels_of call.now → AskingNow (call_in call.now pixels) self.old result self.new }
    {
        talks_law();
        match self.channel.ask_half(call) {
            Ok(awaited) => {
                self.incoming = Incoming::new();
                self.asked = Some(awaited);
                Ok(())
            }
            Err(error) => {
                forget_sent(self.alloc, self.channel.endpoint_mut());
                Err(Refusal::Protocol(protocol_error(error)))
            }
        }
    }

    /// Hands out a piece of what is to be sent; the answer is how many bytes and descriptors. Nothing is left to be sent
    /// where it is 0.
    ///
    /// NoRoom: there is no room for a byte, or not for all descriptors that one may bring. Then nothing changed.
    pub fn hand_out(&mut self, bytes: &mut [u8], fds: &mut [i32]) -> Outcome<(usize, usize)>
        ensures out { IfOk result (λ n. HandsOut (queued self.old) (queued self.new) bytes.new fds.new n) }
        ensures reason { IfErr result (λ r. HandsNone bytes.new fds.new r) }
        ensures refused { IfErr result (λ _. queued self.new ≡ queued self.old) }
        ensures untouched { IfErr result (λ _. (bytes.new ≡ bytes.old) × (fds.new ≡ fds.old)) }
        ensures rest { Hands (view self.old) (view self.new) }
        ensures held { self.new.held ≡ self.old.held }
    {
        if bytes.is_empty() || fds.len() < MAX_ATTACHED_FD_ENTRIES {
            return Err(Refusal::NoRoom);
        }
        let end = self.channel.endpoint_mut();
        Ok(hand_out(end, &mut self.outgoing, bytes, fds))
    }

    /// How many bytes are known to be missing of the reply. None are where none is awaited.
    pub fn missing(&self) -> usize
        ensures missing { result ≡ missing_of self.now }
        ensures within { result ≤ MAX_MSG_TEXT }
    {
        match self.asked {
            Some(Some(_)) => self.incoming.missing(),
            _ => 0,
        }
    }

    /// Receives bytes of the reply, with the descriptors that came with the first of them.
    ///
    /// TooManyBytes: they are more than are missing. InvalidParam: descriptors without a byte, more than a message may
    /// have, or a negative one. OutOfMemory: an allocation failed. After each, nothing changed.
    pub fn receive(&mut self, bytes: &[u8], fds: &[i32]) -> Outcome<()>
        ensures received { Receives (missing_of self.old) bytes.now fds.now (view self.old) result (view self.new) }
        ensures reason { IfErr result (λ r. TakesNone (missing_of self.old) bytes.now fds.now r) }
        ensures held { Gets fds.now false self.old.held result self.new.held }
    {
        if bytes.len() > self.missing() {
            return Err(Refusal::TooManyBytes);
        }
        if let Err(error) = self.held.make_room(bytes, fds) {
            return Err(Refusal::Protocol(error));
        }
        match receive(self.alloc, self.channel.endpoint_mut(), bytes, fds) {
            Ok(()) => {
                self.held.arrive(fds, false);
                self.incoming.add(bytes);
                Ok(())
            }
            Err(error) => Err(Refusal::Protocol(error)),
        }
    }

    /// Hands out descriptors that came, to the front of a place: how many. Nobody will claim them: they are the caller's from now
    /// on, which closes them. None is left where it is 0 and the place has room.
    pub fn unclaimed(&mut self, place: &mut [i32]) -> usize
        ensures out { HandsLoose self.old.held place.old result place.new self.new.held }
        ensures rest { self.new ≡ record self.old { held = self.new.held } }
    {
        self.held.hand_out(place)
    }

    /// Takes the reply of a call that has no value, where one is awaited. Errors are those of `take_number`.
    pub fn take(&mut self) -> Outcome<()>
        ensures { Takes self.old self.new result }
    {
        if self.awaits_none() {
            self.asked = None;
            return Ok(());
        }
        match self.take_record::<VhostUserEmpty>() {
            Ok(_) => Ok(()),
            Err(refusal) => Err(refusal),
        }
    }

    /// Whether a call was asked that awaits no reply.
    fn awaits_none(&self) -> bool
        ensures { result ≡ awaits_none self.now.asked }
    {
        matches!(self.asked, Some(None))
    }

    /// Takes the reply of `get_protocol_features`.
    ///
    /// NothingAsked: no call's reply is still to be taken. NotYet: bytes are missing. OtherAnswer: the reply of this call has
    /// another form. After these, nothing changed. InvalidMessage: the reply has another size than its record, and nothing of it
    /// was read; or it is none for this request, or has descriptors. After this, nothing is asked any more.
    pub fn take_number(&mut self) -> Outcome<u64>
        ensures { TakesRecord TheFeatures (u64_at 0) self.old self.new result }
    {
        match self.take_record::<VhostUserU64>() {
            Ok(number) => Ok(number.value),
            Err(refusal) => Err(refusal),
        }
    }

    /// Takes the reply of `get_display_info`: its wire bytes are written to the start of a place.
    ///
    /// NoRoom: the place is too small, and nothing changed. Other errors are those of `take_number`; after each, nothing was written.
    pub fn take_display_info(&mut self, place: &mut [u8]) -> Outcome<()>
        ensures { TakesTo TheDisplayInfo display_info_of display_info_text place.old place.new self.old self.new result }
    {
        self.take_to::<VirtioGpuRespDisplayInfo>(place)
    }

    /// Takes the reply of `get_edid`: its wire bytes are written to the start of a place. Errors are those of `take_display_info`.
    pub fn take_edid(&mut self, place: &mut [u8]) -> Outcome<()>
        ensures { TakesTo TheEdid edid_of edid_text place.old place.new self.old self.new result }
    {
        self.take_to::<VirtioGpuRespGetEdid>(place)
    }

    /// Takes the reply of the call that was asked, where it is such a record, and writes its wire bytes to the start of a place.
    fn take_to<T: VhostUserMsgValidator + Drop>(&mut self, place: &mut [u8]) -> Outcome<()>
        requires { T.SIZE ≤ MAX_MSG_SIZE }
        ensures { (reply : GpuReply) → gpu_record_size reply ≡ T.SIZE → ((bs : List ℕ) → T.valid (T.read bs) ≡ true) → TakesTo reply T.read T.text place.old place.new self.old self.new result }
    {
        if place.len() < T::SIZE {
            return Err(Refusal::NoRoom);
        }
        match self.take_record::<T>() {
            Ok(record) => {
                record.encode_into(&mut place[..T::SIZE]);
                Ok(())
            }
            Err(refusal) => Err(refusal),
        }
    }

    /// Takes the reply of the call that was asked, where it is such a record.
    fn take_record<T: VhostUserMsgValidator + Drop>(&mut self) -> Outcome<T>
        requires { T.SIZE ≤ MAX_MSG_SIZE }
        ensures { (reply : GpuReply) → gpu_record_size reply ≡ T.SIZE → ((bs : List ℕ) → T.valid (T.read bs) ≡ true) → TakesRecord reply T.read self.old self.new result }
    {
        let Some(asked) = self.asked else {
            return Err(Refusal::NothingAsked);
        };
        let Some(awaited) = asked else {
            return Err(Refusal::OtherAnswer);
        };
        if awaited.reply.size() != T::SIZE {
            return Err(Refusal::OtherAnswer);
        }
        if self.missing() > 0 {
            return Err(Refusal::NotYet);
        }
        talks_law();
        self.asked = None;
        if self.incoming.size() != T::SIZE {
            empty(self.channel.endpoint_mut());
            return Err(Refusal::Protocol(Error::InvalidMessage));
        }
        match self.channel.take_half(&awaited.request) {
            Ok(record) => Ok(record),
            Err(error) => Err(Refusal::Protocol(protocol_error(error))),
        }
    }
}

/// The error of the protocol that a call of the channel failed with.
fn protocol_error(error: IoError) -> Error
    ensures { result ≡ error_in error }
{
    match error {
        IoError::Of(error) | IoError::In(_, error) => error,
        _ => Error::InvalidMessage,
    }
}
