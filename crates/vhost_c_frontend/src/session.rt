//! A frontend's session whose link is its caller's.

ghost use Rattle.std.specs.Prelude.{◌≡◌, ◌≤◌, [], None, IfOk, IfErr};
ghost use Rattle.std.specs.Option.{ForSome};
ghost use Rattle.vhost_message.specs.declared.cause.IoCause.TheVariants.{Raw};
ghost use Rattle.vhost_message.specs.declared.errno.TheConstants.{ENOMEM};
ghost use Rattle.vhost_message.specs.declared.error.Error.TheVariants.{OutOfMemory};
ghost use Rattle.vhost_frontend_core.specs.Awaiting.{MayAwait};
ghost use Rattle.vhost_frontend_core.specs.Frontend.{endpoint_of, session_of, awaits};
ghost use Rattle.vhost_frontend_core.specs.Kept.{IsKeptFor};
ghost use Rattle.vhost_frontend_core.specs.Values.{call_of};
ghost use Rattle.vhost_protocol.specs.declared.profile.Profile.TheVariants.{Standard};
ghost use Rattle.vhost_c_frontend.specs.Awaiting.{awaited_of};

use crate::carrying::{collect, forget, forget_arrived, hand_out, receive, take_nothing};
use crate::incoming::{is_sized, missing_from};
use std::alloc::Global;
use vhost_c_common::{Held, Incoming, Outgoing, Refusal, inactive_of};
use vhost_connection::talks_law;
use vhost_frontend_core::{
    Awaited, FrontendAnswer, FrontendCall, FrontendInternal, Profile, Sent, ask, take,
};
use vhost_link::{MemLink, stream_law};
use vhost_message::{Error, MAX_ATTACHED_FD_ENTRIES};

type Outcome<T> = std::result::Result<T, Refusal>;

/// A link in memory is asked once: what it can't do it will not do.
const BUDGET: u32 = 0;

/// A call whose answer is still to be decoded: it was sent, and what is awaited and kept of its request is the call's.
#[derive(Drop)]
struct Asked {
    call: FrontendCall,
    sent: Sent,
    ghost awaited: { ∥ MayAwait (call_of call) sent.awaited ∥₁ },
    ghost kept: { ∥ IsKeptFor (call_of call) sent.awaited sent.kept ∥₁ },
}

/// A session: the frontend, what is to be sent, the call whose answer the frontend awaits, and the descriptors that came. Its link
/// makes no short read or write, so only a failed allocation poisons the session.
#[derive(Drop)]
pub struct Session {
    frontend: FrontendInternal<MemLink>,
    outgoing: Outgoing,
    asked: Option<Asked>,
    incoming: Incoming,
    /// Those that came with the answer that is received or was decoded last, and those that nobody will claim.
    held: Held,
    answer: FrontendAnswer,
    /// The feature that was not active, where the call that was asked last was refused for that; else 0.
    inactive: u64,
    alloc: Global,
    ghost uncut: { (endpoint_of frontend).link.script ≡ [] },
    ghost broken: { ForSome (endpoint_of frontend).broken (λ c. c ≡ Raw ENOMEM) },
    ghost awaited: { awaits frontend ≡ awaited_of (λ a. a.sent.awaited) asked },
}

impl Session {
    ghost use Rattle.vhost_message.specs.declared.limits.TheConstants.{MAX_MSG_TEXT};
    ghost use Rattle.vhost_c_common.specs.Moving.{HandsOut};
    ghost use Rattle.vhost_c_frontend.specs.Session.{IsNew, Changes, Asks, Asking, Rejecting, Becomes, Stays, Fails, Takes, Claiming, Drops, TakesHeld, is_first, queued, view, missing_of};
    ghost use Rattle.vhost_c_common.specs.Held.{Claims, Gets, HandsLoose, Released};
    ghost use Rattle.std.specs.Prelude.{is_some};
    ghost use Rattle.vhost_c_common.specs.View.{Hands, HandsNone, Lasts, Receives, TakesNone};

    /// A new session with a backend of at most so many queues, of the profile `Standard`.
    ///
    /// OutOfMemory: an allocation failed.
    pub fn new(alloc: Global, max_queue_num: u64) -> std::result::Result<Session, Error>
        ensures new { IfOk result (IsNew max_queue_num) }
        ensures memory { IfErr result (λ e. e ≡ OutOfMemory) }
    {
        let link = MemLink::new(alloc, Vec::new(alloc));
        let Ok(outgoing) = Outgoing::new(alloc) else {
            return Err(Error::OutOfMemory);
        };
        match FrontendInternal::new(alloc, link, max_queue_num, BUDGET) {
            Ok(frontend) => Ok(Session {
                frontend: standard(frontend),
                outgoing,
                asked: None,
                incoming: Incoming::new(),
                held: Held::new(alloc),
                answer: FrontendAnswer::Done,
                inactive: 0,
                alloc,
            }),
            Err(error) => Err(error),
        }
    }

    /// Has this profile from now on, also for the answer of a call that was asked.
    pub fn set_profile(&mut self, profile: Profile)
        ensures { Changes profile self.old self.new }
    {
        self.frontend.set_profile(profile);
    }

    /// Asks. What is to be sent then waits to be handed out.
    ///
    /// NotTaken: the answer of the call before is still to be decoded. The errors of the call's own tests. OutOfMemory: an
    /// allocation failed, where something still waits to be sent, where the descriptors of an answer took the buffer for
    /// them away, or for the answer of a call that makes room for it; SocketRetry, SocketBroken: one of the link's failed,
    /// now or before. After each, nothing more is to be sent than before.
    pub fn ask(&mut self, call: FrontendCall) -> Outcome<()>
        ensures { Asking (call_of call) self.old result self.new }
    {
        let outcome = self.ask_in_turn(call);
        self.inactive = inactive_of(&outcome);
        outcome
    }

    /// Refuses an ask of whose arguments no call can be made.
    pub fn reject(&mut self, error: Error) -> Outcome<()>
        ensures { Rejecting error self.old result self.new }
    {
        let outcome = Err(Refusal::Protocol(error));
        self.inactive = inactive_of(&outcome);
        outcome
    }

    /// What becomes of an ask, but for the feature that was not active.
    fn ask_in_turn(&mut self, call: FrontendCall) -> Outcome<()>
        ensures becomes { Becomes (call_of call) self.old result self.new }
        ensures held { Drops (is_some self.old.asked) (is_some self.new.asked) self.old.held self.new.held }
    {
        if self.asked.is_some() {
            return Err(Refusal::NotTaken);
        }
        match collect(&mut self.frontend, &mut self.outgoing) {
            Ok(()) => {
                forget_arrived(&mut self.frontend);
                match self.ask_now(call) {
                    Ok(()) => Ok(()),
                    Err(error) => Err(Refusal::Protocol(error)),
                }
            }
            Err(error) => Err(Refusal::Protocol(error)),
        }
    }

    /// Asks where nothing is asked, the frontend's link has nothing that is to be sent, and nothing that came waits.
    fn ask_now(&mut self, call: FrontendCall) -> std::result::Result<(), Error>
        requires free { self.old.asked ≡ None }
        requires unsent { (endpoint_of self.old.frontend).link.sent ≡ [] }
        requires empty { (endpoint_of self.old.frontend).link.pending ≡ [] }
        requires none_ahead { (endpoint_of self.old.frontend).ahead ≡ [] }
        ensures asked { IfOk result (λ _. Asks (call_of call) self.old self.new) }
        ensures refused { IfErr result (λ _. Stays self.old self.new) }
        ensures reason { IfErr result (λ e. Fails (call_of call) self.old e) }
        ensures sound { IfErr result (λ e. Lasts e (endpoint_of self.old.frontend) (endpoint_of self.new.frontend)) }
        ensures held { Drops (is_some self.old.asked) (is_some self.new.asked) self.old.held self.new.held }
    {
        stream_law();
        talks_law();
        match ask(&mut self.frontend, &call) {
            Ok(Some(sent)) => {
                self.held.release();
                self.incoming = Incoming::new();
                let asked = Asked { call, sent };
                self.asked = Some(asked);
                Ok(())
            }
            Ok(None) => Ok(()),
            Err(error) => {
                forget(self.alloc, &mut self.frontend);
                Err(error)
            }
        }
    }

    /// Hands out a piece of what is to be sent; the answer is how many bytes and descriptors. Nothing is left to be sent
    /// where it is 0.
    ///
    /// NoRoom: there is no room for a byte, or not for all descriptors that one may bring. Then nothing changed.
    pub fn hand_out(&mut self, bytes: &mut [u8], fds: &mut [i32]) -> Outcome<(usize, usize)>
        ensures out { IfOk result (λ n. HandsOut (queued self.old) (queued self.new) bytes.new fds.new n) }
        ensures reason { IfErr result (λ r. HandsNone bytes.new fds.new r) }
        ensures refused { IfErr result (λ _. queued self.new ≡ queued self.old) }
        ensures untouched { IfErr result (λ _. (bytes.new ≡ bytes.old) × (fds.new ≡ fds.old)) }
        ensures rest { Hands (view self.old) (view self.new) }
        ensures held { self.new.held ≡ self.old.held }
    {
        if bytes.is_empty() || fds.len() < MAX_ATTACHED_FD_ENTRIES {
            return Err(Refusal::NoRoom);
        }
        Ok(hand_out(&mut self.frontend, &mut self.outgoing, bytes, fds))
    }

    /// How many bytes are known to be missing of the answer.
    pub fn missing(&self) -> usize
        ensures missing { result ≡ missing_of self.now }
        ensures within { result ≤ MAX_MSG_TEXT }
    {
        match &self.asked {
            None => 0,
            Some(asked) => missing_from(
                &self.incoming,
                self.frontend.profile(),
                &asked.call,
                asked.sent.awaited(),
            ),
        }
    }

    /// Receives bytes of the answer, with the descriptors that came with the first of them.
    ///
    /// TooManyBytes: they are more than are missing. InvalidParam: descriptors without a byte, more than a message may
    /// have, or a negative one. OutOfMemory: an allocation failed. After each, nothing changed.
    pub fn receive(&mut self, bytes: &[u8], fds: &[i32]) -> Outcome<()>
        ensures received { Receives (missing_of self.old) bytes.now fds.now (view self.old) result (view self.new) }
        ensures reason { IfErr result (λ r. TakesNone (missing_of self.old) bytes.now fds.now r) }
        ensures held { Gets fds.now (is_first self.old) self.old.held result self.new.held }
    {
        if bytes.len() > self.missing() {
            return Err(Refusal::TooManyBytes);
        }
        if let Err(error) = self.held.make_room(bytes, fds) {
            return Err(Refusal::Protocol(error));
        }
        match receive(self.alloc, &mut self.frontend, bytes, fds) {
            Ok(()) => {
                self.held.arrive(fds, self.incoming.count == 0);
                self.incoming.add(bytes);
                Ok(())
            }
            Err(error) => Err(Refusal::Protocol(error)),
        }
    }

    /// Decodes the answer of the call that was asked.
    ///
    /// NothingAsked: no call's answer is still to be decoded. NotYet: bytes are missing. After both, nothing changed.
    /// InvalidMessage: the answer has another size than this call's, and nothing of it was read. The errors of the call.
    /// After these, nothing is asked any more.
    pub fn take(&mut self) -> Outcome<()>
        ensures taken { Takes self.old self.new result }
        ensures held { TakesHeld self.old.held result self.new.held }
    {
        if self.missing() > 0 {
            return Err(Refusal::NotYet);
        }
        stream_law();
        talks_law();
        match self.asked.take() {
            Some(Asked { call, sent }) => {
                let profile = self.frontend.profile();
                if !is_sized(&self.incoming, profile, &call, sent.awaited()) {
                    let _nothing = take_nothing(&mut self.frontend, &call, sent);
                    self.held.release();
                    self.answer = FrontendAnswer::Done;
                    return Err(Refusal::Protocol(Error::InvalidMessage));
                }
                match take(&mut self.frontend, &call, sent) {
                    FrontendAnswer::Failed(error) => {
                        self.held.release();
                        self.answer = FrontendAnswer::Done;
                        Err(Refusal::Protocol(error))
                    }
                    answer => {
                        self.answer = answer;
                        Ok(())
                    }
                }
            }
            None => Err(Refusal::NothingAsked),
        }
    }

    /// Claims a descriptor of the answer that was decoded last: it came with its first byte, and is the caller's from now on.
    ///
    /// OtherAnswer: a call's answer is still to be decoded, or none of its descriptors has this number that was not claimed.
    /// Then nothing changed.
    pub fn claim(&mut self, fd: i32) -> Outcome<()>
        ensures { Claiming fd self.old result self.new }
    {
        if self.asked.is_some() {
            return Err(Refusal::OtherAnswer);
        }
        if self.claim_held(fd) {
            Ok(())
        } else {
            Err(Refusal::OtherAnswer)
        }
    }

    /// Claims a descriptor of those that are held, and answers whether it may be.
    fn claim_held(&mut self, fd: i32) -> bool
        ensures claims { Claims fd self.old.held result self.new.held }
        ensures rest { self.new ≡ record self.old { held = self.new.held } }
    {
        self.held.claim(fd)
    }

    /// Hands out descriptors that nobody will claim, to the front of a place: how many. They are the caller's from now on, which
    /// closes them. None is left where it is 0 and the place has room.
    pub fn unclaimed(&mut self, place: &mut [i32]) -> usize
        ensures out { HandsLoose self.old.held place.old result place.new self.new.held }
        ensures rest { self.new ≡ record self.old { held = self.new.held } }
    {
        self.held.hand_out(place)
    }

    /// Nobody will claim what came: the rest of the answer that is received will never come, or the one that was decoded last is
    /// done with.
    pub fn abandon(&mut self)
        ensures released { Released self.old.held self.new.held }
        ensures rest { self.new ≡ record self.old { held = self.new.held } }
    {
        self.held.release();
    }

    /// The feature that was not active, where the call that was asked last was refused for that; else 0.
    pub fn inactive(&self) -> u64
        ensures { result ≡ self.now.inactive }
    {
        self.inactive
    }

    /// The answer that was decoded last.
    pub fn answer(&self) -> &FrontendAnswer
        ensures { result.now ≡ self.now.answer }
    {
        &self.answer
    }
}

/// The same frontend with the profile of real backends.
fn standard(mut frontend: FrontendInternal<MemLink>) -> FrontendInternal<MemLink>
    ensures endpoint { endpoint_of result ≡ endpoint_of frontend }
    ensures session { session_of result ≡ record (session_of frontend) { profile = Standard } }
    ensures awaited { awaits result ≡ awaits frontend }
{
    frontend.set_profile(Profile::Standard);
    frontend
}
