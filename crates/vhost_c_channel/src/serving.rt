//! A frontend's session of the backend channel, whose link is its caller's.

ghost use Rattle.std.specs.Prelude.{◌≡◌, ◌≤◌, IfOk, IfErr};
ghost use Rattle.vhost_c_common.specs.Number.{error_number};
ghost use Rattle.vhost_c_channel.specs.Serving.{is_handed};
ghost use Rattle.vhost_message.specs.declared.error.Error.TheVariants.{OutOfMemory};

use crate::arguments::{fd_of_call, mmap_of, number_of_call, put_name};
use crate::records::Mmap;
use std::alloc::Global;
use vhost_c_common::{Held, Incoming, Outgoing, Refusal, empty, hand_out, receive};
use vhost_connection::talks_law;
use vhost_frontend_req_handler::{FrontendReqCore, FrontendSideCall};
use vhost_link::{MemLink, PlainHandle};
use vhost_message::{BackendReq, Error, HandlerResult, MAX_ATTACHED_FD_ENTRIES, MSG_HEADER_SIZE};

type Outcome<T> = std::result::Result<T, Refusal>;

/// A link in memory is asked once: what it can't do it will not do.
const BUDGET: u32 = 0;

/// A session: what it reads and replies, the call that was read last, what is to be sent, how much came of the next request, and
/// the descriptors that came.
#[derive(Drop)]
pub struct ChannelServer {
    core: FrontendReqCore<MemLink>,
    call: Option<FrontendSideCall<PlainHandle>>,
    outgoing: Outgoing,
    incoming: Incoming,
    /// Those of the call that is to be replied to, and those that nobody will claim.
    held: Held,
    alloc: Global,
}

impl ChannelServer {
    ghost use Rattle.std.specs.Prelude.{None, false};
    ghost use Rattle.std.specs.Option.{IsSomeAnd};
    ghost use Rattle.vhost_message.specs.declared.limits.TheConstants.{MAX_MSG_TEXT};
    ghost use Rattle.vhost_protocol.specs.IoError.{seen_io_result};
    ghost use Rattle.vhost_link.specs.declared.plain.PlainHandle.{PlainHandle};
    ghost use Rattle.vhost_frontend_req_handler.specs.declared.call.FrontendSideCall.{FrontendSideCall};
    ghost use Rattle.vhost_c_common.specs.Held.{Gets, HandsLoose, Abandons};
    ghost use Rattle.vhost_c_common.specs.Moving.{HandsOut};
    ghost use Rattle.vhost_c_channel.specs.Arguments.{mmap_arg, fd_arg, PutsName};
    ghost use Rattle.vhost_c_common.specs.View.{Hands, HandsNone, Receives, TakesNone};
    ghost use Rattle.vhost_c_channel.specs.Serving.{Request, IsServed, IsNew, Acknowledges, Claiming, missing_of, end_number, is_first, queued, view, Nexts, Tells, PutsInto, Answering, has_call};

    /// A new session, without acknowledgements.
    ///
    /// OutOfMemory: an allocation failed.
    pub fn new(alloc: Global) -> std::result::Result<ChannelServer, Error>
        ensures new { IfOk result (λ s. IsNew s) }
        ensures memory { IfErr result (λ e. e ≡ OutOfMemory) }
    {
        let link = MemLink::new(alloc, Vec::new(alloc));
        let Ok(outgoing) = Outgoing::new(alloc) else {
            return Err(Error::OutOfMemory);
        };
        match FrontendReqCore::new(alloc, link, BUDGET) {
            Ok(core) => Ok(ChannelServer {
                core,
                call: None,
                outgoing,
                incoming: Incoming::new(),
                held: Held::new(alloc),
                alloc,
            }),
            Err(error) => Err(error),
        }
    }

    /// Whether requests that ask for it are replied to.
    pub fn acknowledge(&mut self, on: bool)
        ensures { Acknowledges on self.old self.new }
    {
        self.core.set_reply_ack_flag(on);
    }

    /// How many bytes are known to be missing of the next request. None are where a call is to be replied to.
    pub fn missing(&self) -> usize
        ensures missing { result ≡ missing_of self.now }
        ensures within { result ≤ MAX_MSG_TEXT }
    {
        if self.core.has_call() {
            return 0;
        }
        self.incoming.missing_by::<BackendReq>(false)
    }

    /// Receives bytes of the next request, with the descriptors that came with the first of them.
    ///
    /// TooManyBytes: they are more than are missing. InvalidParam: descriptors without a byte, more than a message may
    /// have, or a negative one. OutOfMemory: an allocation failed. After each, nothing changed.
    pub fn receive(&mut self, bytes: &[u8], fds: &[i32]) -> Outcome<()>
        ensures received { Receives (missing_of self.old) bytes.now fds.now (view self.old) result (view self.new) }
        ensures reason { IfErr result (λ r. TakesNone (missing_of self.old) bytes.now fds.now r) }
        ensures held { Gets fds.now (is_first self.old) self.old.held result self.new.held }
    {
        if bytes.len() > self.missing() {
            return Err(Refusal::TooManyBytes);
        }
        if let Err(error) = self.held.make_room(bytes, fds) {
            return Err(Refusal::Protocol(error));
        }
        match receive(self.alloc, self.core.endpoint_mut(), bytes, fds) {
            Ok(()) => {
                self.held.arrive(fds, self.incoming.count == 0);
                self.incoming.add(bytes);
                Ok(())
            }
            Err(error) => Err(Refusal::Protocol(error)),
        }
    }

    /// What it means that the stream ended here.
    pub fn end(&self) -> Error
        ensures { error_number result ≡ end_number self.now }
    {
        if self.incoming.count == 0 || self.missing() == 0 {
            return Error::Disconnected;
        }
        if self.incoming.count < MSG_HEADER_SIZE {
            return Error::PartialMessage;
        }
        Error::InvalidMessage
    }

    /// Hands out a piece of what is to be sent; the answer is how many bytes and descriptors. Nothing is left to be sent
    /// where it is 0.
    ///
    /// NoRoom: there is no room for a byte, or not for all descriptors that one may bring. Then nothing changed.
    pub fn hand_out(&mut self, bytes: &mut [u8], fds: &mut [i32]) -> Outcome<(usize, usize)>
        ensures out { IfOk result (λ n. HandsOut (queued self.old) (queued self.new) bytes.new fds.new n) }
        ensures reason { IfErr result (λ r. HandsNone bytes.new fds.new r) }
        ensures refused { IfErr result (λ _. queued self.new ≡ queued self.old) }
        ensures untouched { IfErr result (λ _. (bytes.new ≡ bytes.old) × (fds.new ≡ fds.old)) }
        ensures rest { Hands (view self.old) (view self.new) }
        ensures held { self.new.held ≡ self.old.held }
    {
        if bytes.is_empty() || fds.len() < MAX_ATTACHED_FD_ENTRIES {
            return Err(Refusal::NoRoom);
        }
        let end = self.core.endpoint_mut();
        Ok(hand_out(end, &mut self.outgoing, bytes, fds))
    }

    /// Reads the request that came: the number of the call that it became.
    ///
    /// NotReplied: the call before is still to be replied to. NotYet: bytes are missing. After both, nothing changed. The
    /// errors of a request that is refused; nothing of it is left.
    pub fn next(&mut self) -> Outcome<u32>
        ensures { Nexts self.old result self.new }
    {
        if self.core.has_call() {
            return Err(Refusal::NotReplied);
        }
        if self.incoming.missing_by::<BackendReq>(false) > 0 {
            return Err(Refusal::NotYet);
        }
        talks_law();
        self.incoming = Incoming::new();
        match self.core.begin() {
            Ok(call) => {
                let number = number_of_call(&call);
                self.call = Some(call);
                Ok(number)
            }
            Err(error) => {
                empty(self.core.endpoint_mut());
                self.held.release();
                Err(Refusal::Protocol(error))
            }
        }
    }

    /// Replies to the call that is to be replied to, by a number, or by an error: what is sent for it is minus the number of the
    /// system's error, or -22 where it has none.
    ///
    /// NothingAsked: there is none, and nothing changed. The other errors are those of the link, and the call was replied to.
    pub fn reply(&mut self, answer: HandlerResult<u64>) -> Outcome<()>
        ensures { Answering (seen_io_result answer) self.old result self.new }
    {
        if !self.core.has_call() {
            return Err(Refusal::NothingAsked);
        }
        talks_law();
        self.held.release();
        match self.core.conclude(answer) {
            Ok(_) => Ok(()),
            Err(error) => {
                if is_handed_on(&error) {
                    return Ok(());
                }
                Err(Refusal::Protocol(error))
            }
        }
    }

    /// Claims a descriptor of the call that is to be replied to: it came with the first byte of its request, and is the caller's
    /// from now on.
    ///
    /// OtherCall: no call is to be replied to, or none of its descriptors has this number that was not claimed. Then nothing
    /// changed.
    pub fn claim(&mut self, fd: i32) -> Outcome<()>
        ensures { Claiming fd self.old result self.new }
    {
        if !self.core.has_call() {
            return Err(Refusal::OtherCall);
        }
        if self.held.claim(fd) {
            Ok(())
        } else {
            Err(Refusal::OtherCall)
        }
    }

    /// Hands out descriptors that nobody will claim, to the front of a place: how many. They are the caller's from now on, which
    /// closes them. None is left where it is 0 and the place has room.
    pub fn unclaimed(&mut self, place: &mut [i32]) -> usize
        ensures out { HandsLoose self.old.held place.old result place.new self.new.held }
        ensures rest { self.new ≡ record self.old { held = self.new.held } }
    {
        self.held.hand_out(place)
    }

    /// The rest of the request that is received will never come: nobody will claim what came with it. A call that is to be replied
    /// to keeps its own.
    pub fn abandon(&mut self)
        ensures abandoned { Abandons (has_call self.old) self.old.held self.new.held }
        ensures rest { self.new ≡ record self.old { held = self.new.held } }
    {
        if !self.core.has_call() {
            self.held.release();
        }
    }

    /// The call that is to be replied to, if there is one.
    fn call(&self) -> Option<&FrontendSideCall<PlainHandle>>
        ensures one { (m : Request) → (c : FrontendSideCall PlainHandle) → IsServed m c self.now → IsSomeAnd result (λ r. r.now ≡ c) }
        ensures none { has_call self.now ≡ false → result ≡ None }
    {
        if self.core.has_call() {
            return self.call.as_ref();
        }
        None
    }

    /// A mapping.
    ///
    /// OtherCall: no call is to be replied to, or it has none.
    pub fn mmap(&self) -> Outcome<Mmap>
        ensures { Tells mmap_arg self.now result }
    {
        match self.call() {
            Some(call) => mmap_of(call).ok_or(Refusal::OtherCall),
            None => Err(Refusal::OtherCall),
        }
    }

    /// A file descriptor. Its errors are those of `mmap`.
    pub fn fd(&self) -> Outcome<i32>
        ensures { Tells fd_arg self.now result }
    {
        match self.call() {
            Some(call) => fd_of_call(call).ok_or(Refusal::OtherCall),
            None => Err(Refusal::OtherCall),
        }
    }

    /// Writes the name of a shared object to the start of a place.
    ///
    /// NoRoom: the place is too small. The others are those of `mmap`. After each, nothing was written.
    pub fn name_to(&self, place: &mut [u8]) -> Outcome<()>
        ensures { PutsInto self.now place.old place.new result }
    {
        match self.call() {
            Some(call) => put_name(call, place),
            None => Err(Refusal::OtherCall),
        }
    }
}

/// Whether an error is that of an answer, which is handed on to the one who gave it.
fn is_handed_on(error: &Error) -> bool
    ensures { result ≡ is_handed error.now }
{
    match error {
        Error::ReqHandlerError(_) => true,
        _ => false,
    }
}
