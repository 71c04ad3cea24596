//! A backend's session whose link is its caller's, and whose device is its caller's.

ghost use Rattle.std.specs.Prelude.{◌≡◌, ◌≤◌, IfOk, IfErr, is_some};
ghost use Rattle.vhost_c_common.specs.Number.{error_number};
ghost use Rattle.vhost_message.specs.declared.error.Error.TheVariants.{OutOfMemory};

use crate::arguments::{
    fd_of_call, inflight_of, log_of, number_of, ring_fd_of, ring_of, transfer_of, vring_of,
};
use crate::calls::number_of_call;
use crate::regions::{put_config, put_fds, put_name, put_other, put_regions};
use crate::replies::{Form, Reply, form_of};
use std::alloc::Global;
use vhost_backend_req::Backend;
use vhost_backend_req_handler::SessionCore;
use vhost_backend_req_handler_core::{DeviceAnswer, DeviceCall, Laws};
use vhost_c_common::{
    Config, Held, Incoming, Inflight, Outgoing, Refusal, Region, Vring, empty, feature_of,
    hand_out, receive,
};
use vhost_connection::talks_law;
use vhost_gpu_backend_req::GpuBackend;
use vhost_link::{MemLink, PlainHandle};
use vhost_message::{
    Error, HeardReq, MAX_ATTACHED_FD_ENTRIES, MSG_HEADER_SIZE, VhostUserShMemConfig,
};
use vhost_protocol::Profile;

type Outcome<T> = std::result::Result<T, Refusal>;

/// A link in memory is asked once: what it can't do it will not do.
const BUDGET: u32 = 0;

/// A session: what it reads and replies, what is to be sent, how much came of the next request, and the descriptors that came.
#[derive(Drop)]
pub struct Served {
    core: SessionCore<MemLink>,
    outgoing: Outgoing,
    incoming: Incoming,
    /// Those of the call that is to be replied to, and those that nobody will claim.
    held: Held,
    /// The feature that was not active, where the last request was refused for that; else 0.
    inactive: u64,
    /// In which form the call is replied to that is to be replied to.
    form: Form,
    alloc: Global,
}

impl Served {
    ghost use Rattle.vhost_message.specs.declared.limits.TheConstants.{MAX_MSG_TEXT};
    ghost use Rattle.vhost_c_common.specs.Held.{Gets, HandsLoose, Abandons, Released};
    ghost use Rattle.vhost_c_common.specs.Moving.{HandsOut};
    ghost use Rattle.vhost_c_common.specs.View.{Hands, HandsNone, Receives, TakesNone};
    ghost use Rattle.vhost_c_backend.specs.Served.{IsNew, Choosing, Claiming, missing_of, missing_of_request, end_number, is_first, queued, view, remembers, has_call};
    ghost use Rattle.vhost_c_backend.specs.Replies.{form_in};
    ghost use Rattle.vhost_backend_req_handler.specs.Core.{session_in};
    ghost use Rattle.vhost_c_backend.specs.Calls.{call_number};
    ghost use Rattle.vhost_c_backend.specs.Serving.{Request, IsRead, IsServed, IsCall, Nexts, Answering, AnsweringShmem, Concludes, Rests};
    ghost use Rattle.vhost_backend_req_handler_core.specs.declared.call.DeviceCall.{DeviceCall};
    ghost use Rattle.std.specs.Prelude.{Some, None, false};

    /// A new session.
    ///
    /// OutOfMemory: an allocation failed.
    pub fn new(alloc: Global) -> std::result::Result<Served, Error>
        ensures new { IfOk result (λ s. IsNew s) }
        ensures memory { IfErr result (λ e. e ≡ OutOfMemory) }
    {
        let link = MemLink::new(alloc, Vec::new(alloc));
        let Ok(outgoing) = Outgoing::new(alloc) else {
            return Err(Error::OutOfMemory);
        };
        match SessionCore::new(alloc, link, BUDGET) {
            Ok(mut core) => {
                core.set_profile(Profile::Standard);
                Ok(Served {
                    core,
                    outgoing,
                    incoming: Incoming::new(),
                    held: Held::new(alloc),
                    inactive: 0,
                    form: Form::Done,
                    alloc,
                })
            }
            Err(error) => Err(error),
        }
    }

    /// Whose behaviour the session has from now on.
    ///
    /// InvalidParam: there is no such profile. NotReplied: a call is to be replied to. After both, nothing changed.
    pub fn choose(&mut self, profile: Option<Profile>) -> Outcome<()>
        ensures { Choosing profile self.old result self.new }
    {
        let Some(profile) = profile else {
            return Err(Refusal::Protocol(Error::InvalidParam));
        };
        if self.core.has_call() {
            return Err(Refusal::NotReplied);
        }
        self.core.set_profile(profile);
        Ok(())
    }

    /// How many bytes are known to be missing of the next request. None are where a call is to be replied to.
    pub fn missing(&self) -> usize
        ensures missing { result ≡ missing_of self.now }
        ensures within { result ≤ MAX_MSG_TEXT }
    {
        if self.core.has_call() {
            return 0;
        }
        self.missing_of_request()
    }

    /// Receives bytes of the next request, with the descriptors that came with the first of them.
    ///
    /// TooManyBytes: they are more than are missing. InvalidParam: descriptors without a byte, more than a message may
    /// have, or a negative one. OutOfMemory: an allocation failed. After each, nothing changed.
    pub fn receive(&mut self, bytes: &[u8], fds: &[i32]) -> Outcome<()>
        ensures received { Receives (missing_of self.old) bytes.now fds.now (view self.old) result (view self.new) }
        ensures reason { IfErr result (λ r. TakesNone (missing_of self.old) bytes.now fds.now r) }
        ensures held { Gets fds.now (is_first self.old) self.old.held result self.new.held }
    {
        if bytes.len() > self.missing() {
            return Err(Refusal::TooManyBytes);
        }
        if let Err(error) = self.held.make_room(bytes, fds) {
            return Err(Refusal::Protocol(error));
        }
        match receive(self.alloc, self.core.endpoint_mut(), bytes, fds) {
            Ok(()) => {
                self.held.arrive(fds, self.incoming.count == 0);
                self.incoming.add(bytes);
                Ok(())
            }
            Err(error) => Err(Refusal::Protocol(error)),
        }
    }

    /// What it means that the stream ended here.
    pub fn end(&self) -> Error
        ensures { error_number result ≡ end_number self.now }
    {
        if self.incoming.count == 0 || self.missing() == 0 {
            return Error::Disconnected;
        }
        if self.incoming.count < MSG_HEADER_SIZE {
            return Error::PartialMessage;
        }
        Error::InvalidMessage
    }

    /// Hands out a piece of what is to be sent; the answer is how many bytes and descriptors. Nothing is left to be sent
    /// where it is 0.
    ///
    /// NoRoom: there is no room for a byte, or not for all descriptors that one may bring. Then nothing changed.
    pub fn hand_out(&mut self, bytes: &mut [u8], fds: &mut [i32]) -> Outcome<(usize, usize)>
        ensures out { IfOk result (λ n. HandsOut (queued self.old) (queued self.new) bytes.new fds.new n) }
        ensures reason { IfErr result (λ r. HandsNone bytes.new fds.new r) }
        ensures refused { IfErr result (λ _. queued self.new ≡ queued self.old) }
        ensures untouched { IfErr result (λ _. (bytes.new ≡ bytes.old) × (fds.new ≡ fds.old)) }
        ensures rest { Hands (view self.old) (view self.new) }
        ensures held { self.new.held ≡ self.old.held }
    {
        if bytes.is_empty() || fds.len() < MAX_ATTACHED_FD_ENTRIES {
            return Err(Refusal::NoRoom);
        }
        let end = self.core.endpoint_mut();
        Ok(hand_out(end, &mut self.outgoing, bytes, fds))
    }

    /// Reads the request that came: the number of the call of the device that it became.
    ///
    /// NotReplied: the call before is still to be replied to. NotYet: bytes are missing. After both, nothing changed. The
    /// errors of a request that is refused; nothing of it is left. SocketBroken with EPROTO: the session has ended.
    pub fn next(&mut self) -> Outcome<u32>
        ensures { Nexts self.old result self.new }
    {
        if self.core.has_call() {
            return Err(Refusal::NotReplied);
        }
        if self.missing_of_request() > 0 {
            return Err(Refusal::NotYet);
        }
        talks_law();
        self.incoming = Incoming::new();
        match self.core.begin() {
            Ok(()) => {
                self.inactive = 0;
                match Served::asked(&self.core) {
                    Some((number, form)) => {
                        self.form = form;
                        Ok(number)
                    }
                    None => Err(Refusal::OtherCall),
                }
            }
            Err(error) => {
                empty(self.core.endpoint_mut());
                self.held.release();
                self.inactive = feature_of(&error);
                Err(Refusal::Protocol(error))
            }
        }
    }

    /// The number of the call that is to be replied to, and in which form it is replied to.
    fn asked(core: &SessionCore<MemLink>) -> Option<(u32, Form)>
        ensures { (m : Request) → IsRead m core.now → (c : DeviceCall) × (result ≡ Some (call_number c, form_in c)) × IsCall (session_in core.now) m c }
    {
        match core.call() {
            Some(call) => Some((number_of_call(&call), form_of(&call))),
            None => None,
        }
    }

    /// How many bytes are known to be missing of the next request, where no call is to be replied to.
    fn missing_of_request(&self) -> usize
        ensures missing { result ≡ missing_of_request self.now }
        ensures within { result ≤ MAX_MSG_TEXT }
    {
        self.incoming
            .missing_by::<HeardReq>(self.core.hears_any_number())
    }

    /// The call that is to be replied to, if there is one. Its arguments are lent.
    fn call(&self) -> Option<DeviceCall<'_>>
        ensures one { (m : Request) → IsServed m self.now → (c : DeviceCall) × (result ≡ Some c) × IsCall (remembers self.now) m c }
        ensures none { has_call self.now ≡ false → result ≡ None }
    {
        if self.core.has_call() {
            return self.core.call();
        }
        None
    }

    /// Its file descriptors.
    fn handles(&self) -> &[PlainHandle]
        ensures { (m : Request) → IsServed m self.now → result.now ≡ m.handles }
    {
        self.core.handles()
    }

    /// Whether the session has ended, since it could not answer whoever waits: it reads nothing more, each later call says so,
    /// and its socket is to be closed.
    pub fn ended(&self) -> bool
        ensures { result ≡ is_some (remembers self.now).failed }
    {
        self.core.failed().is_some()
    }

    /// The feature that was not active, where the last request was refused for that; else 0.
    pub fn inactive(&self) -> u64
        ensures { result ≡ self.now.inactive }
    {
        self.inactive
    }

    /// Replies to the call that is to be replied to.
    ///
    /// NothingAsked: there is none. OtherCall: it is replied to in another form. InvalidParam: an argument is not allowed.
    /// OutOfMemory: an allocation failed. After these, nothing changed. The other errors are those of the session, and the call
    /// was replied to.
    pub fn reply(&mut self, reply: Reply<'_>) -> Outcome<()>
        ensures { Answering reply.entry self.old result self.new }
    {
        let Some(form) = self.form() else {
            return Err(Refusal::NothingAsked);
        };
        match form.answer(self.alloc, reply) {
            Ok(answer) => match self.conclude(answer) {
                Ok(()) => Ok(()),
                Err(error) => Err(Refusal::Protocol(error)),
            },
            Err(refusal) => Err(refusal),
        }
    }

    /// Replies by the regions of shared memory: how many there are, and the size of each.
    ///
    /// The errors are those of `reply`.
    pub fn reply_shmem(&mut self, count: u32, sizes: &[u64]) -> Outcome<()>
        ensures { AnsweringShmem count sizes.now self.old result self.new }
    {
        let Some(form) = self.form() else {
            return Err(Refusal::NothingAsked);
        };
        match form {
            Form::Shmem => {
                if sizes.len() != 256 {
                    return Err(Refusal::Protocol(Error::InvalidParam));
                }
                self.core.set_shmem(VhostUserShMemConfig::new(count, sizes));
                match self.conclude(DeviceAnswer::Shmem(Ok(()))) {
                    Ok(()) => Ok(()),
                    Err(error) => Err(Refusal::Protocol(error)),
                }
            }
            _ => Err(Refusal::OtherCall),
        }
    }

    /// In which form the call is replied to that is to be replied to.
    fn form(&self) -> Option<Form>
        ensures one { (m : Request) → IsServed m self.now → (c : DeviceCall) × (result ≡ Some (form_in c)) × IsCall (remembers self.now) m c }
        ensures none { has_call self.now ≡ false → result ≡ None }
    {
        if self.core.has_call() {
            return Some(self.form);
        }
        None
    }

    /// What follows from a device's answer goes out.
    fn conclude(&mut self, answer: DeviceAnswer<PlainHandle>) -> std::result::Result<(), Error>
        ensures concluded { (m : Request) → IsServed m self.old → Concludes m self.old.core.service.shmem answer self.old self.new result }
        ensures rest { Rests self.old self.new }
        ensures held { Released self.old.held self.new.held }
    {
        talks_law();
        Laws::<PlainHandle, Backend<MemLink>, GpuBackend<MemLink>>::concludes_row();
        self.held.release();
        self.core.conclude(answer)
    }

    /// Claims a descriptor of the call that is to be replied to: it came with the first byte of its request, and is the caller's
    /// from now on.
    ///
    /// OtherCall: no call is to be replied to, or none of its descriptors has this number that was not claimed. Then nothing
    /// changed.
    pub fn claim(&mut self, fd: i32) -> Outcome<()>
        ensures { Claiming fd self.old result self.new }
    {
        if !self.core.has_call() {
            return Err(Refusal::OtherCall);
        }
        if self.held.claim(fd) {
            Ok(())
        } else {
            Err(Refusal::OtherCall)
        }
    }

    /// Hands out descriptors that nobody will claim, to the front of a place: how many. They are the caller's from now on, which
    /// closes them. None is left where it is 0 and the place has room.
    pub fn unclaimed(&mut self, place: &mut [i32]) -> usize
        ensures out { HandsLoose self.old.held place.old result place.new self.new.held }
        ensures rest { self.new ≡ record self.old { held = self.new.held } }
    {
        self.held.hand_out(place)
    }

    /// The rest of the request that is received will never come: nobody will claim what came with it. A call that is to be replied
    /// to keeps its own.
    pub fn abandon(&mut self)
        ensures abandoned { Abandons (has_call self.old) self.old.held self.new.held }
        ensures rest { self.new ≡ record self.old { held = self.new.held } }
    {
        if !self.core.has_call() {
            self.held.release();
        }
    }
}

/// The arguments of the call that is to be replied to, by its form.
///
/// OtherCall: no call is to be replied to, or it has arguments of another form.
impl Served {
    ghost use Rattle.vhost_c_backend.specs.Arguments.{number_arg, ring_arg, vring_arg, ring_fd_arg, fd_arg, inflight_arg, transfer_arg, log_arg, PutsRegions, PutsConfig, PutsName, PutsOther, PutsFds};
    ghost use Rattle.vhost_c_backend.specs.Serving.{Tells, Puts};

    /// A number, or features.
    pub fn number(&self) -> Outcome<u64>
        ensures { Tells (λ hs c. number_arg c) self.now result }
    {
        match self.call() {
            Some(call) => number_of(&call).ok_or(Refusal::OtherCall),
            None => Err(Refusal::OtherCall),
        }
    }

    /// The index of a ring, and a number.
    pub fn ring(&self) -> Outcome<(u32, u32)>
        ensures { Tells (λ hs c. ring_arg c) self.now result }
    {
        match self.call() {
            Some(call) => ring_of(&call).ok_or(Refusal::OtherCall),
            None => Err(Refusal::OtherCall),
        }
    }

    /// The index of a ring, and where it lies.
    pub fn vring(&self) -> Outcome<(u32, Vring)>
        ensures { Tells (λ hs c. vring_arg c) self.now result }
    {
        match self.call() {
            Some(call) => vring_of(&call).ok_or(Refusal::OtherCall),
            None => Err(Refusal::OtherCall),
        }
    }

    /// The index of a ring, and a file descriptor; -1: none.
    pub fn ring_fd(&self) -> Outcome<(u32, i32)>
        ensures { Tells ring_fd_arg self.now result }
    {
        match self.call() {
            Some(call) => ring_fd_of(&call, self.handles()).ok_or(Refusal::OtherCall),
            None => Err(Refusal::OtherCall),
        }
    }

    /// Writes regions to the start of a place: how many there are, and whether postcopy listens.
    ///
    /// NoRoom: the place is too small. After each error, nothing was written.
    pub fn regions(&self, places: &mut [Region]) -> Outcome<(usize, bool)>
        ensures { Puts PutsRegions self.now places.old places.new result }
    {
        match self.call() {
            Some(call) => put_regions(&call, self.handles(), places),
            None => Err(Refusal::OtherCall),
        }
    }

    /// Writes bytes of the configuration space to the start of a place: how many there are, and which part they are.
    ///
    /// NoRoom: the place is too small. After each error, nothing was written.
    pub fn config(&self, place: &mut [u8]) -> Outcome<(usize, Config)>
        ensures { Puts (λ hs c. PutsConfig c) self.now place.old place.new result }
    {
        match self.call() {
            Some(call) => put_config(&call, place),
            None => Err(Refusal::OtherCall),
        }
    }

    /// The socket of a channel.
    pub fn fd(&self) -> Outcome<i32>
        ensures { Tells fd_arg self.now result }
    {
        match self.call() {
            Some(call) => fd_of_call(&call, self.handles()).ok_or(Refusal::OtherCall),
            None => Err(Refusal::OtherCall),
        }
    }

    /// Writes the name of a shared object to the start of a place.
    ///
    /// NoRoom: the place is too small. After each error, nothing was written.
    pub fn name_to(&self, place: &mut [u8]) -> Outcome<()>
        ensures { Puts (λ hs c. PutsName c) self.now place.old place.new result }
    {
        match self.call() {
            Some(call) => put_name(&call, place),
            None => Err(Refusal::OtherCall),
        }
    }

    /// The inflight region, and the file descriptor that maps it; -1: none.
    pub fn inflight(&self) -> Outcome<(Inflight, i32)>
        ensures { Tells inflight_arg self.now result }
    {
        match self.call() {
            Some(call) => inflight_of(&call, self.handles()).ok_or(Refusal::OtherCall),
            None => Err(Refusal::OtherCall),
        }
    }

    /// The direction and the phase of a transfer of the device's state, and its file descriptor.
    pub fn transfer(&self) -> Outcome<(u32, u32, i32)>
        ensures { Tells transfer_arg self.now result }
    {
        match self.call() {
            Some(call) => transfer_of(&call, self.handles()).ok_or(Refusal::OtherCall),
            None => Err(Refusal::OtherCall),
        }
    }

    /// The log.
    pub fn log(&self) -> Outcome<Region>
        ensures { Tells log_arg self.now result }
    {
        match self.call() {
            Some(call) => log_of(&call, self.handles()).ok_or(Refusal::OtherCall),
            None => Err(Refusal::OtherCall),
        }
    }

    /// Writes the body of a request without a call of its own to the start of a place: how long it is, and its number.
    ///
    /// NoRoom: the place is too small. After each error, nothing was written.
    pub fn other(&self, place: &mut [u8]) -> Outcome<(usize, u32)>
        ensures { Puts (λ hs c. PutsOther c) self.now place.old place.new result }
    {
        match self.call() {
            Some(call) => put_other(&call, place),
            None => Err(Refusal::OtherCall),
        }
    }

    /// Writes all file descriptors of such a request to the start of a place: how many there are.
    ///
    /// NoRoom: the place is too small. After each error, nothing was written.
    pub fn fds(&self, place: &mut [i32]) -> Outcome<(usize, ())>
        ensures { Puts PutsFds self.now place.old place.new result }
    {
        match self.call() {
            Some(call) => put_fds(&call, self.handles(), place),
            None => Err(Refusal::OtherCall),
        }
    }
}
