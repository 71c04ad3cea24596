//! Both sides of a joined run, and one exchange between them.

ghost use Rattle.std.specs.Prelude.{◌≡◌, ◌||◌, false, Some, None, Ok, IfOk, IfErr};
ghost use Rattle.vhost_message.specs.declared.error.Error.TheVariants.{OutOfMemory};
ghost use Rattle.vhost_frontend_core.specs.Values.{call_of, answer_of};
ghost use Rattle.vhost_joined.specs.Lists.{IsListedFor};
ghost use Rattle.vhost_joined.specs.Joined.{ends, is_over};
ghost use Rattle.vhost_protocol.specs.Error.{seen_result};
ghost use Rattle.vhost_protocol.specs.declared.asked.Awaited.TheVariants.{Nobody};
ghost use Rattle.vhost_joined.specs.declared.halt.Stop.TheVariants.{Premise};
ghost use Rattle.vhost_device.specs.Reached.{by_trait};

use crate::begin::{new_asking, new_serving};
use crate::halt::{Halt, Stop};
use crate::ways::{carry, copy};
use crate::wire::Wire;
use std::alloc::Global;
use vhost_backend_req_handler::SessionCore;
use vhost_device::VhostUserBackendReqHandlerMut;
use vhost_frontend_core::{
    FrontendAnswer, FrontendCall, FrontendInternal, Profile, Sent, ask, take,
};
use vhost_link::{Cut, MemLink};
use vhost_message::{Error, Result};

/// What a step answered, and why the run stops with it, if it does.
#[derive(Drop)]
pub struct Exchanged {
    pub answer: FrontendAnswer,
    pub stop: Option<Stop>,
}

/// Both sides over their links, the device, and copies of what the last step wrote.
#[derive(Drop)]
pub struct Sides<D: Drop> {
    frontend: FrontendInternal<MemLink>,
    handler: SessionCore<MemLink>,
    device: D,
    pub request: Wire,
    pub reply: Wire,
}

impl<D: VhostUserBackendReqHandlerMut<Link = MemLink>> Sides<D> {
    ghost use Rattle.vhost_backend_req_handler.specs.Core.{endpoint_of as serving_end, session_in as serving_session};
    ghost use Rattle.vhost_frontend_core.specs.Awaiting.{MayAwait};
    ghost use Rattle.vhost_frontend_core.specs.Frontend.{endpoint_of as asking_end, session_of as asking_session, awaits, IsAwaited};
    ghost use Rattle.vhost_frontend_core.specs.Kept.{IsKeptFor};
    ghost use Rattle.vhost_joined.specs.Sides.{parts_of, fresh_parts, has_lists, HaveLists, Exchanges, Serves, HandsOver, EndsUnsent, stop_of};
    ghost use Rattle.vhost_joined.specs.Text.{no_text};
    ghost use Rattle.vhost_joined.specs.Wire.{text_in};
    ghost use Rattle.vhost_protocol.specs.FrontendCall.{Nothing};

    /// Two new sessions over two new links, which move bytes or fail as the scripts say.
    ///
    /// OutOfMemory: an allocation failed.
    #[inline(never)]
    pub fn new(
        alloc: Global,
        device: D,
        max_queue_num: u64,
        budget: u32,
        asking: Vec<Cut>,
        serving: Vec<Cut>,
    ) -> Result<Self>
        ensures fresh { IfOk result (λ sides. parts_of sides ≡ fresh_parts device max_queue_num budget asking.items serving.items) }
        ensures memory { IfErr result (λ e. e ≡ OutOfMemory) }
    {
        let Ok((request, reply)) = Wire::pair(alloc) else {
            return Err(Error::OutOfMemory);
        };
        Ok(Sides {
            frontend: new_asking(alloc, MemLink::new(alloc, asking), max_queue_num, budget)?,
            handler: new_serving(alloc, MemLink::new(alloc, serving), budget)?,
            device,
            request,
            reply,
        })
    }

    /// Whose behaviour both sides have from now on.
    pub fn set_profile(&mut self, profile: Profile)
        ensures { parts_of self.new ≡ record (parts_of self.old) { frontend = record (parts_of self.old).frontend { profile = profile }; session = record (parts_of self.old).session { profile = profile } } }
    {
        self.frontend.set_profile(profile);
        self.handler.set_profile(profile);
    }

    /// Allocates the descriptor buffers that a step may need before its first byte, where they were moved out.
    ///
    /// OutOfMemory: an allocation failed.
    pub fn prepare(&mut self) -> Result<()>
        ensures lists { IfOk result (λ _. HaveLists (parts_of self.new)) }
        ensures short { IfErr result (λ _. has_lists (parts_of self.old) ≡ false) }
        ensures asking { (parts_of self.new).asking ≡ record (parts_of self.old).asking { list = (parts_of self.new).asking.list } }
        ensures serving { (parts_of self.new).serving ≡ record (parts_of self.old).serving { list = (parts_of self.new).serving.list } }
        ensures rest { parts_of self.new ≡ record (parts_of self.old) { asking = (parts_of self.new).asking; serving = (parts_of self.new).serving } }
    {
        self.frontend.endpoint_mut().make_list()?;
        self.handler.endpoint_mut().make_list()
    }

    /// Does a call whose descriptor buffers were allocated.
    ///
    /// `Halt::OutOfMemory`: the call makes room for its answer, and that allocation failed; nothing changed.
    #[inline(never)]
    pub fn exchange(&mut self, call: &FrontendCall) -> std::result::Result<Exchanged, Halt>
        requires lists { HaveLists (parts_of self.old) }
        requires quiet { (parts_of self.old).awaited ≡ Nobody }
        ensures done { Exchanges (by_trait D.gives) (call_of call.now) (parts_of self.old) result (parts_of self.new) }
        ensures listed { IfOk result (λ done. IsListedFor (call_of call.now) (answer_of done.answer)) }
    {
        match ask(&mut self.frontend, call) {
            Ok(Some(sent)) => Ok(self.serve(call, sent)),
            Ok(None) => Ok(self.done_at_once()),
            Err(error) => match error {
                Error::OutOfMemory => Err(Halt::OutOfMemory),
                _ => Ok(self.unsent(error)),
            },
        }
    }

    /// Ends a call for which nothing is sent.
    fn done_at_once(&mut self) -> Exchanged
        ensures answer { (answer_of result.answer ≡ Ok Nothing) × (result.stop ≡ None) }
        ensures same { parts_of self.new ≡ record (parts_of self.old) { request = no_text; reply = no_text } }
    {
        self.request.clear();
        self.reply.clear();
        Exchanged {
            answer: FrontendAnswer::Done,
            stop: None,
        }
    }

    /// Ends a call whose request was not sent.
    #[inline(never)]
    fn unsent(&mut self, error: Error) -> Exchanged
        ensures { EndsUnsent error (parts_of self.old) result (parts_of self.new) }
    {
        self.reply.clear();
        copy(self.frontend.endpoint_mut(), &mut self.request);
        Exchanged {
            answer: FrontendAnswer::Failed(error),
            stop: self.frontend.faulted().then_some(Stop::Premise),
        }
    }

    /// Has a request served that was sent, and receives its reply.
    #[inline(never)]
    fn serve(&mut self, call: &FrontendCall, sent: Sent) -> Exchanged
        requires last { IsAwaited sent self.old.frontend }
        requires awaited { MayAwait (call_of call.now) sent.awaited }
        requires kept { IsKeptFor (call_of call.now) sent.awaited sent.kept }
        ensures served { Serves (by_trait D.gives) (call_of call.now) sent (parts_of self.old) result (parts_of self.new) }
        ensures listed { IsListedFor (call_of call.now) (answer_of result.answer) }
    {
        copy(self.frontend.endpoint_mut(), &mut self.request);
        let Some(served) = self.hand_over() else {
            return Exchanged {
                answer: FrontendAnswer::Failed(Error::OutOfMemory),
                stop: Some(Stop::Premise),
            };
        };
        let answer = take(&mut self.frontend, call, sent);
        let stop = self.stop_after(call, &served);
        Exchanged { answer, stop }
    }

    /// Carries what the frontend sent to the handler, has it served, and carries back what the handler sent. None: an
    /// allocation failed on the way.
    #[inline(never)]
    fn hand_over(&mut self) -> Option<Result<()>>
        ensures handed { HandsOver (by_trait D.gives) (parts_of self.old) result (parts_of self.new) }
        ensures awaited { awaits self.new.frontend ≡ awaits self.old.frontend }
    {
        self.reply.clear();
        if carry(self.frontend.endpoint_mut(), self.handler.endpoint_mut()).is_err() {
            return None;
        }
        let served = self.handler.handle_request(&mut self.device);
        copy(self.handler.endpoint_mut(), &mut self.reply);
        if carry(self.handler.endpoint_mut(), self.frontend.endpoint_mut()).is_err() {
            return None;
        }
        Some(served)
    }

    /// Why the run stops once the handler answered so.
    fn stop_after(&self, call: &FrontendCall, served: &Result<()>) -> Option<Stop>
        ensures { result ≡ stop_of ((asking_end self.now.frontend).faulted || (serving_end self.now.handler).faulted) (asking_session self.now.frontend) (serving_session self.now.handler) (ends (call_of call.now)) served.now (text_in self.now.reply).bytes }
    {
        if self.frontend.faulted() || self.handler.faulted() {
            return Some(Stop::Premise);
        }
        match served {
            Err(Error::OutOfMemory) => Some(Stop::Premise),
            _ => self.is_over(call, served).then_some(Stop::Table),
        }
    }

    /// Whether the run is over once the handler answered so.
    fn is_over(&self, call: &FrontendCall, served: &Result<()>) -> bool
        ensures { result ≡ is_over (asking_session self.now.frontend) (serving_session self.now.handler) (ends (call_of call.now)) (seen_result served.now) (text_in self.now.reply).bytes }
    {
        if self.handler.failed().is_some() {
            return true;
        }
        match served {
            Err(_) if !self.frontend.profile().is_standard() => {
                self.reply.bytes().is_empty() || is_end(call)
            }
            _ => false,
        }
    }
}

/// Whether the call ends postcopy.
fn is_end(call: &FrontendCall) -> bool
    ensures { result ≡ ends (call_of call.now) }
{
    matches!(call, FrontendCall::PostcopyEnd)
}
