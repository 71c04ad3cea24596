//! A frontend and a handler joined over two links in memory.

ghost use Rattle.std.specs.Prelude.{◌≡◌, Bool, None, IfOk, IfErr};
ghost use Rattle.vhost_joined.specs.declared.halt.Halt.TheVariants.{OutOfMemory};
ghost use Rattle.vhost_device.specs.Reached.{by_trait};

use crate::halt::{Halt, Stop};
use crate::sides::Sides;
use std::alloc::Global;
use std::marker::Model;
use vhost_device::VhostUserBackendReqHandlerMut;
use vhost_frontend_core::{FrontendAnswer, FrontendCall, Profile};
use vhost_link::{Cut, MemLink, PlainHandle};

/// A frontend and a handler joined over two links in memory, with a device behind the handler.
#[derive(Drop)]
pub struct Joined<D: Drop> {
    sides: Sides<D>,
    stopped: Option<Stop>,
}

impl<D: Drop> Model for Joined<D> {
    ghost use Rattle.std.specs.Prelude.{◌≡◌, None};
    ghost use Rattle.vhost_joined.specs.Joined.{View};
    ghost use Rattle.vhost_joined.specs.Sides.{parts_of, as_view, IsSound};

    ghost Value = { View D };

    ghost view = { λ run. as_view (parts_of run.sides) run.stopped };

    ghost invariant = { λ run. run.stopped ≡ None → IsSound (parts_of run.sides) };
}

impl<D: VhostUserBackendReqHandlerMut<Link = MemLink>> Joined<D> {
    ghost use Rattle.vhost_frontend_core.specs.Values.{call_of, answer_of};
    ghost use Rattle.vhost_joined.specs.Joined.{IsReady, Steps, StopsAtEnd};
    ghost use Rattle.vhost_joined.specs.Lists.{IsListedFor};
    ghost use Rattle.vhost_joined.specs.Lockstep.{RunsCalls};
    ghost use Rattle.vhost_joined.specs.Sides.{as_view, fresh_parts};

    /// Two new sessions over two new links, which move bytes or fail as the scripts say: the first is the frontend's. The
    /// device has at most so many queues, and each message may use at most so many retries.
    ///
    /// `Halt::OutOfMemory`: an allocation failed.
    #[inline(never)]
    pub fn new(
        alloc: Global,
        device: D,
        max_queue_num: u64,
        budget: u32,
        scripts: (Vec<Cut>, Vec<Cut>),
    ) -> Result<Self, Halt>
        ensures fresh { IfOk result (λ run. run ≡ as_view (fresh_parts device max_queue_num budget scripts.0.items scripts.1.items) None) }
        ensures ready { IfOk result (λ run. (bit : Bool) → IsReady bit run) }
        ensures memory { IfErr result (λ halt. halt ≡ OutOfMemory) }
    {
        let (asking, serving) = scripts;
        match Sides::new(alloc, device, max_queue_num, budget, asking, serving) {
            Ok(sides) => Ok(Joined {
                sides,
                stopped: None,
            }),
            Err(_) => Err(Halt::OutOfMemory),
        }
    }

    /// Whose behaviour both sides have from now on: at first that of the crate `vhost`. A run that was ready still is.
    pub fn set_profile(&mut self, profile: Profile)
        ensures profile { self.new ≡ record self.old { frontend = record self.old.frontend { profile = profile }; session = record self.old.session { profile = profile } } }
        ensures ready { (bit : Bool) → IsReady bit self.old → IsReady bit self.new }
    {
        self.sides.set_profile(profile);
    }

    /// Does one call: the request goes to the handler, which calls the device, and the reply comes back.
    ///
    /// `Halt::Stopped`: the run has stopped before. `Halt::OutOfMemory`: an allocation failed before the first byte, of a
    /// descriptor buffer that a message's descriptors took away, or of room for the answer of a call that makes some. In
    /// both cases nothing changed but that descriptor buffers may be there again.
    pub fn step(&mut self, call: &FrontendCall) -> Result<FrontendAnswer, Halt>
        ensures step { Steps (by_trait D.gives) self.old (call_of call.now) result self.new }
        ensures listed { IfOk result (λ answer. IsListedFor (call_of call.now) (answer_of answer)) }
        ensures ends { StopsAtEnd self.old self.new }
    {
        if self.stopped.is_some() {
            return Err(Halt::Stopped);
        }
        if self.sides.prepare().is_err() {
            return Err(Halt::OutOfMemory);
        }
        match self.sides.exchange(call) {
            Ok(done) => {
                self.stopped = done.stop;
                Ok(done.answer)
            }
            Err(halt) => Err(halt),
        }
    }

    /// Does calls one after another, until one is not done, and appends their answers to `out`.
    ///
    /// `Halt::OutOfMemory`: also where `out` could not grow, before the first call.
    pub fn run(&mut self, calls: &[FrontendCall], out: &mut Vec<FrontendAnswer>) -> Result<(), Halt>
        ensures { RunsCalls (by_trait D.gives) self.old calls.now out.old.items result out.new.items self.new }
    {
        if out.reserve(calls.len()).is_err() {
            return Err(Halt::OutOfMemory);
        }
        for call in calls {
            let answer = self.step(call)?;
            out.push_reserved(answer);
        }
        Ok(())
    }

    /// Whether and why the run has stopped.
    pub fn stopped(&self) -> Option<Stop>
        ensures { result ≡ self.now.stopped }
    {
        self.stopped
    }

    /// The bytes of the request that the last answered step wrote, and the descriptors on the first of them.
    pub fn last_request(&self) -> (&[u8], &[PlainHandle])
        ensures bytes { result.0.now ≡ self.now.request.bytes }
        ensures handles { result.1.now ≡ self.now.request.handles }
    {
        let request = &self.sides.request;
        (request.bytes(), request.handles())
    }

    /// The bytes of the reply that the last answered step wrote, and the descriptors on the first of them.
    pub fn last_reply(&self) -> (&[u8], &[PlainHandle])
        ensures bytes { result.0.now ≡ self.now.reply.bytes }
        ensures handles { result.1.now ≡ self.now.reply.handles }
    {
        let reply = &self.sides.reply;
        (reply.bytes(), reply.handles())
    }
}
