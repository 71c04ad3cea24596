//! Both sides of the backend channel joined over two links in memory.

ghost use Rattle.std.specs.Prelude.{◌≡◌, None, IfOk, IfErr};
ghost use Rattle.vhost_joined.specs.declared.halt.Halt.TheVariants.{OutOfMemory};

use crate::sides::Sides;
use std::alloc::Global;
use std::marker::Model;
use vhost_frontend_req_handler::VhostUserFrontendReqHandlerMut;
use vhost_joined::{Halt, Stop};
use vhost_link::{Cut, MemLink, PlainHandle};
use vhost_message::HandlerResult;

/// A call of a joined run, or a flag.
pub type ReverseCall = vhost_backend_req::ReverseCall<PlainHandle>;

/// Both sides of the backend channel joined over two links in memory, with what serves the requests behind one of them.
#[derive(Drop)]
pub struct JoinedReverse<D: Drop> {
    sides: Sides<D>,
    stopped: Option<Stop>,
}

impl<D: Drop> Model for JoinedReverse<D> {
    ghost use Rattle.std.specs.Prelude.{◌≡◌, None};
    ghost use Rattle.vhost_joined_reverse.specs.Joined.{View};
    ghost use Rattle.vhost_joined_reverse.specs.Sides.{parts_of, as_view, IsSound};

    ghost Value = { View D };

    ghost view = { λ run. as_view (parts_of run.sides) run.stopped };

    ghost invariant = { λ run. run.stopped ≡ None → IsSound (parts_of run.sides) };
}

impl<D: VhostUserFrontendReqHandlerMut<Handle = PlainHandle>> JoinedReverse<D> {
    ghost use Rattle.vhost_backend_req.specs.Halves.{input_of};
    ghost use Rattle.vhost_joined_reverse.specs.Joined.{IsReady, Steps};
    ghost use Rattle.vhost_joined_reverse.specs.Lockstep.{RunsReverse};
    ghost use Rattle.vhost_joined_reverse.specs.Sides.{as_view, fresh_parts};

    /// Two new sides over two new links, which move bytes or fail as the scripts say: the first is the backend's. Each
    /// message may use at most so many retries.
    ///
    /// `Halt::OutOfMemory`: an allocation failed.
    pub fn new(
        alloc: Global,
        device: D,
        budget: u32,
        scripts: (Vec<Cut>, Vec<Cut>),
    ) -> Result<Self, Halt>
        ensures fresh { IfOk result (λ run. run ≡ as_view (fresh_parts device budget scripts.0.items scripts.1.items) None) }
        ensures ready { IfOk result (λ run. IsReady run) }
        ensures memory { IfErr result (λ halt. halt ≡ OutOfMemory) }
    {
        let (asking, serving) = scripts;
        match Sides::new(alloc, device, budget, asking, serving) {
            Ok(sides) => Ok(JoinedReverse {
                sides,
                stopped: None,
            }),
            Err(_) => Err(Halt::OutOfMemory),
        }
    }

    /// Does one call: the request goes to the frontend, which serves it, and its reply comes back where one is
    /// awaited. A flag is set at once, and its answer is 0.
    ///
    /// `Halt::Stopped`: the run has stopped before. `Halt::OutOfMemory`: an allocation failed before the first byte.
    /// In both cases nothing changed.
    pub fn step(&mut self, call: &ReverseCall) -> Result<HandlerResult<u64>, Halt>
        ensures { Steps D.gives self.old (input_of call.now) result self.new }
    {
        if self.stopped.is_some() {
            return Err(Halt::Stopped);
        }
        if self.sides.prepare().is_err() {
            return Err(Halt::OutOfMemory);
        }
        let done = self.sides.exchange(call);
        self.stopped = done.stop;
        Ok(done.answer)
    }

    /// Does calls one after another, until one is not done, and appends their answers to `out`.
    ///
    /// `Halt::OutOfMemory`: also where `out` could not grow, before the first call.
    pub fn run(
        &mut self,
        calls: &[ReverseCall],
        out: &mut Vec<HandlerResult<u64>>,
    ) -> Result<(), Halt>
        ensures { RunsReverse D.gives self.old calls.now out.old.items result out.new.items self.new }
    {
        if out.reserve(calls.len()).is_err() {
            return Err(Halt::OutOfMemory);
        }
        for call in calls {
            let answer = self.step(call)?;
            out.push_reserved(answer);
        }
        Ok(())
    }

    /// Whether and why the run has stopped.
    pub fn stopped(&self) -> Option<Stop>
        ensures { result ≡ self.now.stopped }
    {
        self.stopped
    }

    /// The bytes of the request that the last answered step wrote, and the descriptors on the first of them.
    pub fn last_request(&self) -> (&[u8], &[PlainHandle])
        ensures bytes { result.0.now ≡ self.now.request.bytes }
        ensures handles { result.1.now ≡ self.now.request.handles }
    {
        let request = &self.sides.request;
        (request.bytes(), request.handles())
    }

    /// The bytes of the reply that the last answered step wrote, and the descriptors on the first of them.
    pub fn last_reply(&self) -> (&[u8], &[PlainHandle])
        ensures bytes { result.0.now ≡ self.now.reply.bytes }
        ensures handles { result.1.now ≡ self.now.reply.handles }
    {
        let reply = &self.sides.reply;
        (reply.bytes(), reply.handles())
    }
}
