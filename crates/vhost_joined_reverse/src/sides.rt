//! Both sides of a joined run, and one exchange between them.

ghost use Rattle.std.specs.Prelude.{◌≡◌, ◌||◌, Some, None, Ok, IfOk, IfErr};
ghost use Rattle.vhost_backend_req.specs.Halves.{input_of};
ghost use Rattle.vhost_message.specs.declared.error.Error.TheVariants.{OutOfMemory};

use std::alloc::Global;
use vhost_backend_req::{Asked, BackendInternal, ReverseCall};
use vhost_frontend_req_handler::{FrontendReqCore, VhostUserFrontendReqHandlerMut};
use vhost_joined::{Stop, Wire, carry, copy};
use vhost_link::{Cut, MemLink, PlainHandle};
use vhost_message::{BackendReq, Error, HandlerResult, IoError, Result, VhostUserMsgHeader};

type Header = VhostUserMsgHeader<BackendReq>;

/// What a step answered, and why the run stops with it, if it does.
#[derive(Drop)]
pub struct Exchanged {
    pub answer: HandlerResult<u64>,
    pub stop: Option<Stop>,
}

/// Both sides over their links, what serves the requests, and copies of what the last step wrote.
#[derive(Drop)]
pub struct Sides<D: Drop> {
    backend: BackendInternal<MemLink>,
    server: FrontendReqCore<MemLink>,
    device: D,
    pub request: Wire,
    pub reply: Wire,
}

impl<D: VhostUserFrontendReqHandlerMut<Handle = PlainHandle>> Sides<D> {
    ghost use Rattle.vhost_backend_req.specs.Channel.{channel};
    ghost use Rattle.vhost_frontend_req_handler.specs.Core.{endpoint_of};
    ghost use Rattle.vhost_joined.specs.Text.{no_text};
    ghost use Rattle.vhost_joined.specs.Wire.{text_in};
    ghost use Rattle.vhost_joined_reverse.specs.Sides.{parts_of, fresh_parts, HaveLists, Exchanges, Serves, HandsOver, EndsUnsent, stop_of, acknowledging};

    /// Two new sides over two new links, which move bytes or fail as the scripts say.
    ///
    /// OutOfMemory: an allocation failed.
    pub fn new(
        alloc: Global,
        device: D,
        budget: u32,
        asking: Vec<Cut>,
        serving: Vec<Cut>,
    ) -> Result<Self>
        ensures fresh { IfOk result (λ sides. parts_of sides ≡ fresh_parts device budget asking.items serving.items) }
        ensures memory { IfErr result (λ e. e ≡ OutOfMemory) }
    {
        let Ok((request, reply)) = Wire::pair(alloc) else {
            return Err(Error::OutOfMemory);
        };
        Ok(Sides {
            backend: BackendInternal::from_stream(alloc, MemLink::new(alloc, asking), budget)?,
            server: FrontendReqCore::new(alloc, MemLink::new(alloc, serving), budget)?,
            device,
            request,
            reply,
        })
    }

    /// Allocates what a step may need before its first byte.
    ///
    /// OutOfMemory: an allocation failed.
    pub fn prepare(&mut self) -> Result<()>
        ensures lists { IfOk result (λ _. HaveLists (parts_of self.new)) }
        ensures asking { (parts_of self.new).channel.endpoint ≡ record (parts_of self.old).channel.endpoint { list = (parts_of self.new).channel.endpoint.list } }
        ensures channel { (parts_of self.new).channel ≡ record (parts_of self.old).channel { endpoint = (parts_of self.new).channel.endpoint } }
        ensures serving { (parts_of self.new).serving ≡ record (parts_of self.old).serving { list = (parts_of self.new).serving.list } }
        ensures rest { parts_of self.new ≡ record (parts_of self.old) { channel = (parts_of self.new).channel; serving = (parts_of self.new).serving } }
    {
        self.backend.endpoint_mut().make_list()?;
        self.server.endpoint_mut().make_list()
    }

    /// Sets a flag, or does a call whose descriptor buffers were allocated.
    pub fn exchange(&mut self, call: &ReverseCall<PlainHandle>) -> Exchanged
        requires { HaveLists (parts_of self.old) }
        ensures { Exchanges D.gives (input_of call.now) (parts_of self.old) result (parts_of self.new) }
    {
        match self.backend.ask_half(call) {
            Ok(Asked::Sent(sent)) => self.serve(sent),
            Ok(Asked::Set) => self.set(call),
            Err(error) => self.unsent(error),
        }
    }

    /// Ends a call that set a flag of the backend. The flag for acknowledgements is that of both sides.
    fn set(&mut self, call: &ReverseCall<PlainHandle>) -> Exchanged
        ensures answer { (result.answer ≡ Ok 0) × (result.stop ≡ None) }
        ensures same { parts_of self.new ≡ record (parts_of self.old) { server = acknowledging (input_of call.now) (parts_of self.old).server; request = no_text; reply = no_text } }
    {
        if let ReverseCall::SetReplyAck(on) = call {
            self.server.set_reply_ack_flag(*on);
        }
        self.request.clear();
        self.reply.clear();
        Exchanged {
            answer: Ok(0),
            stop: None,
        }
    }

    /// Ends a call whose request was not sent.
    fn unsent(&mut self, error: IoError) -> Exchanged
        ensures { EndsUnsent error (parts_of self.old) result (parts_of self.new) }
    {
        self.reply.clear();
        copy(self.backend.endpoint_mut(), &mut self.request);
        Exchanged {
            answer: Err(error),
            stop: self.backend.faulted().then_some(Stop::Premise),
        }
    }

    /// Has a request served that was sent, and receives its reply.
    fn serve(&mut self, sent: Option<Header>) -> Exchanged
        ensures { Serves D.gives sent (parts_of self.old) result (parts_of self.new) }
    {
        copy(self.backend.endpoint_mut(), &mut self.request);
        let served = self.hand_over();
        let answer = self.backend.take_half(sent);
        let Some(served) = served else {
            return Exchanged {
                answer,
                stop: Some(Stop::Premise),
            };
        };
        let stop = self.stop_after(&served);
        Exchanged { answer, stop }
    }

    /// Carries what the backend sent to the frontend, has it served, and carries back what the frontend sent. None: an
    /// allocation failed on the way.
    fn hand_over(&mut self) -> Option<Result<u64>>
        ensures { HandsOver D.gives (parts_of self.old) result (parts_of self.new) }
    {
        self.reply.clear();
        if carry(self.backend.endpoint_mut(), self.server.endpoint_mut()).is_err() {
            return None;
        }
        let served = self.server.handle_request(&mut self.device);
        copy(self.server.endpoint_mut(), &mut self.reply);
        if carry(self.server.endpoint_mut(), self.backend.endpoint_mut()).is_err() {
            return None;
        }
        Some(served)
    }

    /// Why the run stops once the frontend answered so.
    fn stop_after(&self, served: &Result<u64>) -> Option<Stop>
        ensures { result ≡ stop_of ((channel self.now.backend).endpoint.faulted || (endpoint_of self.now.server).faulted) served.now (text_in self.now.reply).bytes }
    {
        if self.backend.faulted() || self.server.faulted() {
            return Some(Stop::Premise);
        }
        match served {
            Err(_) if self.reply.bytes().is_empty() => Some(Stop::Table),
            _ => None,
        }
    }
}
