//! A frontend's session between two calls.

ghost use Rattle.std.specs.Prelude.{◌≡◌, IfOk, IfErr};
ghost use Rattle.vhost_message.specs.declared.error.Error.TheVariants.{OutOfMemory};
ghost use Rattle.vhost_connection.specs.State.{fresh};
ghost use Rattle.vhost_protocol.specs.FrontendCall as value;
ghost use Rattle.vhost_protocol.specs.FrontendCall.{new_frontend};
ghost use Rattle.vhost_protocol.specs.declared.asked.Awaited.TheVariants.{Nobody};
ghost use Rattle.vhost_frontend_core.specs.Frontend.{endpoint_of, session_of, awaits};
ghost use Rattle.vhost_frontend_core.specs.Kinds.{IsOf, kind_of, Plain, Number, RingIndex, Bases, Base, Bytes, OneHandle, Area, StateHandle};
ghost use Rattle.vhost_frontend_core.specs.Regions.{bases_seen};
ghost use Rattle.vhost_frontend_core.specs.Values.{call_in, outcome_of};

use bitflags::Flags;
use std::alloc::Global;
use vhost_frontend_core::{Answer, Call, FrontendInternal, Profile};
use vhost_link::Link;
use vhost_message::{
    Error, Result, VhostUserConfig, VhostUserHeaderFlag, VhostUserInflight,
    VhostUserProtocolFeatures, VhostUserShMemConfig,
};

mod calls;

/// A frontend's session that awaits nothing: whoever finds it between two calls finds no answer to another's request on the
/// way. Each call is whole: it sends the request, and receives the answer.
///
/// Beside the errors that a call names, each answers those of its link, and those of its answer: PartialMessage where the
/// stream ended, InvalidMessage where what came is not the answer. A call that is only acknowledged answers Ok once its
/// request went out, if both sides did not agree on acknowledgements or its header asks for none (under `Standard` that of
/// `PostcopyListen` always asks); else BackendInternalError says that the backend refused it. OutOfMemory: an allocation
/// failed before the first byte, and nothing changed.
#[derive(Drop)]
pub struct Quiet<L: Link> {
    /// The session.
    pub(crate) inner: FrontendInternal<L>,
    ghost quiet: { awaits inner ≡ Nobody },
}

impl<L: Link> Quiet<L> {
    ghost use Rattle.vhost_frontend.specs.Whole.{Whole, WholeCall, WholeWithRoom};

    /// A new session over a link, with a backend of at most so many queues and a retry limit for each message.
    ///
    /// OutOfMemory: an allocation failed.
    pub fn new(alloc: Global, link: L, max_queue_num: u64, budget: u32) -> Result<Self>
        ensures endpoint { IfOk result (λ q. endpoint_of q.inner ≡ fresh link budget) }
        ensures session { IfOk result (λ q. session_of q.inner ≡ new_frontend max_queue_num) }
        ensures memory { IfErr result (λ e. e ≡ OutOfMemory) }
    {
        Ok(Quiet {
            inner: FrontendInternal::new(alloc, link, max_queue_num, budget)?,
        })
    }

    /// The flags of each request from now on: of these, REPLY and NEED_REPLY are sent.
    pub fn set_hdr_flags(&mut self, flags: VhostUserHeaderFlag)
        ensures endpoint { endpoint_of self.new.inner ≡ endpoint_of self.old.inner }
        ensures session { session_of self.new.inner ≡ record (session_of self.old.inner) { header_flags = flags.bits } }
    {
        self.inner.set_hdr_flags(flags);
    }

    /// Whose behaviour it has from now on: that of the crate `vhost`, as a new session, or that of the specification and of
    /// real backends.
    pub fn set_profile(&mut self, profile: Profile)
        ensures endpoint { endpoint_of self.new.inner ≡ endpoint_of self.old.inner }
        ensures session { session_of self.new.inner ≡ record (session_of self.old.inner) { profile = profile } }
    {
        self.inner.set_profile(profile);
    }

    /// Whether the last call that sent or received met an I/O error: the link failed, or retried once too often.
    pub fn faulted(&self) -> bool
        ensures { result ≡ (endpoint_of self.now.inner).faulted }
    {
        self.inner.faulted()
    }

    /// Makes a call whole: sends its request, and receives the answer.
    pub fn call(&mut self, call: &Call<'_, L::Handle>) -> Answer<L::Handle>
        ensures whole { WholeCall L.event (call_in call.now) self.old.inner (outcome_of result) self.new.inner }
        ensures form { IsOf (kind_of (call_in call.now)) result }
    {
        match self.inner.ask(call) {
            Ok(sent) => self.inner.take(call, sent),
            Err(error) => Answer::Failed(error),
        }
    }

    /// The regions of shared memory, without a place made for them.
    ///
    /// InactiveOperation: SHMEM is not accepted.
    #[tactic(auto, using(crate::proofs::Whole::unasked, crate::proofs::Whole::asked_awaits))]
    pub fn get_shmem_config(&mut self) -> Result<VhostUserShMemConfig>
        ensures { Whole L.event value.GetShmemConfig value.ShmemOf self.old.inner result self.new.inner }
    {
        match self.inner.ask_get_shmem_config() {
            Ok(sent) => self.inner.take_get_shmem_config(sent),
            Err(error) => Err(error),
        }
    }

    /// Makes a call whole that answers nothing but whether it succeeded.
    pub fn done(&mut self, call: &Call<'_, L::Handle>) -> Result<()>
        requires { kind_of (call_in call.now) ≡ Plain }
        ensures { Whole L.event (call_in call.now) (λ _. value.Nothing) self.old.inner result self.new.inner }
    {
        match self.call(call) {
            Answer::Done => return Ok(()),
            Answer::Failed(error) => return Err(error),
            _ => {}
        }
        Err(Error::InvalidMessage)
    }

    /// Makes a call whole whose answer is a number.
    pub fn number(&mut self, call: &Call<'_, L::Handle>) -> Result<u64>
        requires { kind_of (call_in call.now) ≡ Number }
        ensures { Whole L.event (call_in call.now) value.Number self.old.inner result self.new.inner }
    {
        match self.call(call) {
            Answer::Number(number) => return Ok(number),
            Answer::Failed(error) => return Err(error),
            _ => {}
        }
        Err(Error::InvalidMessage)
    }

    /// Makes a call whole whose answer is protocol features.
    pub fn features(&mut self, call: &Call<'_, L::Handle>) -> Result<VhostUserProtocolFeatures>
        requires { kind_of (call_in call.now) ≡ Number }
        ensures { Whole L.event (call_in call.now) (λ features. value.Number features.bits) self.old.inner result self.new.inner }
    {
        match self.call(call) {
            Answer::Number(bits) => return Ok(VhostUserProtocolFeatures::from_bits_retain(bits)),
            Answer::Failed(error) => return Err(error),
            _ => {}
        }
        Err(Error::InvalidMessage)
    }

    /// Makes a call whole whose answer is a ring's next descriptor index.
    pub fn ring_index(&mut self, call: &Call<'_, L::Handle>) -> Result<u32>
        requires { kind_of (call_in call.now) ≡ RingIndex }
        ensures { Whole L.event (call_in call.now) value.Number self.old.inner result self.new.inner }
    {
        match self.call(call) {
            Answer::Number(index) => return Ok(index as u32),
            Answer::Failed(error) => return Err(error),
            _ => {}
        }
        Err(Error::InvalidMessage)
    }

    /// Makes a call whole whose answer is where the regions of a table are mapped, if postcopy listens.
    pub fn bases(&mut self, call: &Call<'_, L::Handle>) -> Result<Option<Vec<u64>>>
        requires { kind_of (call_in call.now) ≡ Bases }
        ensures { WholeWithRoom L.event (call_in call.now) (λ bases. value.Bases (bases_seen bases)) self.old.inner result self.new.inner }
    {
        match self.call(call) {
            Answer::Bases(bases) => return Ok(bases),
            Answer::Failed(error) => return Err(error),
            _ => {}
        }
        Err(Error::InvalidMessage)
    }

    /// Makes a call whole whose answer is where a region is mapped, if postcopy listens.
    pub fn base(&mut self, call: &Call<'_, L::Handle>) -> Result<Option<u64>>
        requires { kind_of (call_in call.now) ≡ Base }
        ensures { Whole L.event (call_in call.now) value.Base self.old.inner result self.new.inner }
    {
        match self.call(call) {
            Answer::Base(base) => return Ok(base),
            Answer::Failed(error) => return Err(error),
            _ => {}
        }
        Err(Error::InvalidMessage)
    }

    /// Makes a call whole whose answer is a part of the configuration space, and its bytes.
    pub fn config(&mut self, call: &Call<'_, L::Handle>) -> Result<(VhostUserConfig, Vec<u8>)>
        requires { kind_of (call_in call.now) ≡ Bytes }
        ensures { WholeWithRoom L.event (call_in call.now) (λ part. value.ConfigOf part.0 part.1.items) self.old.inner result self.new.inner }
    {
        match self.call(call) {
            Answer::Config(part, bytes) => return Ok((part, bytes)),
            Answer::Failed(error) => return Err(error),
            _ => {}
        }
        Err(Error::InvalidMessage)
    }

    /// Makes a call whole whose answer is a descriptor.
    pub fn handle(&mut self, call: &Call<'_, L::Handle>) -> Result<L::Handle>
        requires { kind_of (call_in call.now) ≡ OneHandle }
        ensures { Whole L.event (call_in call.now) value.HandleOf self.old.inner result self.new.inner }
    {
        match self.call(call) {
            Answer::Handle(handle) => return Ok(handle),
            Answer::Failed(error) => return Err(error),
            _ => {}
        }
        Err(Error::InvalidMessage)
    }

    /// Makes a call whole whose answer is the inflight region.
    pub fn inflight(&mut self, call: &Call<'_, L::Handle>) -> Result<(VhostUserInflight, L::Handle)>
        requires { kind_of (call_in call.now) ≡ Area }
        ensures { Whole L.event (call_in call.now) (λ area. value.InflightOf area.0 area.1) self.old.inner result self.new.inner }
    {
        match self.call(call) {
            Answer::Inflight(area, handle) => return Ok((area, handle)),
            Answer::Failed(error) => return Err(error),
            _ => {}
        }
        Err(Error::InvalidMessage)
    }

    /// Makes a call whole whose answer is another descriptor for the backend's state, if there is one.
    pub fn state_handle(&mut self, call: &Call<'_, L::Handle>) -> Result<Option<L::Handle>>
        requires { kind_of (call_in call.now) ≡ StateHandle }
        ensures { Whole L.event (call_in call.now) value.StateHandle self.old.inner result self.new.inner }
    {
        match self.call(call) {
            Answer::StateHandle(handle) => return Ok(handle),
            Answer::Failed(error) => return Err(error),
            _ => {}
        }
        Err(Error::InvalidMessage)
    }
}
