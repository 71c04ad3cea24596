//! A turn with a session that many threads share: one call whole, while nobody else has the session.

ghost use Rattle.std.specs.Prelude.{◌≡◌};
ghost use Rattle.vhost_protocol.specs.FrontendCall as value;
ghost use Rattle.vhost_frontend_core.specs.Kinds.{kind_of, Plain, Number, RingIndex, Bases, Base, Bytes, OneHandle, Area, StateHandle};
ghost use Rattle.vhost_frontend_core.specs.Regions.{bases_seen};
ghost use Rattle.vhost_frontend_core.specs.Values.{call_in};
ghost use Rattle.vhost_frontend.specs.Turn.{Turn, within as answer_within};
ghost use Rattle.vhost_frontend.specs.Whole.{Whole, WholeWithRoom};

use crate::frontend::Frontend;
use std::sync::Wait;
use vhost_backend::Result;
use vhost_frontend_core::Call;
use vhost_link::Link;
use vhost_message::{
    VhostUserConfig, VhostUserInflight, VhostUserProtocolFeatures, VhostUserShMemConfig,
};

#[tactic(auto, using(crate::proofs::Turns::turned, crate::proofs::Turns::turned_with_room))]
impl<L: Link> Frontend<L> {
    /// Makes a call whole that answers nothing but whether it succeeded.
    pub(crate) fn done(&self, rt: &impl Wait, call: &Call<'_, L::Handle>) -> Result<()>
        requires { kind_of (call_in call.now) ≡ Plain }
        ensures { Turn L.event (Whole L.event (call_in call.now) (λ _. value.Nothing)) result }
    {
        within(self.inner.lock(rt).quiet.done(call))
    }

    /// Makes a call whole whose answer is a number.
    pub(crate) fn number(&self, rt: &impl Wait, call: &Call<'_, L::Handle>) -> Result<u64>
        requires { kind_of (call_in call.now) ≡ Number }
        ensures { Turn L.event (Whole L.event (call_in call.now) value.Number) result }
    {
        within(self.inner.lock(rt).quiet.number(call))
    }

    /// Makes a call whole whose answer is protocol features.
    pub(crate) fn features(
        &self,
        rt: &impl Wait,
        call: &Call<'_, L::Handle>,
    ) -> Result<VhostUserProtocolFeatures>
        requires { kind_of (call_in call.now) ≡ Number }
        ensures { Turn L.event (Whole L.event (call_in call.now) (λ features. value.Number features.bits)) result }
    {
        within(self.inner.lock(rt).quiet.features(call))
    }

    /// Makes a call whole whose answer is a ring's next descriptor index.
    pub(crate) fn ring_index(&self, rt: &impl Wait, call: &Call<'_, L::Handle>) -> Result<u32>
        requires { kind_of (call_in call.now) ≡ RingIndex }
        ensures { Turn L.event (Whole L.event (call_in call.now) value.Number) result }
    {
        within(self.inner.lock(rt).quiet.ring_index(call))
    }

    /// Makes a call whole whose answer is where the regions of a table are mapped, if postcopy listens.
    pub(crate) fn bases(
        &self,
        rt: &impl Wait,
        call: &Call<'_, L::Handle>,
    ) -> Result<Option<Vec<u64>>>
        requires { kind_of (call_in call.now) ≡ Bases }
        ensures { Turn L.event (WholeWithRoom L.event (call_in call.now) (λ bases. value.Bases (bases_seen bases))) result }
    {
        within(self.inner.lock(rt).quiet.bases(call))
    }

    /// Makes a call whole whose answer is where a region is mapped, if postcopy listens.
    pub(crate) fn base(&self, rt: &impl Wait, call: &Call<'_, L::Handle>) -> Result<Option<u64>>
        requires { kind_of (call_in call.now) ≡ Base }
        ensures { Turn L.event (Whole L.event (call_in call.now) value.Base) result }
    {
        within(self.inner.lock(rt).quiet.base(call))
    }

    /// Makes a call whole whose answer is a part of the configuration space, and its bytes.
    pub(crate) fn config(
        &self,
        rt: &impl Wait,
        call: &Call<'_, L::Handle>,
    ) -> Result<(VhostUserConfig, Vec<u8>)>
        requires { kind_of (call_in call.now) ≡ Bytes }
        ensures { Turn L.event (WholeWithRoom L.event (call_in call.now) (λ part. value.ConfigOf part.0 part.1.items)) result }
    {
        within(self.inner.lock(rt).quiet.config(call))
    }

    /// Makes a call whole whose answer is a descriptor.
    pub(crate) fn handle(&self, rt: &impl Wait, call: &Call<'_, L::Handle>) -> Result<L::Handle>
        requires { kind_of (call_in call.now) ≡ OneHandle }
        ensures { Turn L.event (Whole L.event (call_in call.now) value.HandleOf) result }
    {
        within(self.inner.lock(rt).quiet.handle(call))
    }

    /// Makes a call whole whose answer is the inflight region.
    pub(crate) fn inflight(
        &self,
        rt: &impl Wait,
        call: &Call<'_, L::Handle>,
    ) -> Result<(VhostUserInflight, L::Handle)>
        requires { kind_of (call_in call.now) ≡ Area }
        ensures { Turn L.event (Whole L.event (call_in call.now) (λ area. value.InflightOf area.0 area.1)) result }
    {
        within(self.inner.lock(rt).quiet.inflight(call))
    }

    /// Makes a call whole whose answer is another descriptor for the backend's state, if there is one.
    pub(crate) fn state_handle(
        &self,
        rt: &impl Wait,
        call: &Call<'_, L::Handle>,
    ) -> Result<Option<L::Handle>>
        requires { kind_of (call_in call.now) ≡ StateHandle }
        ensures { Turn L.event (Whole L.event (call_in call.now) value.StateHandle) result }
    {
        within(self.inner.lock(rt).quiet.state_handle(call))
    }

    /// The regions of shared memory.
    pub(crate) fn shmem_config(&self, rt: &impl Wait) -> Result<VhostUserShMemConfig>
        ensures { Turn L.event (Whole L.event value.GetShmemConfig value.ShmemOf) result }
    {
        within(self.inner.lock(rt).quiet.get_shmem_config())
    }
}

/// What the protocol answered, as the answer of a vhost backend.
fn within<A: Drop>(answer: vhost_message::Result<A>) -> Result<A>
    ensures { result ≡ answer_within answer }
{
    match answer {
        Ok(answer) => Ok(answer),
        Err(error) => Err(error.into()),
    }
}
