//! The half that receives: each call's answer.

ghost use Rattle.std.specs.Prelude.{◌≡◌, ◌==◌, ◌&&◌, ℕ, List, Option, Some, bit_and};
ghost use Rattle.vhost_message.specs.Records.{region_within};
ghost use Rattle.vhost_message.specs.declared.records.inflight.VhostUserInflight.{VhostUserInflight};
ghost use Rattle.vhost_message.specs.declared.records.memory.VhostUserMemoryRegion.{VhostUserMemoryRegion};
ghost use Rattle.vhost_message.specs.declared.records.shared.VhostUserSharedMsg.{VhostUserSharedMsg};
ghost use Rattle.vhost_message.specs.declared.records.transfer.VhostUserTransferDeviceState.{VhostUserTransferDeviceState};
ghost use Rattle.vhost_protocol.specs.AnswerTable.{is_same_range, only_if, state_reply};
ghost use Rattle.vhost_protocol.specs.Error.{InvalidMessage, seen_result};
ghost use Rattle.vhost_protocol.specs.FrontendCall as call;
ghost use Rattle.vhost_protocol.specs.FrontendCall.{LogRegion};
ghost use Rattle.vhost_protocol.specs.Profile.{is_standard};
ghost use Rattle.vhost_protocol.specs.declared.asked.Awaited.TheVariants.{Nobody, Reply};
ghost use Rattle.vhost_protocol.specs.declared.asked.Shape.TheVariants as shape;
ghost use Rattle.vhost_connection.specs.Calls.{HandsOver};
ghost use Rattle.vhost_frontend_core.specs.Kept.{KeepsPlace};
ghost use Rattle.vhost_frontend_core.specs.Taking.{valued};
ghost use Rattle.vhost_frontend_core.specs.declared.asked.Kept.TheVariants.{Region};

use crate::answer::{
    Answer, base, bases, config, done, features, handle, inflight, number, ring_base, shmem_config,
    state_handle,
};
use crate::asked::{Kept, Sent};
use crate::call::Call;
use crate::internal::FrontendInternal;
use crate::internal::replies::one_of;
use crate::regions::is_same;
use bitflags::Flags;
use vhost_link::Link;
use vhost_message::{
    Error, PostcopyState, Result, VHOST_USER_MAX_VRINGS, VhostUserEmpty, VhostUserInflight,
    VhostUserLog, VhostUserMemoryRegion, VhostUserProtocolFeatures, VhostUserShMemConfig,
    VhostUserSingleMemoryRegion, VhostUserU64, VhostUserVringState,
};
use vhost_protocol::{Awaited, Profile};

/// The bits of the protocol features that have a meaning.
const KNOWN_FEATURES: u64 = 0x7f_ffff;

impl<L: Link> FrontendInternal<L> {
    ghost use Rattle.vhost_frontend_core.specs.Frontend.{awaits, IsAwaited};
    ghost use Rattle.vhost_frontend_core.specs.Halves.{TakesHalf, TakesAck};
    ghost use Rattle.vhost_frontend_core.specs.Kinds.{IsOf, kind_of};
    ghost use Rattle.vhost_frontend_core.specs.Taking.{IsAck};
    ghost use Rattle.vhost_frontend_core.specs.ValueHalves.{TakesValue};
    ghost use Rattle.vhost_frontend_core.specs.Values.{call_in};

    /// Receives the answer of a call, of what `ask` answered for it: its reply, or its acknowledgement, where there is one.
    ///
    /// Errors are those of the call, of the link, and those of any answer: PartialMessage where the stream ended, InvalidMessage
    /// where what came is not the answer, BackendInternalError where the backend refused what it acknowledges, InvalidParam
    /// where the request was sent as a reply, so that nothing was received.
    #[tactic(auto, using(crate::proofs::TakenValues::replied))]
    pub fn take(&mut self, call: &Call<'_, L::Handle>, sent: Sent) -> Answer<L::Handle>
        requires { IsAwaited sent self.old }
        ensures taken { TakesValue L.event (call_in call.now) sent self.old result self.new }
        ensures form { IsOf (kind_of (call_in call.now)) result }
    {
        match call {
            Call::GetFeatures => number(self.take_get_features(sent)),
            Call::GetProtocolFeatures => features(self.take_get_protocol_features(sent)),
            Call::GetQueueNum => number(self.take_get_queue_num(sent)),
            Call::SetMemTable(..) => bases(self.take_set_mem_table(sent)),
            Call::SetLogBase(..) => done(self.take_set_log_base(sent)),
            Call::GetVringBase(..) => ring_base(self.take_get_vring_base(sent)),
            Call::GetConfig(..) => config(self.take_get_config(sent)),
            Call::GetSharedObject(..) => handle(self.take_get_shared_object(sent)),
            Call::GetInflightFd(..) => inflight(self.take_get_inflight_fd(sent)),
            Call::GetMaxMemSlots => number(self.take_get_max_mem_slots(sent)),
            Call::AddMemRegion(..) => base(self.take_add_mem_region(sent)),
            Call::GetShmemConfig => shmem_config(self.take_get_shmem_config_to_place(sent)),
            Call::SetDeviceStateFd(..) => state_handle(self.take_set_device_state_fd(sent)),
            Call::CheckDeviceState => done(self.take_check_device_state(sent)),
            Call::PostcopyAdvise => handle(self.take_postcopy_advise(sent)),
            Call::PostcopyListen => done(self.take_postcopy_listen(sent)),
            Call::PostcopyEnd => done(self.take_postcopy_end(sent)),
            _ => done(self.take_done(sent)),
        }
    }

    /// The features are remembered as offered.
    pub fn take_get_features(&mut self, sent: Sent) -> Result<u64>
        ensures taken { TakesHalf L.event call.GetFeatures call.Number (Reply shape.U64) sent self.old result self.new }
        ensures quiet { awaits self.new ≡ Nobody }
    {
        match self.take_plain_reply::<VhostUserU64>(sent) {
            Ok(number) => {
                self.session.offered = number.value;
                Ok(number.value)
            }
            Err(error) => Err(error),
        }
    }

    /// Bits without a meaning are dropped.
    pub fn take_get_protocol_features(&mut self, sent: Sent) -> Result<VhostUserProtocolFeatures>
        ensures taken { TakesHalf L.event call.GetProtocolFeatures (λ features. call.Number features.bits) (Reply shape.U64) sent self.old result self.new }
        ensures quiet { awaits self.new ≡ Nobody }
    {
        match self.take_plain_reply::<VhostUserU64>(sent) {
            Ok(number) => { Ok(known_features(number.value)) }
            Err(error) => Err(error),
        }
    }

    /// The number is remembered. InvalidMessage: it is greater than 0x8000; the old number stays.
    pub fn take_get_queue_num(&mut self, sent: Sent) -> Result<u64>
        ensures taken { TakesHalf L.event call.GetQueueNum call.Number (Reply shape.U64) sent self.old result self.new }
        ensures quiet { awaits self.new ≡ Nobody }
    {
        match self.take_plain_reply::<VhostUserU64>(sent) {
            Ok(number) => {
                if number.value > VHOST_USER_MAX_VRINGS {
                    return Err(Error::InvalidMessage);
                }
                self.session.max_queue_num = number.value;
                Ok(number.value)
            }
            Err(error) => Err(error),
        }
    }

    /// Receives the ring's next descriptor index.
    pub fn take_get_vring_base(&mut self, sent: Sent) -> Result<u32>
        ensures taken { (index : ℕ) → TakesHalf L.event (call.GetVringBase index) call.Number (Reply shape.VringState) sent self.old result self.new }
        ensures quiet { awaits self.new ≡ Nobody }
    {
        match self.take_plain_reply::<VhostUserVringState>(sent) {
            Ok(ring) => { Ok(ring.num) }
            Err(error) => Err(error),
        }
    }

    /// Receives how many regions the backend can be given.
    pub fn take_get_max_mem_slots(&mut self, sent: Sent) -> Result<u64>
        ensures taken { TakesHalf L.event call.GetMaxMemSlots call.Number (Reply shape.U64) sent self.old result self.new }
        ensures quiet { awaits self.new ≡ Nobody }
    {
        match self.take_plain_reply::<VhostUserU64>(sent) {
            Ok(number) => Ok(number.value),
            Err(error) => Err(error),
        }
    }

    /// Receives the acknowledgement, where there is one; or where the region is mapped.
    pub fn take_add_mem_region(&mut self, sent: Sent) -> Result<Option<u64>>
        ensures mapped { (info : call.Info L.Handle) → sent.kept ≡ Region info.region → sent.awaited ≡ Reply shape.SingleMemoryRegion
            → TakesHalf L.event (call.AddMemRegion info) call.Base (Reply shape.SingleMemoryRegion) sent self.old result self.new }
        ensures acked { (info : call.Info L.Handle) → IsAck sent.awaited → TakesHalf L.event (call.AddMemRegion info) call.Base sent.awaited sent self.old result self.new }
        ensures quiet { awaits self.new ≡ Nobody }
    {
        match sent.awaited {
            Awaited::Reply(_) => self.take_mapped(sent),
            _ => match self.take_ack(sent) {
                Ok(()) => Ok(None),
                Err(error) => Err(error),
            },
        }
    }

    /// Receives where the region is mapped.
    fn take_mapped(&mut self, sent: Sent) -> Result<Option<u64>>
        ensures taken { (info : call.Info L.Handle) → sent.kept ≡ Region info.region → TakesHalf L.event (call.AddMemRegion info) call.Base (Reply shape.SingleMemoryRegion) sent self.old result self.new }
        ensures quiet { awaits self.new ≡ Nobody }
    {
        let Sent {
            request,
            awaited,
            kept,
        } = sent;
        match self.take_plain_reply::<VhostUserSingleMemoryRegion>(Sent::new(request, awaited)) {
            Ok(reply) => base_for(kept, &reply),
            Err(error) => Err(error),
        }
    }

    /// Receives the acknowledgement, where there is one, or the reply.
    pub fn take_set_log_base(&mut self, sent: Sent) -> Result<()>
        ensures area { (base : ℕ) (region : Option (LogRegion L.Handle)) → sent.awaited ≡ Reply shape.Log
            → TakesHalf L.event (call.SetLogBase base region) (λ _. call.Nothing) (Reply shape.Log) sent self.old result self.new }
        ensures base { (base : ℕ) (region : Option (LogRegion L.Handle)) → IsAck sent.awaited
            → TakesHalf L.event (call.SetLogBase base region) (λ _. call.Nothing) sent.awaited sent self.old result self.new }
        ensures quiet { awaits self.new ≡ Nobody }
    {
        match sent.awaited {
            Awaited::Reply(_) => self.take_log(sent),
            _ => self.take_ack(sent),
        }
    }

    /// Under `Standard` the reply may have any size, and its payload is not looked at.
    fn take_log(&mut self, sent: Sent) -> Result<()>
        ensures taken { (base : ℕ) (region : Option (LogRegion L.Handle)) → TakesHalf L.event (call.SetLogBase base region) (λ _. call.Nothing) (Reply shape.Log) sent self.old result self.new }
        ensures quiet { awaits self.new ≡ Nobody }
    {
        match self.session.profile {
            Profile::Vhost => match self.take_plain_reply::<VhostUserLog>(sent) {
                Ok(_) => Ok(()),
                Err(error) => Err(error),
            },
            Profile::Standard => self.take_any_reply(sent),
        }
    }

    /// Receives the descriptor of an object. Under `Standard` a reply without one says that there is no such object.
    pub fn take_get_shared_object(&mut self, sent: Sent) -> Result<L::Handle>
        ensures taken { (name : VhostUserSharedMsg) → TakesHalf L.event (call.GetSharedObject name) call.HandleOf (Reply shape.Empty) sent self.old result self.new }
        ensures quiet { awaits self.new ≡ Nobody }
    {
        match self.take_reply::<VhostUserEmpty>(sent) {
            Ok((_, handles)) => one_of(handles, self.session.profile.is_standard()),
            Err(error) => Err(error),
        }
    }

    /// Receives the inflight region: where it lies, and its descriptor. Under `Standard` a reply of the size 0 without one says
    /// that there is none.
    pub fn take_get_inflight_fd(&mut self, sent: Sent) -> Result<(VhostUserInflight, L::Handle)>
        ensures taken { (asked : VhostUserInflight) → TakesHalf L.event (call.GetInflightFd asked) (λ buffer. call.InflightOf buffer.0 buffer.1) (Reply shape.Inflight) sent self.old result self.new }
        ensures quiet { awaits self.new ≡ Nobody }
    {
        match self.take_reply::<VhostUserInflight>(sent) {
            Ok((area, handles)) => match one_of(handles, says_none(self.session.profile, &area)) {
                Ok(handle) => Ok((area, handle)),
                Err(error) => Err(error),
            },
            Err(error) => Err(error),
        }
    }

    /// Receives the regions of shared memory, without a place for them.
    pub fn take_get_shmem_config(&mut self, sent: Sent) -> Result<VhostUserShMemConfig>
        requires { IsAwaited sent self.old }
        ensures taken { TakesHalf L.event call.GetShmemConfig call.ShmemOf (Reply shape.ShMemConfig) sent self.old result self.new }
        ensures quiet { awaits self.new ≡ Nobody }
    {
        match self.take_plain_reply::<VhostUserShMemConfig>(sent) {
            Ok(config) => Ok(config),
            Err(error) => Err(error),
        }
    }

    /// Receives the regions in the place that was made for them.
    #[inline(never)]
    fn take_get_shmem_config_to_place(&mut self, sent: Sent) -> Result<Box<VhostUserShMemConfig>>
        requires { IsAwaited sent self.old }
        ensures taken { KeepsPlace sent.kept → TakesHalf L.event call.GetShmemConfig (λ place. call.ShmemOf place.value) (Reply shape.ShMemConfig) sent self.old result self.new }
        ensures quiet { awaits self.new ≡ Nobody }
    {
        let Sent {
            request,
            awaited,
            kept,
        } = sent;
        let Kept::Place(mut place) = kept else {
            self.awaited = Awaited::Nobody;
            return Err(Error::InvalidMessage);
        };
        match self.take_get_shmem_config(Sent::new(request, awaited)) {
            Ok(config) => {
                *place = config;
                Ok(place)
            }
            Err(error) => Err(error),
        }
    }

    /// Receives the descriptor that the backend wants in place of the one it was given, if any.
    pub fn take_set_device_state_fd(&mut self, sent: Sent) -> Result<Option<L::Handle>>
        ensures taken { (transfer : VhostUserTransferDeviceState) (handle : L.Handle) → TakesHalf L.event (call.SetDeviceStateFd transfer handle) call.StateHandle (Reply shape.U64) sent self.old result self.new }
        ensures quiet { awaits self.new ≡ Nobody }
    {
        match self.take_reply::<VhostUserU64>(sent) {
            Ok((number, handles)) => handle_for(number.value, handles),
            Err(error) => Err(error),
        }
    }

    /// Receives whether the transfer succeeded.
    pub fn take_check_device_state(&mut self, sent: Sent) -> Result<()>
        ensures taken { TakesHalf L.event call.CheckDeviceState (λ _. call.Nothing) (Reply shape.U64) sent self.old result self.new }
        ensures quiet { awaits self.new ≡ Nobody }
    {
        match self.take_plain_reply::<VhostUserU64>(sent) {
            Ok(number) => {
                if number.value != 0 {
                    return Err(Error::BackendInternalError);
                }
                Ok(())
            }
            Err(error) => Err(error),
        }
    }

    /// Receives the userfaultfd; postcopy is advised from now on. Under `Standard` a reply without one says that there is none.
    pub fn take_postcopy_advise(&mut self, sent: Sent) -> Result<L::Handle>
        ensures taken { TakesHalf L.event call.PostcopyAdvise call.HandleOf (Reply shape.Empty) sent self.old result self.new }
        ensures quiet { awaits self.new ≡ Nobody }
    {
        match self.take_reply::<VhostUserEmpty>(sent) {
            Ok((_, handles)) => match one_of(handles, self.session.profile.is_standard()) {
                Ok(handle) => {
                    self.session.postcopy = PostcopyState::Advise;
                    Ok(handle)
                }
                Err(error) => Err(error),
            },
            Err(error) => Err(error),
        }
    }

    /// Receives the acknowledgement, where there is one. The backend listens from now on.
    pub fn take_postcopy_listen(&mut self, sent: Sent) -> Result<()>
        ensures taken { TakesAck L.event call.PostcopyListen sent self.old result self.new }
        ensures quiet { awaits self.new ≡ Nobody }
    {
        match self.take_ack(sent) {
            Ok(()) => {
                self.session.postcopy = PostcopyState::Listen;
                Ok(())
            }
            Err(error) => Err(error),
        }
    }

    /// Receives the reply, or the acknowledgement, where there is one. Postcopy has ended from now on.
    pub fn take_postcopy_end(&mut self, sent: Sent) -> Result<()>
        ensures replied { sent.awaited ≡ Reply shape.U64 → TakesHalf L.event call.PostcopyEnd (λ _. call.Nothing) (Reply shape.U64) sent self.old result self.new }
        ensures acked { TakesAck L.event call.PostcopyEnd sent self.old result self.new }
        ensures quiet { awaits self.new ≡ Nobody }
    {
        match sent.awaited {
            Awaited::Reply(_) => self.take_end(sent),
            _ => self.take_end_ack(sent),
        }
    }

    /// Receives whether the end of postcopy succeeded: 0. Whoever listened has ended, whatever became of it.
    fn take_end(&mut self, sent: Sent) -> Result<()>
        ensures taken { TakesHalf L.event call.PostcopyEnd (λ _. call.Nothing) (Reply shape.U64) sent self.old result self.new }
        ensures quiet { awaits self.new ≡ Nobody }
    {
        match self.take_plain_reply::<VhostUserU64>(sent) {
            Ok(number) => {
                if number.value != 0 {
                    self.session = self.session.after_refused_end();
                    return Err(Error::BackendInternalError);
                }
                self.session.postcopy = PostcopyState::End;
                Ok(())
            }
            Err(error) => Err(error),
        }
    }

    /// Receives the acknowledgement of the end of postcopy, where there is one.
    fn take_end_ack(&mut self, sent: Sent) -> Result<()>
        ensures taken { TakesAck L.event call.PostcopyEnd sent self.old result self.new }
        ensures quiet { awaits self.new ≡ Nobody }
    {
        match self.take_ack(sent) {
            Ok(()) => {
                self.session.postcopy = PostcopyState::End;
                Ok(())
            }
            Err(error) => Err(error),
        }
    }
}

/// The protocol features among these bits; the others are dropped.
fn known_features(bits: u64) -> VhostUserProtocolFeatures
    ensures { result.bits ≡ bit_and bits 0x7FFFFF }
{
    VhostUserProtocolFeatures::from_bits_retain(bits & KNOWN_FEATURES)
}

/// Whether an inflight region without a descriptor says that there is none.
fn says_none(profile: Profile, area: &VhostUserInflight) -> bool
    ensures { result ≡ (is_standard profile && area.now.mmap_size == 0) }
{
    profile.is_standard() && area.mmap_size == 0
}

/// Where the region is mapped that was kept, as this reply says. InvalidMessage: it is of another region.
fn base_for(kept: Kept, reply: &VhostUserSingleMemoryRegion) -> Result<Option<u64>>
    ensures { (asked : VhostUserMemoryRegion) → kept ≡ Region asked
        → only_if (is_same_range asked (region_within reply.now)) InvalidMessage (Some (region_within reply.now).user_addr) ≡ seen_result result }
{
    let Kept::Region(asked) = kept else {
        return Err(Error::InvalidMessage);
    };
    let mapped = reply.region();
    if !is_same(&asked, mapped) {
        return Err(Error::InvalidMessage);
    }
    Ok(Some(mapped.user_addr))
}

/// What a backend answers that was given a descriptor for its state: 0x100 without a descriptor, or 0 with one in its
/// place.
fn handle_for<H: Drop>(number: u64, handles: Option<Vec<H>>) -> Result<Option<H>>
    ensures { (hs : List H) → HandsOver handles hs → state_reply number hs ≡ valued call.StateHandle result }
{
    if handles.is_none() {
        if number != 0x100 {
            return Err(Error::BackendInternalError);
        }
        return Ok(None);
    }
    if number != 0 {
        return Err(Error::BackendInternalError);
    }
    let handle = one_of(handles, false)?;
    Ok(Some(handle))
}
