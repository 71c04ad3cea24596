//! The second half: what a device's answer becomes.

ghost use Rattle.std.specs.Prelude.{◌≡◌, ◌^◌, Ok, Some, bit_or};
ghost use Rattle.vhost_protocol.specs.Answered.{rebased_region, with_base, with_check, with_config, with_handle, with_inflight, with_state};
ghost use Rattle.vhost_protocol.specs.Features.{REPLY_ACK};
ghost use Rattle.vhost_protocol.specs.Session.{Session as Kept, ack_on};
ghost use Rattle.vhost_protocol.specs.Step.{replied_or_silent, unwritten, with_ack};
ghost use Rattle.vhost_protocol.specs.Written as payload;
ghost use Rattle.vhost_backend_req_handler_core.specs.Concluding.{Beside, base_in, bases_in, bytes_in, concluded, done_in, handle_in, inflight_in, number_in, outcome_in, remembered, reported, ring_state_in, shmem_in, state_handle_in, told_if, wanting, with_counted};
ghost use Rattle.vhost_backend_req_handler_core.specs.Session.{session_of};
ghost use Rattle.vhost_backend_req_handler_core.specs.declared.answer.DeviceAnswer.{DeviceAnswer};
ghost use Rattle.vhost_backend_req_handler_core.specs.declared.answer.Told.TheVariants as told_;
ghost use Rattle.vhost_backend_req_handler_core.specs.declared.answer.Verdict.TheVariants as verdict_;

use crate::answer::{Conclusion, ConfigReply, DeviceAnswer, Reply, Then, Told, Verdict};
use crate::call::Area;
use crate::session::Session;
use std::marker::PhantomData;
use vhost_message::{
    PostcopyState, VhostUserConfig, VhostUserLog, VhostUserMemoryRegion,
    VhostUserSingleMemoryRegion, protocol_bit,
};

/// The second halves, over descriptors of this type.
pub struct Conclusions<H> {
    of: PhantomData<H>,
}

impl<H: Drop> Conclusions<H> {
    /// What the answer of a call becomes, and what the session remembers of it. The request wanted an acknowledgement, or did not.
    pub fn conclude<'t>(
        session: &mut Session,
        need_reply: bool,
        then: &Then,
        answer: &'t DeviceAnswer<H>,
    ) -> Conclusion<'t, H>
        ensures { (b : Beside) → outcome_in (session_of session.new) b answer.now result ≡ concluded (session_of session.old) need_reply b then.now answer.now }
    {
        Self::remember(session, then, answer);
        Self::report(session, need_reply, then, answer)
    }

    /// What the session remembers of an answer, before that is reported.
    fn remember(session: &mut Session, then: &Then, answer: &DeviceAnswer<H>)
        ensures { session_of session.new ≡ remembered (session_of session.old) then.now answer.now }
    {
        match then {
            Then::AckFeatures(features) => session.acked = *features,
            Then::AckProtocolFeatures(features) => session.acked_protocol_features = *features,
            Then::AckListen => {
                if let DeviceAnswer::Done(Ok(())) = answer {
                    session.postcopy = PostcopyState::Listen;
                }
            }
            Then::AckEnd => session.postcopy = PostcopyState::End,
            Then::Offers => {
                if let DeviceAnswer::Number(Ok(offered)) = answer {
                    session.offered = *offered;
                }
            }
            Then::HandleAdvise => {
                if let DeviceAnswer::Handle(Ok(_)) = answer {
                    session.postcopy = PostcopyState::Advise;
                }
            }
            _ => {}
        }
    }

    /// What the answer of a call becomes, by how it is reported, where the session remembers what it has to.
    fn report<'t>(
        session: &Session,
        need_reply: bool,
        then: &Then,
        answer: &'t DeviceAnswer<H>,
    ) -> Conclusion<'t, H>
        ensures { (b : Beside) → outcome_in (session_of session.now) b answer.now result ≡ reported (session_of session.now) need_reply b then.now answer.now }
    {
        match then {
            Then::Ack
            | Then::AckFeatures(_)
            | Then::AckProtocolFeatures(_)
            | Then::AckListen
            | Then::AckEnd => Self::done(session, need_reply, answer),
            Then::AckTable => Self::table(session, need_reply, answer),
            Then::AckRegion => Self::region(session, need_reply, answer),
            Then::Offers | Then::Number => Self::number(answer),
            Then::OffersProtocol => Self::offers_protocol(answer),
            Then::RingState => Self::ring_state(answer),
            Then::Config(area) => Self::config(*area, answer),
            Then::Handle | Then::HandleAdvise => Self::handle(answer),
            Then::Inflight => Self::inflight(answer),
            Then::StateHandle => Self::state_handle(answer),
            Then::Check => Self::check(answer),
            Then::Shmem => Self::shmem(answer),
            Then::Log(log) => Self::log(*log, answer),
            Then::Base(region) => Self::base(session, need_reply, region, answer),
            Then::Bases(count) => Self::bases(session, need_reply, *count, answer),
            Then::Unwritten => Self::unwritten(answer),
        }
    }

    /// An acknowledgement, where the request wants one and acknowledgements are on.
    fn acked<'t>(
        session: &Session,
        need_reply: bool,
        says: Verdict,
        agreed: bool,
    ) -> Conclusion<'t, H>
        ensures { result ≡ record { verdict = says; told = told_if (ack_on (session_of session.now)) need_reply agreed } }
    {
        let told = if session.acknowledges(need_reply) {
            Told::Acknowledged(agreed)
        } else {
            Told::Silent
        };
        Conclusion {
            verdict: says,
            told,
        }
    }

    /// The answer alone, without a reply.
    fn silent<'t>(says: Verdict) -> Conclusion<'t, H>
        ensures { result ≡ record { verdict = says; told = told_.Silent } }
    {
        Conclusion {
            verdict: says,
            told: Told::Silent,
        }
    }

    /// Success, with a reply.
    fn replied<'t>(reply: Reply<'t>) -> Conclusion<'t, H>
        ensures { result ≡ record { verdict = verdict_.Fine; told = told_.Replied reply.entry } }
    {
        Conclusion {
            verdict: Verdict::Fine,
            told: Told::Replied(reply),
        }
    }

    /// Success, with a reply and a descriptor.
    fn replied_with<'t>(reply: Reply<'t>, handle: &'t H) -> Conclusion<'t, H>
        ensures { result ≡ record { verdict = verdict_.Fine; told = told_.RepliedWith reply.entry handle.entry } }
    {
        Conclusion {
            verdict: Verdict::Fine,
            told: Told::RepliedWith(reply, handle),
        }
    }

    fn done<'t>(
        session: &Session,
        need_reply: bool,
        answer: &'t DeviceAnswer<H>,
    ) -> Conclusion<'t, H>
        ensures { (b : Beside) → outcome_in (session_of session.now) b answer.now result ≡ with_ack (session_of session.now) (wanting need_reply) (done_in answer.now) }
    {
        match answer {
            DeviceAnswer::Done(Ok(())) => Self::acked(session, need_reply, Verdict::Device, true),
            DeviceAnswer::Done(Err(_)) => Self::acked(session, need_reply, Verdict::Device, false),
            _ => Self::acked(session, need_reply, Verdict::Internal, false),
        }
    }

    /// Bases that nobody asked for.
    fn table<'t>(
        session: &Session,
        need_reply: bool,
        answer: &'t DeviceAnswer<H>,
    ) -> Conclusion<'t, H>
        ensures { (b : Beside) → outcome_in (session_of session.now) b answer.now result ≡ with_ack (session_of session.now) (wanting need_reply) (bases_in answer.now) }
    {
        match answer {
            DeviceAnswer::Bases(Ok(_)) => Self::acked(session, need_reply, Verdict::Fine, true),
            DeviceAnswer::Bases(Err(_)) => {
                Self::acked(session, need_reply, Verdict::Device, false)
            }
            _ => Self::acked(session, need_reply, Verdict::Internal, false),
        }
    }

    /// A base that nobody asked for.
    fn region<'t>(
        session: &Session,
        need_reply: bool,
        answer: &'t DeviceAnswer<H>,
    ) -> Conclusion<'t, H>
        ensures { (b : Beside) → outcome_in (session_of session.now) b answer.now result ≡ with_ack (session_of session.now) (wanting need_reply) (base_in answer.now) }
    {
        match answer {
            DeviceAnswer::Base(Ok(_)) => Self::acked(session, need_reply, Verdict::Fine, true),
            DeviceAnswer::Base(Err(_)) => Self::acked(session, need_reply, Verdict::Device, false),
            _ => Self::acked(session, need_reply, Verdict::Internal, false),
        }
    }

    /// The number with REPLY_ACK.
    fn offers_protocol<'t>(answer: &'t DeviceAnswer<H>) -> Conclusion<'t, H>
        ensures { (s : Kept) (b : Beside) → outcome_in s b answer.now result ≡ replied_or_silent s (λ n. payload.U64 (bit_or n (2 ^ REPLY_ACK))) (number_in answer.now) }
    {
        match answer {
            DeviceAnswer::Number(Ok(number)) => {
                Self::replied(Reply::U64(*number | 1 << protocol_bit::REPLY_ACK))
            }
            DeviceAnswer::Number(Err(_)) => Self::silent(Verdict::Device),
            _ => Self::silent(Verdict::Internal),
        }
    }

    fn number<'t>(answer: &'t DeviceAnswer<H>) -> Conclusion<'t, H>
        ensures { (s : Kept) (b : Beside) → outcome_in s b answer.now result ≡ replied_or_silent s payload.U64 (number_in answer.now) }
    {
        match answer {
            DeviceAnswer::Number(Ok(number)) => Self::replied(Reply::U64(*number)),
            DeviceAnswer::Number(Err(_)) => Self::silent(Verdict::Device),
            _ => Self::silent(Verdict::Internal),
        }
    }

    fn ring_state<'t>(answer: &'t DeviceAnswer<H>) -> Conclusion<'t, H>
        ensures { (s : Kept) (b : Beside) → outcome_in s b answer.now result ≡ replied_or_silent s payload.RingState (ring_state_in answer.now) }
    {
        match answer {
            DeviceAnswer::RingState(Ok(ring)) => Self::replied(Reply::RingState(*ring)),
            DeviceAnswer::RingState(Err(_)) => Self::silent(Verdict::Device),
            _ => Self::silent(Verdict::Internal),
        }
    }

    /// The bytes behind the same record, or the record with size 0 and none.
    fn config<'t>(area: Area, answer: &'t DeviceAnswer<H>) -> Conclusion<'t, H>
        ensures { (s : Kept) (b : Beside) → outcome_in s b answer.now result ≡ with_config s area.config (bytes_in answer.now) }
    {
        if let DeviceAnswer::Bytes(Ok(bytes)) = answer {
            let bytes = &bytes[..];
            if bytes.len() == area.config.size as usize {
                return Self::replied(Reply::ConfigBytes(ConfigReply { area, bytes }));
            }
        }
        let none = VhostUserConfig {
            size: 0,
            ..area.config
        };
        Self::replied(Reply::Config(none))
    }

    fn handle<'t>(answer: &'t DeviceAnswer<H>) -> Conclusion<'t, H>
        ensures { (s : Kept) (b : Beside) → outcome_in s b answer.now result ≡ with_handle s (handle_in answer.now) }
    {
        match answer {
            DeviceAnswer::Handle(Ok(handle)) => Self::replied_with(Reply::Empty, handle),
            _ => Self::replied(Reply::Empty),
        }
    }

    fn inflight<'t>(answer: &'t DeviceAnswer<H>) -> Conclusion<'t, H>
        ensures { (s : Kept) (b : Beside) → outcome_in s b answer.now result ≡ with_inflight s (inflight_in answer.now) }
    {
        if let DeviceAnswer::Inflight(Ok(part)) = answer {
            return Self::replied_with(Reply::InflightArea(part.0), &part.1);
        }
        match answer {
            DeviceAnswer::Inflight(Err(_)) => Self::silent(Verdict::Device),
            _ => Self::silent(Verdict::Internal),
        }
    }

    fn state_handle<'t>(answer: &'t DeviceAnswer<H>) -> Conclusion<'t, H>
        ensures { (s : Kept) (b : Beside) → outcome_in s b answer.now result ≡ with_state s (state_handle_in answer.now) }
    {
        match answer {
            DeviceAnswer::StateHandle(Ok(Some(handle))) => {
                Self::replied_with(Reply::U64(0), handle)
            }
            DeviceAnswer::StateHandle(Ok(None)) => Self::replied(Reply::U64(0x100)),
            _ => Self::replied(Reply::U64(0x101)),
        }
    }

    fn check<'t>(answer: &'t DeviceAnswer<H>) -> Conclusion<'t, H>
        ensures { (s : Kept) (b : Beside) → outcome_in s b answer.now result ≡ with_check s (done_in answer.now) }
    {
        match answer {
            DeviceAnswer::Done(Ok(())) => Self::replied(Reply::U64(0)),
            _ => Self::replied(Reply::U64(1)),
        }
    }

    fn shmem<'t>(answer: &'t DeviceAnswer<H>) -> Conclusion<'t, H>
        ensures { (s : Kept) (b : Beside) → outcome_in s b answer.now result ≡ replied_or_silent s payload.Shmem (shmem_in b answer.now) }
    {
        match answer {
            DeviceAnswer::Shmem(Ok(())) => Self::replied(Reply::Shmem),
            DeviceAnswer::Shmem(Err(_)) => Self::silent(Verdict::Device),
            _ => Self::silent(Verdict::Internal),
        }
    }

    fn log<'t>(log: VhostUserLog, answer: &'t DeviceAnswer<H>) -> Conclusion<'t, H>
        ensures { (s : Kept) (b : Beside) → outcome_in s b answer.now result ≡ replied_or_silent s (λ u. payload.LogArea log) (done_in answer.now) }
    {
        match answer {
            DeviceAnswer::Done(Ok(())) => Self::replied(Reply::LogArea(log)),
            DeviceAnswer::Done(Err(_)) => Self::silent(Verdict::Device),
            _ => Self::silent(Verdict::Internal),
        }
    }

    /// The region with its base.
    fn base<'t>(
        session: &Session,
        need_reply: bool,
        region: &VhostUserSingleMemoryRegion,
        answer: &'t DeviceAnswer<H>,
    ) -> Conclusion<'t, H>
        ensures { (b : Beside) → outcome_in (session_of session.now) b answer.now result ≡ with_base (session_of session.now) (wanting need_reply) region.now (base_in answer.now) }
    {
        match answer {
            DeviceAnswer::Base(Ok(Some(base))) => {
                Self::replied(Reply::OneRegion(rebased(region, *base)))
            }
            DeviceAnswer::Base(Err(_)) => Self::acked(session, need_reply, Verdict::Device, false),
            _ => Self::acked(session, need_reply, Verdict::Internal, false),
        }
    }

    /// The regions with their bases, where there is one for each.
    fn bases<'t>(
        session: &Session,
        need_reply: bool,
        count: usize,
        answer: &'t DeviceAnswer<H>,
    ) -> Conclusion<'t, H>
        ensures { (b : Beside) → outcome_in (session_of session.now) b answer.now result ≡ with_counted (session_of session.now) (wanting need_reply) b.regions count (bases_in answer.now) }
    {
        if let DeviceAnswer::Bases(Ok(Some(bases))) = answer {
            return Self::counted(session, need_reply, count, &bases[..]);
        }
        match answer {
            DeviceAnswer::Bases(Err(_)) => Self::acked(session, need_reply, Verdict::Device, false),
            _ => Self::acked(session, need_reply, Verdict::Internal, false),
        }
    }

    /// The regions with these bases, where there are as many.
    fn counted<'t>(
        session: &Session,
        need_reply: bool,
        count: usize,
        bases: &'t [u64],
    ) -> Conclusion<'t, H>
        ensures { (b : Beside) (d : DeviceAnswer H) → outcome_in (session_of session.now) b d result ≡ with_counted (session_of session.now) (wanting need_reply) b.regions count (Ok (Some bases.now)) }
    {
        if bases.len() == count {
            return Self::replied(Reply::Regions(bases));
        }
        Self::acked(session, need_reply, Verdict::Internal, false)
    }

    fn unwritten<'t>(answer: &'t DeviceAnswer<H>) -> Conclusion<'t, H>
        ensures { (s : Kept) (b : Beside) → outcome_in s b answer.now result ≡ unwritten s (done_in answer.now) }
    {
        match answer {
            DeviceAnswer::Done(_) => Self::silent(Verdict::Device),
            _ => Self::silent(Verdict::Internal),
        }
    }
}

/// The region with the base that the device gave it.
fn rebased(region: &VhostUserSingleMemoryRegion, base: u64) -> VhostUserSingleMemoryRegion
    ensures { result ≡ rebased_region region.now base }
{
    let VhostUserMemoryRegion {
        guest_phys_addr,
        memory_size,
        mmap_offset,
        ..
    } = *region.region();
    VhostUserSingleMemoryRegion::new(guest_phys_addr, memory_size, base, mmap_offset)
}
