//! What a frontend remembers of its backend, and the tests of its calls.

ghost use Rattle.std.specs.Prelude.{◌≡◌, ◌<◌, ◌≤◌, IfOk, false, true, if◌then◌else◌};
ghost use Rattle.vhost_message.specs.Bits.{has_bit as is_set};
ghost use Rattle.vhost_message.specs.declared.postcopy.PostcopyState.TheVariants.{End};
ghost use Rattle.vhost_message.specs.declared.header_bit.TheConstants.{NEED_REPLY, REPLY};
ghost use Rattle.vhost_protocol.specs.Ask as ask;
ghost use Rattle.vhost_protocol.specs.FrontendCall.{new_frontend};
ghost use Rattle.vhost_protocol.specs.Profile.{is_standard as standard};
ghost use Rattle.vhost_protocol.specs.Session.{is_listen};
ghost use Rattle.vhost_protocol.specs.declared.asked.Awaited.TheVariants.{Nobody, Reply};
ghost use Rattle.vhost_protocol.specs.declared.asked.Shape.TheVariants.{U64};
ghost use Rattle.vhost_frontend_core.specs.Session.{frontend_of, turn_needs_reply};
ghost use Rattle.vhost_frontend_core.specs.Asking.{tested};

use bitflags::Flags;
use vhost_message::{
    Error, PostcopyState, Result, VhostUserInflight, VhostUserMsgValidator,
    VhostUserProtocolFeatures, VhostUserVirtioFeatures, has_bit, header_bit, protocol_bit,
    virtio_bit,
};
use vhost_protocol::{Awaited, Profile, Shape};

/// The features offered and accepted, the number of queues, the flags of each request, how far postcopy has come, and whose
/// behaviour the frontend has.
#[derive(Clone, Copy, Debug)]
pub struct FrontendSession {
    pub offered: u64,
    pub acked: u64,
    pub acked_protocol_features: u64,
    pub max_queue_num: u64,
    pub header_flags: u32,
    pub postcopy: PostcopyState,
    pub profile: Profile,
}

impl FrontendSession {
    /// A new session with a backend of at most so many queues.
    pub fn new(max_queue_num: u64) -> FrontendSession
        ensures { frontend_of result ≡ new_frontend max_queue_num }
    {
        FrontendSession {
            offered: 0,
            acked: 0,
            acked_protocol_features: 0,
            max_queue_num,
            header_flags: 0,
            postcopy: PostcopyState::Inactive,
            profile: Profile::Vhost,
        }
    }

    /// What a request awaits that is only acknowledged: an acknowledgement, where both sides agreed on them and the
    /// header asks for one.
    pub fn acknowledgement(&self) -> Awaited
        ensures { result ≡ ask.awaited_ack (frontend_of self.now) }
    {
        let (acked_protocol_features, header_flags) = (
            self.acked_protocol_features,
            self.header_flags,
        );
        if has_bit(acked_protocol_features, protocol_bit::REPLY_ACK)
            && has_bit(header_flags.into(), header_bit::NEED_REPLY)
        {
            Awaited::Ack
        } else {
            Awaited::Nobody
        }
    }

    /// What a request awaits that says where the log lies without a region: under `Standard` what each other one does.
    pub fn base_acknowledgement(&self) -> Awaited
        ensures { result ≡ (if standard (frontend_of self.now).profile then ask.awaited_ack (frontend_of self.now) else Nobody) }
    {
        if self.profile.is_standard() {
            self.acknowledgement()
        } else {
            Awaited::Nobody
        }
    }

    /// What a request awaits that turns the state of both sides: under `Standard` an acknowledgement wherever both sides
    /// agreed on them, whatever the header asks for.
    pub fn turn_acknowledgement(&self) -> Awaited
        ensures { result ≡ ask.awaited_turn (frontend_of self.now) }
    {
        if !self.profile.is_standard() {
            return self.acknowledgement();
        }
        if has_bit(self.acked_protocol_features, protocol_bit::REPLY_ACK) {
            Awaited::Ack
        } else {
            Awaited::Nobody
        }
    }

    /// What the end of postcopy awaits: under `Standard` the reply that the specification gives it.
    pub fn end_acknowledgement(&self) -> Awaited
        ensures { result ≡ (if standard (frontend_of self.now).profile then Reply U64 else ask.awaited_ack (frontend_of self.now)) }
    {
        if self.profile.is_standard() {
            Awaited::Reply(Shape::U64)
        } else {
            self.acknowledgement()
        }
    }

    /// The flags of a request: under `Standard` NEED_REPLY goes out only where both sides agreed on acknowledgements.
    pub fn flags(&self) -> u32
        ensures reply { is_set result REPLY ≡ is_set (frontend_of self.now).header_flags REPLY }
        ensures need_reply { is_set result NEED_REPLY ≡ ask.needs_reply (frontend_of self.now) }
    {
        let (acked_protocol_features, header_flags) = (
            self.acked_protocol_features,
            self.header_flags,
        );
        if self.profile.is_standard()
            && !has_bit(acked_protocol_features, protocol_bit::REPLY_ACK)
        {
            self.unacknowledged_flags()
        } else {
            header_flags
        }
    }

    /// The flags of a request that turns the state of both sides: under `Standard` NEED_REPLY goes out wherever both sides
    /// agreed on acknowledgements, whatever the session's flags say.
    pub fn turn_flags(&self) -> u32
        ensures reply { is_set result REPLY ≡ is_set (frontend_of self.now).header_flags REPLY }
        ensures need_reply { is_set result NEED_REPLY ≡ turn_needs_reply (frontend_of self.now) }
    {
        if !self.profile.is_standard() {
            return self.flags();
        }
        if has_bit(self.acked_protocol_features, protocol_bit::REPLY_ACK) {
            self.asking_flags()
        } else {
            self.unacknowledged_flags()
        }
    }

    /// The flags of a request that asks for no acknowledgement.
    pub fn unacknowledged_flags(&self) -> u32
        ensures reply { is_set result REPLY ≡ is_set (frontend_of self.now).header_flags REPLY }
        ensures need_reply { is_set result NEED_REPLY ≡ false }
    {
        let flags = self.header_flags;
        if has_bit(flags.into(), header_bit::REPLY) {
            1 << header_bit::REPLY
        } else {
            0
        }
    }

    /// The flags of a request that asks for its acknowledgement.
    fn asking_flags(&self) -> u32
        ensures reply { is_set result REPLY ≡ is_set (frontend_of self.now).header_flags REPLY }
        ensures need_reply { is_set result NEED_REPLY ≡ true }
    {
        let flags = self.header_flags;
        if has_bit(flags.into(), header_bit::REPLY) {
            (1 << header_bit::REPLY) | (1 << header_bit::NEED_REPLY)
        } else {
            1 << header_bit::NEED_REPLY
        }
    }

    /// Whether a buffer has room for what is asked for: under `Standard` for one byte at least, since an answer comes whatever
    /// there is.
    pub fn has_room(&self, buffer: &[u8]) -> bool
        ensures { result ≡ ask.has_room (frontend_of self.now) buffer.now }
    {
        if self.profile.is_standard() {
            1 <= buffer.len()
        } else {
            true
        }
    }

    /// Whether an inflight region is asked for some queues: under `Standard` one is, since a refusal names them again, and a reply
    /// that names none is malformed.
    pub fn has_queues(&self, area: &VhostUserInflight) -> bool
        ensures { result ≡ ask.has_queues (frontend_of self.now) area.now }
    {
        if self.profile.is_standard() {
            area.is_valid()
        } else {
            true
        }
    }

    /// Whether the backend listens for page faults.
    pub fn is_listening(&self) -> bool
        ensures { result ≡ is_listen (frontend_of self.now).postcopy }
    {
        matches!(self.postcopy, PostcopyState::Listen)
    }

    /// The session after an end of postcopy that was refused: whoever listened has ended all the same.
    pub fn after_refused_end(self) -> FrontendSession
        ensures { frontend_of result ≡ (if is_listen (frontend_of self).postcopy then record (frontend_of self) { postcopy = End } else frontend_of self) }
    {
        let mut next = self;
        if self.is_listening() {
            next.postcopy = PostcopyState::End;
        }
        next
    }

    /// InactiveOperation: the protocol feature of this bit is not accepted.
    pub fn needs(&self, bit: u32) -> Result<()>
        requires { bit < 64 }
        ensures { ask.frontend_feature (frontend_of self.now) bit ≡ tested result }
    {
        let acked_protocol_features = self.acked_protocol_features;
        if !has_bit(acked_protocol_features, bit) {
            let feature = VhostUserProtocolFeatures::from_bits_retain(1 << bit);
            return Err(Error::InactiveOperation(feature));
        }
        Ok(())
    }

    /// InvalidParam: the backend has no queue of this index, or the index has more than 32 bits.
    pub fn index(&self, index: usize) -> Result<u32>
        ensures test { ask.index (frontend_of self.now) index ≡ tested result }
        ensures same { IfOk result (λ i. i ≡ index) }
    {
        if index as u64 >= self.max_queue_num || index as u64 > u64::from(u32::MAX) {
            return Err(Error::InvalidParam);
        }
        Ok(index as u32)
    }

    /// InvalidParam: the backend has no queue of this index, or the index has more than the eight bits that it has beside
    /// a file descriptor.
    pub fn small_index(&self, index: usize) -> Result<u64>
        ensures test { ask.small_index (frontend_of self.now) index ≡ tested result }
        ensures same { IfOk result (λ i. i ≡ index) }
        ensures small { IfOk result (λ i. i ≤ 255) }
    {
        if index as u64 >= self.max_queue_num || index as u64 > 255 {
            return Err(Error::InvalidParam);
        }
        Ok(index as u64)
    }
}

/// InactiveFeature: the protocol features are not among these features.
pub fn protocol_in(features: u64) -> Result<()>
    ensures { ask.protocol_in features ≡ tested result }
{
    if !has_bit(features, virtio_bit::PROTOCOL_FEATURES) {
        return Err(Error::InactiveFeature(VhostUserVirtioFeatures::PROTOCOL_FEATURES));
    }
    Ok(())
}

/// InvalidParam: the test of an argument does not hold.
pub fn param(holds: bool) -> Result<()>
    ensures { ask.param holds ≡ tested result }
{
    if !holds {
        return Err(Error::InvalidParam);
    }
    Ok(())
}

/// InvalidParam: the record is not valid.
pub fn valid<T: VhostUserMsgValidator>(body: &T) -> Result<()>
    ensures { ask.param (T.valid body.now) ≡ tested result }
{
    if !body.is_valid() {
        return Err(Error::InvalidParam);
    }
    Ok(())
}
