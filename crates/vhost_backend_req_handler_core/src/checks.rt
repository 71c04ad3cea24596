//! The tests that handling rules have in common.

ghost use Rattle.std.specs.Prelude.{◌≡◌, ◌<◌, ◌^◌, ◌==◌, ◌∷◌, [], Ok, Err, IfOk, IfErr, IfSome, is_some, nat_le, not, length};
ghost use Rattle.vhost_message.specs.Bits.{has_bit};
ghost use Rattle.vhost_message.specs.Transfer.{direction_number, phase_number};
ghost use Rattle.vhost_message.specs.Valid.{is_valid_transfer};
ghost use Rattle.vhost_protocol.specs.Error.{FrontendInternalError, InactiveFeature, InvalidMessage, InvalidParam, test};
ghost use Rattle.vhost_protocol.specs.Row as row;
ghost use Rattle.vhost_protocol.specs.Session.{enabling};
ghost use Rattle.vhost_protocol.specs.Step.{silently};
ghost use Rattle.vhost_backend_req_handler_core.specs.Beginning.{body_of, handles_in, single, sized, tested};
ghost use Rattle.vhost_backend_req_handler_core.specs.Refusing.{refusal_in};
ghost use Rattle.vhost_backend_req_handler_core.specs.Session.{session_of};

use crate::incoming::Incoming;
use crate::refusal::{Refusal, Result};
use crate::session::Session;
use std::marker::PhantomData;
use vhost_message::{
    VhostTransferStateDirection, VhostTransferStatePhase, VhostUserMsgValidator,
    VhostUserTransferDeviceState, has_bit,
};

/// The tests, over descriptors of a type. A test that fails refuses without a reply.
pub(crate) struct Checks<H> {
    of: PhantomData<H>,
}

impl<H: Drop> Checks<H> {
    /// InvalidMessage: the body has another size, or the message is a reply.
    pub(crate) fn check_request_size(message: &Incoming, size: usize) -> Result<()>
        ensures { sized {H = H} size message.now ≡ tested result }
    {
        if message.body.len() != size || message.reply {
            return Err(Refusal::InvalidMessage);
        }
        Ok(())
    }

    /// The one record that the body is. InvalidMessage: it is not that long, not valid, or the message is a reply.
    pub(crate) fn extract_request_body<T: VhostUserMsgValidator + Drop>(
        message: &Incoming,
    ) -> Result<T>
        ensures { body_of {H = H} T.SIZE T.read T.valid message.now ≡ tested result }
    {
        if message.body.len() != T::SIZE || message.reply {
            return Err(Refusal::InvalidMessage);
        }
        let record = T::decode(message.body);
        if !record.is_valid() {
            return Err(Refusal::InvalidMessage);
        }
        Ok(record)
    }

    /// InactiveOperation: the protocol feature of this bit is not accepted.
    pub(crate) fn check_proto_feature(session: &Session, bit: u32) -> Result<()>
        requires { bit < 64 }
        ensures { row.session_feature {H = H} (session_of session.now) bit ≡ tested result }
    {
        let acked_protocol_features = session.acked_protocol_features;
        if !has_bit(acked_protocol_features, bit) {
            return Err(Refusal::InactiveOperation(1 << bit));
        }
        Ok(())
    }

    /// InactiveFeature: the virtio feature of this bit is not among those by which a ring may be enabled.
    pub(crate) fn check_feature(session: &Session, bit: u32) -> Result<()>
        requires { bit < 64 }
        ensures { test (has_bit (enabling (session_of session.now)) bit) (silently {H = H} (InactiveFeature (2 ^ bit))) ≡ tested result }
    {
        if !has_bit(session.enabling(), bit) {
            return Err(Refusal::InactiveFeature(1 << bit));
        }
        Ok(())
    }

    /// InvalidParam: the number of a flag is neither 0 nor 1.
    pub(crate) fn check_flag_number(num: u32) -> Result<()>
        ensures { test (nat_le num 1) (silently {H = H} InvalidParam) ≡ tested result }
    {
        if num > 1 {
            return Err(Refusal::InvalidParam);
        }
        Ok(())
    }

    /// The number in 16 bits. InvalidParam: it needs more.
    pub(crate) fn to_u16(number: u64) -> Result<u16>
        ensures fits { IfOk result (λ n. (n ≡ number) × (test (nat_le number 65535) (silently {H = H} InvalidParam) ≡ Ok tt)) }
        ensures great { IfErr result (λ e. test (nat_le number 65535) (silently {H = H} InvalidParam) ≡ tested (Err e)) }
    {
        if number > 65535 {
            return Err(Refusal::InvalidParam);
        }
        Ok(number as u16)
    }

    /// FrontendInternalError: the number is not 0.
    pub(crate) fn check_zero(number: u64) -> Result<()>
        ensures { test (number == 0) (silently {H = H} FrontendInternalError) ≡ tested result }
    {
        if number != 0 {
            return Err(Refusal::FrontendInternalError);
        }
        Ok(())
    }

    /// InvalidMessage: the message is not valid.
    pub(crate) fn check_valid(valid: bool) -> Result<()>
        ensures { test valid (silently {H = H} InvalidMessage) ≡ tested result }
    {
        if !valid {
            return Err(Refusal::InvalidMessage);
        }
        Ok(())
    }

    /// This refusal: postcopy is in another state than that.
    pub(crate) fn check_postcopy(is_there: bool, refusal: Refusal) -> Result<()>
        ensures { test is_there (silently {H = H} (refusal_in refusal)) ≡ tested result }
    {
        if !is_there {
            return Err(refusal);
        }
        Ok(())
    }

    /// This refusal: the message has not exactly one descriptor.
    pub(crate) fn one_handle(handles: &Option<Vec<H>>, refusal: Refusal) -> Result<()>
        ensures none { IfErr result (λ e. row.only (silently {H = H} (refusal_in refusal)) (handles_in handles.now) ≡ tested (Err e)) }
        ensures one { IfOk result (λ _. (h : H) × (handles_in handles.now ≡ h ∷ [])) }
    {
        match handles {
            Some(list) => {
                if list.len() == 1 {
                    Ok(())
                } else {
                    Err(refusal)
                }
            }
            None => Err(refusal),
        }
    }

    /// InvalidMessage: the message has exactly one descriptor.
    pub(crate) fn not_one(handles: &Option<Vec<H>>) -> Result<()>
        ensures { test (not (length (handles_in handles.now) == 1)) (silently {H = H} InvalidMessage) ≡ tested result }
    {
        let one = match handles {
            Some(handles) => handles.len() == 1,
            None => false,
        };
        if one {
            return Err(Refusal::InvalidMessage);
        }
        Ok(())
    }
}

/// The one descriptor of a message, where it has exactly one.
pub fn take_single_file<H: Drop>(handles: Option<Vec<H>>) -> Option<H>
    ensures { result ≡ single (handles_in handles) }
{
    let mut handles = handles?;
    let handle = handles.pop()?;
    if handles.is_empty() {
        Some(handle)
    } else {
        None
    }
}

/// The direction and the phase of a transfer, where both are known.
pub(crate) fn direction_and_phase(
    transfer: &VhostUserTransferDeviceState,
) -> Option<(VhostTransferStateDirection, VhostTransferStatePhase)>
    ensures known { IfSome result (λ p. record { direction = direction_number p.0; phase = phase_number p.1 } ≡ transfer.now) }
    ensures valid { is_valid_transfer transfer.now ≡ is_some result }
{
    let direction = VhostTransferStateDirection::try_from(transfer.direction).ok()?;
    let phase = VhostTransferStatePhase::try_from(transfer.phase).ok()?;
    Some((direction, phase))
}
