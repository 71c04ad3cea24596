//! How the answer of a call is reported, and what the session answers.

ghost use Rattle.std.specs.Prelude.{◌≡◌, is_ok};
ghost use Rattle.vhost_protocol.specs.Error.{seen_result};
ghost use Rattle.vhost_backend_req_handler_core.specs.Concluding.{device_in, then_of, verdict_in};

use crate::answer::{DeviceAnswer, Then, Verdict};
use crate::call::DeviceCall;
use vhost_message::{Error, Result};

impl DeviceCall<'_> {
    /// How the answer of this call is reported to the frontend.
    pub fn then(&self) -> Then
        ensures { result ≡ then_of self.now }
    {
        match self {
            DeviceCall::GetFeatures => Then::Offers,
            DeviceCall::SetFeatures(features) => Then::AckFeatures(*features),
            DeviceCall::SetMemTable(table, true) => Then::Bases(table.count),
            DeviceCall::SetMemTable(_, false) => Then::AckTable,
            DeviceCall::SetLogBase(log) => Then::Log(*log),
            DeviceCall::GetVringBase(_) => Then::RingState,
            DeviceCall::GetProtocolFeatures => Then::OffersProtocol,
            DeviceCall::SetProtocolFeatures(features) => Then::AckProtocolFeatures(*features),
            DeviceCall::GetQueueNum => Then::Number,
            DeviceCall::GetMaxMemSlots => Then::Number,
            DeviceCall::GetConfig(area) => Then::Config(*area),
            DeviceCall::GetSharedObject(_) => Then::Handle,
            DeviceCall::GetInflightFd(_) => Then::Inflight,
            DeviceCall::AddMemRegion(region, true) => Then::Base(*region),
            DeviceCall::AddMemRegion(_, false) => Then::AckRegion,
            DeviceCall::SetDeviceStateFd(_, _) => Then::StateHandle,
            DeviceCall::CheckDeviceState => Then::Check,
            DeviceCall::GetShmemConfig => Then::Shmem,
            DeviceCall::PostcopyAdvice => Then::HandleAdvise,
            DeviceCall::PostcopyListen => Then::AckListen,
            DeviceCall::PostcopyEnd => Then::AckEnd,
            DeviceCall::PostcopyAckMemRegions => Then::Unwritten,
            _ => Then::Ack,
        }
    }
}

impl<H: Drop> DeviceAnswer<H> {
    /// What the session answers by this verdict.
    pub fn by(self, verdict: Verdict) -> Result<()>
        ensures { seen_result result ≡ verdict_in self verdict }
    {
        match verdict {
            Verdict::Fine => Ok(()),
            Verdict::Internal => Err(Error::BackendInternalError),
            Verdict::Device => self.done(),
        }
    }

    /// Whether that is success.
    pub(crate) fn agrees(&self, verdict: Verdict) -> bool
        ensures { result ≡ is_ok (verdict_in self.now verdict) }
    {
        match verdict {
            Verdict::Fine => true,
            Verdict::Internal => false,
            Verdict::Device => self.is_done(),
        }
    }

    /// Whether the device refused nothing.
    fn is_done(&self) -> bool
        ensures { result ≡ is_ok (device_in self.now) }
    {
        match self {
            DeviceAnswer::Done(Err(_)) => false,
            DeviceAnswer::Shmem(Err(_)) => false,
            DeviceAnswer::Number(Err(_)) => false,
            DeviceAnswer::Bases(Err(_)) => false,
            DeviceAnswer::Base(Err(_)) => false,
            DeviceAnswer::RingState(Err(_)) => false,
            DeviceAnswer::Bytes(Err(_)) => false,
            DeviceAnswer::Handle(Err(_)) => false,
            DeviceAnswer::Inflight(Err(_)) => false,
            DeviceAnswer::StateHandle(Err(_)) => false,
            _ => true,
        }
    }

    /// The answer without its value.
    fn done(self) -> Result<()>
        ensures { seen_result result ≡ device_in self }
    {
        match self {
            DeviceAnswer::Done(answer) => answer,
            DeviceAnswer::Shmem(answer) => answer,
            DeviceAnswer::Number(Err(error)) => Err(error),
            DeviceAnswer::Bases(Err(error)) => Err(error),
            DeviceAnswer::Base(Err(error)) => Err(error),
            DeviceAnswer::RingState(Err(error)) => Err(error),
            DeviceAnswer::Bytes(Err(error)) => Err(error),
            DeviceAnswer::Handle(Err(error)) => Err(error),
            DeviceAnswer::Inflight(Err(error)) => Err(error),
            DeviceAnswer::StateHandle(Err(error)) => Err(error),
            _ => Ok(()),
        }
    }
}
