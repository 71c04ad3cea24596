//! The first half: what a request becomes.

ghost use Rattle.std.specs.Prelude.{◌≡◌, ℕ, List, Option};
ghost use Rattle.vhost_message.specs.declared.heard_req.HeardReq.TheVariants as code;
ghost use Rattle.vhost_protocol.specs.Row as row;
ghost use Rattle.vhost_protocol.specs.Split.{Message};
ghost use Rattle.vhost_protocol.specs.Step.{Step, Refused, ◌>>=◌ as ◌then◌};
ghost use Rattle.vhost_message.specs.declared.heard_req.HeardReq.{HeardReq};
ghost use Rattle.vhost_backend_req_handler_core.specs.Beginning.{Begins, handles_in, message_in, step_in, tested, with_wanted};
ghost use Rattle.vhost_backend_req_handler_core.specs.Session.{session_of};

use crate::call::{Begun, DeviceCall};
use crate::checks::{Checks, direction_and_phase};
use crate::incoming::Incoming;
use crate::refusal::{Refusal, Result};
use crate::session::Session;
use std::marker::PhantomData;
use vhost_message::{
    HeardReq, VhostUserInflight, VhostUserLog, VhostUserSharedMsg, VhostUserSingleMemoryRegion,
    VhostUserTransferDeviceState, VhostUserU64, VhostUserVringAddr, VhostUserVringState, has_bit,
    protocol_bit, virtio_bit,
};

/// The handling rules, over file descriptors and channels of these types.
pub struct Rows<H, B, G> {
    of: PhantomData<(H, B, G)>,
}

impl<H: Drop, B: Drop, G: Drop> Rows<H, B, G> {
    /// What a request becomes. An error refuses it without a reply.
    pub fn begin<'a>(
        session: &Session,
        message: &Incoming<'a>,
        handles: &Option<Vec<H>>,
    ) -> Result<Begun<'a>>
        ensures { Begins B G message.now.code session.now message.now (handles_in handles.now) result }
    {
        match message.code {
            HeardReq::SET_OWNER => Self::set_owner(session, message),
            HeardReq::RESET_OWNER => Self::reset_owner(session, message),
            HeardReq::RESET_DEVICE => Self::reset_device(session, message),
            HeardReq::GET_FEATURES => Self::get_features(session, message),
            HeardReq::SET_FEATURES => Self::set_features(session, message),
            HeardReq::SET_MEM_TABLE => Self::set_mem_table(session, message, handles),
            HeardReq::SET_LOG_BASE => Self::set_log_base(session, message, handles),
            HeardReq::SET_VRING_NUM => Self::set_vring_num(session, message),
            HeardReq::SET_VRING_BASE => Self::set_vring_base(session, message),
            HeardReq::SET_VRING_ADDR => Self::set_vring_addr(session, message),
            HeardReq::GET_VRING_BASE => Self::get_vring_base(session, message),
            HeardReq::SET_VRING_KICK => Self::set_vring_kick(session, message, handles),
            HeardReq::SET_VRING_CALL => Self::set_vring_call(session, message, handles),
            HeardReq::SET_VRING_ERR => Self::set_vring_err(session, message, handles),
            HeardReq::GET_PROTOCOL_FEATURES => Self::get_protocol_features(session, message),
            HeardReq::SET_PROTOCOL_FEATURES => Self::set_protocol_features(session, message),
            HeardReq::GET_QUEUE_NUM => Self::get_queue_num(session, message),
            HeardReq::GET_MAX_MEM_SLOTS => Self::get_max_mem_slots(session, message),
            HeardReq::SET_VRING_ENABLE => Self::set_vring_enable(session, message),
            HeardReq::NET_SET_MTU => Self::net_set_mtu(session, message),
            HeardReq::GET_CONFIG => Self::get_config(session, message),
            HeardReq::SET_CONFIG => Self::set_config(session, message),
            HeardReq::SET_BACKEND_REQ_FD => Self::set_backend_req_fd(session, message, handles),
            HeardReq::GPU_SET_SOCKET => Self::gpu_set_socket(session, message, handles),
            HeardReq::GET_SHARED_OBJECT => Self::get_shared_object(session, message),
            HeardReq::GET_INFLIGHT_FD => Self::get_inflight_fd(session, message),
            HeardReq::SET_INFLIGHT_FD => Self::set_inflight_fd(session, message, handles),
            HeardReq::ADD_MEM_REG => Self::add_mem_reg(session, message, handles),
            HeardReq::REM_MEM_REG => Self::rem_mem_reg(session, message),
            HeardReq::SET_DEVICE_STATE_FD => {
                Self::set_device_state_fd(session, message, handles)
            }
            HeardReq::CHECK_DEVICE_STATE => Self::check_device_state(session, message),
            HeardReq::GET_SHMEM_CONFIG => Self::get_shmem_config(session, message),
            HeardReq::POSTCOPY_ADVISE => Self::postcopy_advise(session, message),
            HeardReq::POSTCOPY_LISTEN => Self::postcopy_listen(session, message),
            HeardReq::POSTCOPY_END => Self::postcopy_end(session, message),
            HeardReq::SET_LOG_FD
            | HeardReq::SEND_RARP
            | HeardReq::IOTLB_MSG
            | HeardReq::SET_VRING_ENDIAN
            | HeardReq::CREATE_CRYPTO_SESSION
            | HeardReq::CLOSE_CRYPTO_SESSION
            | HeardReq::VRING_KICK
            | HeardReq::SET_STATUS
            | HeardReq::GET_STATUS
            | HeardReq::OTHER(_) => Self::other(session, message),
        }
    }

    /// A request without a row of its own.
    fn other<'a>(session: &Session, message: &Incoming<'a>) -> Result<Begun<'a>>
        ensures { (hs : List H) → step_in {B = B} {G = G} (session_of session.now) (message_in message.now hs) result ≡ row.other_row (session_of session.now) (message_in message.now hs) }
    {
        Checks::<H>::check_valid(session.is_standard() && !message.reply)?;
        Ok(Begun::Calls(DeviceCall::Other(message.code.into(), message.body)))
    }

    fn set_owner<'a>(_session: &Session, message: &Incoming<'a>) -> Result<Begun<'a>>
        ensures { (hs : List H) → Begins B G code.SET_OWNER _session.now message.now hs result }
    {
        Checks::<H>::check_request_size(message, 0)?;
        Ok(Begun::Calls(DeviceCall::SetOwner))
    }

    fn reset_owner<'a>(_session: &Session, message: &Incoming<'a>) -> Result<Begun<'a>>
        ensures { (hs : List H) → Begins B G code.RESET_OWNER _session.now message.now hs result }
    {
        Checks::<H>::check_request_size(message, 0)?;
        Ok(Begun::Calls(DeviceCall::ResetOwner))
    }

    fn reset_device<'a>(session: &Session, message: &Incoming<'a>) -> Result<Begun<'a>>
        ensures { (hs : List H) → Begins B G code.RESET_DEVICE session.now message.now hs result }
    {
        Checks::<H>::check_proto_feature(session, protocol_bit::RESET_DEVICE)?;
        Checks::<H>::check_request_size(message, 0)?;
        Ok(Begun::Calls(DeviceCall::ResetDevice))
    }

    fn get_features<'a>(_session: &Session, message: &Incoming<'a>) -> Result<Begun<'a>>
        ensures { (hs : List H) → Begins B G code.GET_FEATURES _session.now message.now hs result }
    {
        Checks::<H>::check_request_size(message, 0)?;
        Ok(Begun::Calls(DeviceCall::GetFeatures))
    }

    fn set_features<'a>(session: &Session, message: &Incoming<'a>) -> Result<Begun<'a>>
        ensures { (hs : List H) → Begins B G code.SET_FEATURES session.now message.now hs result }
    {
        let features: VhostUserU64 = Checks::<H>::extract_request_body(message)?;
        Ok(Begun::Calls(DeviceCall::SetFeatures(features.value)))
    }

    /// While postcopy listens, a body of eight bytes says that the regions are mapped.
    fn set_mem_table<'a>(
        session: &Session,
        message: &Incoming<'a>,
        handles: &Option<Vec<H>>,
    ) -> Result<Begun<'a>>
        ensures { Begins B G code.SET_MEM_TABLE session.now message.now (handles_in handles.now) result }
    {
        if session.is_listening() && message.body.len() == 8 {
            let number: VhostUserU64 = Checks::<H>::extract_request_body(message)?;
            Checks::<H>::check_zero(number.value)?;
            return Ok(Begun::Calls(DeviceCall::PostcopyAckMemRegions));
        }
        let Some(files) = handles else {
            return Ok(Begun::Refuses(Refusal::InvalidMessage));
        };
        let Some(table) = message.table(session, files.len()) else {
            return Ok(Begun::Refuses(Refusal::InvalidMessage));
        };
        Ok(Begun::Calls(DeviceCall::SetMemTable(table, session.is_listening())))
    }

    fn set_log_base<'a>(
        session: &Session,
        message: &Incoming<'a>,
        handles: &Option<Vec<H>>,
    ) -> Result<Begun<'a>>
        ensures { Begins B G code.SET_LOG_BASE session.now message.now (handles_in handles.now) result }
    {
        Checks::<H>::check_proto_feature(session, protocol_bit::LOG_SHMFD)?;
        Checks::<H>::one_handle(handles, Refusal::IncorrectFds)?;
        let log: VhostUserLog = Checks::<H>::extract_request_body(message)?;
        Ok(Begun::Calls(DeviceCall::SetLogBase(log)))
    }

    fn set_vring_num<'a>(session: &Session, message: &Incoming<'a>) -> Result<Begun<'a>>
        ensures { (hs : List H) → Begins B G code.SET_VRING_NUM session.now message.now hs result }
    {
        let ring: VhostUserVringState = Checks::<H>::extract_request_body(message)?;
        Ok(Begun::Calls(DeviceCall::SetVringNum(ring.index, ring.num)))
    }

    fn set_vring_base<'a>(session: &Session, message: &Incoming<'a>) -> Result<Begun<'a>>
        ensures { (hs : List H) → Begins B G code.SET_VRING_BASE session.now message.now hs result }
    {
        let ring: VhostUserVringState = Checks::<H>::extract_request_body(message)?;
        Ok(Begun::Calls(DeviceCall::SetVringBase(ring.index, ring.num)))
    }

    fn set_vring_addr<'a>(session: &Session, message: &Incoming<'a>) -> Result<Begun<'a>>
        ensures { (hs : List H) → Begins B G code.SET_VRING_ADDR session.now message.now hs result }
    {
        let ring: VhostUserVringAddr = Checks::<H>::extract_request_body(message)?;
        Ok(Begun::Calls(DeviceCall::SetVringAddr(ring)))
    }

    fn get_vring_base<'a>(session: &Session, message: &Incoming<'a>) -> Result<Begun<'a>>
        ensures { (hs : List H) → Begins B G code.GET_VRING_BASE session.now message.now hs result }
    {
        let ring: VhostUserVringState = Checks::<H>::extract_request_body(message)?;
        Ok(Begun::Calls(DeviceCall::GetVringBase(ring.index)))
    }

    /// The index of a ring, and whether one file descriptor comes with it.
    fn handle_vring_fd_request(message: &Incoming, handles: &Option<Vec<H>>) -> Result<(u8, bool)>
        ensures { (next : ℕ → Option H → Step H B G) → (tested result then (λ ring. with_wanted ring.1 (handles_in handles.now) (next ring.0))) ≡ row.ring_row (message_in message.now (handles_in handles.now)) next }
    {
        let number: VhostUserU64 = Checks::<H>::extract_request_body(message)?;
        let index = (number.value % 256) as u8;
        if has_bit(number.value, 8) {
            Checks::<H>::not_one(handles)?;
            Ok((index, false))
        } else {
            Checks::<H>::one_handle(handles, Refusal::InvalidMessage)?;
            Ok((index, true))
        }
    }

    fn set_vring_kick<'a>(
        _session: &Session,
        message: &Incoming<'a>,
        handles: &Option<Vec<H>>,
    ) -> Result<Begun<'a>>
        ensures { Begins B G code.SET_VRING_KICK _session.now message.now (handles_in handles.now) result }
    {
        let (index, wants) = Self::handle_vring_fd_request(message, handles)?;
        Ok(Begun::Calls(DeviceCall::SetVringKick(index, wants)))
    }

    fn set_vring_call<'a>(
        _session: &Session,
        message: &Incoming<'a>,
        handles: &Option<Vec<H>>,
    ) -> Result<Begun<'a>>
        ensures { Begins B G code.SET_VRING_CALL _session.now message.now (handles_in handles.now) result }
    {
        let (index, wants) = Self::handle_vring_fd_request(message, handles)?;
        Ok(Begun::Calls(DeviceCall::SetVringCall(index, wants)))
    }

    fn set_vring_err<'a>(
        _session: &Session,
        message: &Incoming<'a>,
        handles: &Option<Vec<H>>,
    ) -> Result<Begun<'a>>
        ensures { Begins B G code.SET_VRING_ERR _session.now message.now (handles_in handles.now) result }
    {
        let (index, wants) = Self::handle_vring_fd_request(message, handles)?;
        Ok(Begun::Calls(DeviceCall::SetVringErr(index, wants)))
    }

    fn get_protocol_features<'a>(_session: &Session, message: &Incoming<'a>) -> Result<Begun<'a>>
        ensures { (hs : List H) → Begins B G code.GET_PROTOCOL_FEATURES _session.now message.now hs result }
    {
        Checks::<H>::check_request_size(message, 0)?;
        Ok(Begun::Calls(DeviceCall::GetProtocolFeatures))
    }

    fn set_protocol_features<'a>(session: &Session, message: &Incoming<'a>) -> Result<Begun<'a>>
        ensures { (hs : List H) → Begins B G code.SET_PROTOCOL_FEATURES session.now message.now hs result }
    {
        let features: VhostUserU64 = Checks::<H>::extract_request_body(message)?;
        Ok(Begun::Calls(DeviceCall::SetProtocolFeatures(features.value)))
    }

    fn get_queue_num<'a>(session: &Session, message: &Incoming<'a>) -> Result<Begun<'a>>
        ensures { (hs : List H) → Begins B G code.GET_QUEUE_NUM session.now message.now hs result }
    {
        Checks::<H>::check_proto_feature(session, protocol_bit::MQ)?;
        Checks::<H>::check_request_size(message, 0)?;
        Ok(Begun::Calls(DeviceCall::GetQueueNum))
    }

    fn get_max_mem_slots<'a>(session: &Session, message: &Incoming<'a>) -> Result<Begun<'a>>
        ensures { (hs : List H) → Begins B G code.GET_MAX_MEM_SLOTS session.now message.now hs result }
    {
        Checks::<H>::check_proto_feature(session, protocol_bit::CONFIGURE_MEM_SLOTS)?;
        Checks::<H>::check_request_size(message, 0)?;
        Ok(Begun::Calls(DeviceCall::GetMaxMemSlots))
    }

    fn set_vring_enable<'a>(session: &Session, message: &Incoming<'a>) -> Result<Begun<'a>>
        ensures { (hs : List H) → Begins B G code.SET_VRING_ENABLE session.now message.now hs result }
    {
        let ring: VhostUserVringState = Checks::<H>::extract_request_body(message)?;
        Checks::<H>::check_feature(session, virtio_bit::PROTOCOL_FEATURES)?;
        Checks::<H>::check_flag_number(ring.num)?;
        Ok(Begun::Calls(DeviceCall::SetVringEnable(ring.index, ring.num == 1)))
    }

    fn net_set_mtu<'a>(session: &Session, message: &Incoming<'a>) -> Result<Begun<'a>>
        ensures { (hs : List H) → Begins B G code.NET_SET_MTU session.now message.now hs result }
    {
        Checks::<H>::check_proto_feature(session, protocol_bit::MTU)?;
        let number: VhostUserU64 = Checks::<H>::extract_request_body(message)?;
        let mtu = Checks::<H>::to_u16(number.value)?;
        Ok(Begun::Calls(DeviceCall::SetMtu(mtu)))
    }

    fn get_config<'a>(session: &Session, message: &Incoming<'a>) -> Result<Begun<'a>>
        ensures { (hs : List H) → Begins B G code.GET_CONFIG session.now message.now hs result }
    {
        Checks::<H>::check_proto_feature(session, protocol_bit::CONFIG)?;
        Checks::<H>::check_valid(!message.reply)?;
        let Some(area) = message.area() else {
            return Err(Refusal::InvalidMessage);
        };
        Ok(Begun::Calls(DeviceCall::GetConfig(area)))
    }

    fn set_config<'a>(session: &Session, message: &Incoming<'a>) -> Result<Begun<'a>>
        ensures { (hs : List H) → Begins B G code.SET_CONFIG session.now message.now hs result }
    {
        Checks::<H>::check_proto_feature(session, protocol_bit::CONFIG)?;
        Checks::<H>::check_valid(!message.reply)?;
        let Some(area) = message.area() else {
            return Ok(Begun::Refuses(Refusal::InvalidMessage));
        };
        Ok(Begun::Calls(DeviceCall::SetConfig(area, &message.body[12..])))
    }

    fn set_backend_req_fd<'a>(
        session: &Session,
        message: &Incoming<'a>,
        handles: &Option<Vec<H>>,
    ) -> Result<Begun<'a>>
        ensures { Begins B G code.SET_BACKEND_REQ_FD session.now message.now (handles_in handles.now) result }
    {
        Checks::<H>::check_proto_feature(session, protocol_bit::BACKEND_REQ)?;
        Checks::<H>::check_valid(!message.reply)?;
        match Checks::<H>::one_handle(handles, Refusal::InvalidMessage) {
            Ok(()) => Ok(Begun::Calls(DeviceCall::SetBackendReqFd)),
            Err(error) => Ok(Begun::Refuses(error)),
        }
    }

    fn gpu_set_socket<'a>(
        _session: &Session,
        _message: &Incoming<'a>,
        handles: &Option<Vec<H>>,
    ) -> Result<Begun<'a>>
        ensures { Begins B G code.GPU_SET_SOCKET _session.now _message.now (handles_in handles.now) result }
    {
        match Checks::<H>::one_handle(handles, Refusal::InvalidMessage) {
            Ok(()) => Ok(Begun::Calls(DeviceCall::SetGpuSocket)),
            Err(error) => Ok(Begun::Refuses(error)),
        }
    }

    fn get_shared_object<'a>(session: &Session, message: &Incoming<'a>) -> Result<Begun<'a>>
        ensures { (hs : List H) → Begins B G code.GET_SHARED_OBJECT session.now message.now hs result }
    {
        Checks::<H>::check_proto_feature(session, protocol_bit::SHARED_OBJECT)?;
        match Checks::<H>::extract_request_body::<VhostUserSharedMsg>(message) {
            Ok(name) => Ok(Begun::Calls(DeviceCall::GetSharedObject(name))),
            Err(error) => Err(error),
        }
    }

    fn get_inflight_fd<'a>(session: &Session, message: &Incoming<'a>) -> Result<Begun<'a>>
        ensures { (hs : List H) → Begins B G code.GET_INFLIGHT_FD session.now message.now hs result }
    {
        Checks::<H>::check_proto_feature(session, protocol_bit::INFLIGHT_SHMFD)?;
        let area: VhostUserInflight = Checks::<H>::extract_request_body(message)?;
        Ok(Begun::Calls(DeviceCall::GetInflightFd(area)))
    }

    fn set_inflight_fd<'a>(
        session: &Session,
        message: &Incoming<'a>,
        handles: &Option<Vec<H>>,
    ) -> Result<Begun<'a>>
        ensures { Begins B G code.SET_INFLIGHT_FD session.now message.now (handles_in handles.now) result }
    {
        Checks::<H>::check_proto_feature(session, protocol_bit::INFLIGHT_SHMFD)?;
        Checks::<H>::one_handle(handles, Refusal::IncorrectFds)?;
        let area: VhostUserInflight = Checks::<H>::extract_request_body(message)?;
        Ok(Begun::Calls(DeviceCall::SetInflightFd(area)))
    }

    /// While postcopy listens, a body of eight bytes says that the regions are mapped.
    fn add_mem_reg<'a>(
        session: &Session,
        message: &Incoming<'a>,
        handles: &Option<Vec<H>>,
    ) -> Result<Begun<'a>>
        ensures { Begins B G code.ADD_MEM_REG session.now message.now (handles_in handles.now) result }
    {
        Checks::<H>::check_proto_feature(session, protocol_bit::CONFIGURE_MEM_SLOTS)?;
        if session.is_listening() && message.body.len() == 8 {
            let number: VhostUserU64 = Checks::<H>::extract_request_body(message)?;
            Checks::<H>::check_zero(number.value)?;
            return Ok(Begun::Calls(DeviceCall::PostcopyAckMemRegions));
        }
        Checks::<H>::one_handle(handles, Refusal::InvalidParam)?;
        let region: VhostUserSingleMemoryRegion = Checks::<H>::extract_request_body(message)?;
        Ok(Begun::Calls(DeviceCall::AddMemRegion(region, session.is_listening())))
    }

    /// While postcopy listens, a body of eight bytes says that the regions are mapped.
    fn rem_mem_reg<'a>(session: &Session, message: &Incoming<'a>) -> Result<Begun<'a>>
        ensures { (hs : List H) → Begins B G code.REM_MEM_REG session.now message.now hs result }
    {
        Checks::<H>::check_proto_feature(session, protocol_bit::CONFIGURE_MEM_SLOTS)?;
        if session.is_listening() && message.body.len() == 8 {
            let number: VhostUserU64 = Checks::<H>::extract_request_body(message)?;
            Checks::<H>::check_zero(number.value)?;
            return Ok(Begun::Calls(DeviceCall::PostcopyAckMemRegions));
        }
        let region: VhostUserSingleMemoryRegion = Checks::<H>::extract_request_body(message)?;
        Ok(Begun::Calls(DeviceCall::RemoveMemRegion(region)))
    }

    fn set_device_state_fd<'a>(
        _session: &Session,
        message: &Incoming<'a>,
        handles: &Option<Vec<H>>,
    ) -> Result<Begun<'a>>
        ensures { Begins B G code.SET_DEVICE_STATE_FD _session.now message.now (handles_in handles.now) result }
    {
        Checks::<H>::one_handle(handles, Refusal::IncorrectFds)?;
        let transfer: VhostUserTransferDeviceState = Checks::<H>::extract_request_body(message)?;
        let Some((direction, phase)) = direction_and_phase(&transfer) else {
            return Err(Refusal::InvalidMessage);
        };
        Ok(Begun::Calls(DeviceCall::SetDeviceStateFd(direction, phase)))
    }

    fn check_device_state<'a>(_session: &Session, _message: &Incoming<'a>) -> Result<Begun<'a>>
        ensures { (hs : List H) → Begins B G code.CHECK_DEVICE_STATE _session.now _message.now hs result }
    {
        Ok(Begun::Calls(DeviceCall::CheckDeviceState))
    }

    fn get_shmem_config<'a>(session: &Session, _message: &Incoming<'a>) -> Result<Begun<'a>>
        ensures { (hs : List H) → Begins B G code.GET_SHMEM_CONFIG session.now _message.now hs result }
    {
        Checks::<H>::check_proto_feature(session, protocol_bit::SHMEM)?;
        Ok(Begun::Calls(DeviceCall::GetShmemConfig))
    }

    fn postcopy_advise<'a>(session: &Session, _message: &Incoming<'a>) -> Result<Begun<'a>>
        ensures { (hs : List H) → Begins B G code.POSTCOPY_ADVISE session.now _message.now hs result }
    {
        Checks::<H>::check_proto_feature(session, protocol_bit::PAGEFAULT)?;
        Checks::<H>::check_postcopy(session.is_inactive(), Refusal::AlreadyAdvised)?;
        Ok(Begun::Calls(DeviceCall::PostcopyAdvice))
    }

    fn postcopy_listen<'a>(session: &Session, _message: &Incoming<'a>) -> Result<Begun<'a>>
        ensures { (hs : List H) → Begins B G code.POSTCOPY_LISTEN session.now _message.now hs result }
    {
        Checks::<H>::check_proto_feature(session, protocol_bit::PAGEFAULT)?;
        Checks::<H>::check_postcopy(session.is_advised(), Refusal::NotAdvised)?;
        Ok(Begun::Calls(DeviceCall::PostcopyListen))
    }

    fn postcopy_end<'a>(session: &Session, _message: &Incoming<'a>) -> Result<Begun<'a>>
        ensures { (hs : List H) → Begins B G code.POSTCOPY_END session.now _message.now hs result }
    {
        Checks::<H>::check_proto_feature(session, protocol_bit::PAGEFAULT)?;
        Checks::<H>::check_postcopy(session.is_listening(), Refusal::NotListening)?;
        Ok(Begun::Calls(DeviceCall::PostcopyEnd))
    }
}
