//! The requests of a frontend.

ghost use Rattle.std.specs.Prelude.{◌≡◌, true};
ghost use Rattle.vhost_message.specs.FrontendReq.{frontend_request_number, frontend_request_of, frontend_request_at, frontend_request_of-number, frontend_request_number-of};

use crate::heard_req::HeardReq;
use crate::req::Req;

/// What a frontend asks of a backend, by the number in the header of the message (vhost-user specification, "Front-end
/// message types").
#[derive(Clone, Copy, Debug, PartialEq, Eq, PartialOrd, Ord)]
pub enum FrontendReq {
    // generated from protocol/requests.toml: variants
    GET_FEATURES = 1,
    SET_FEATURES = 2,
    SET_OWNER = 3,
    RESET_OWNER = 4,
    SET_MEM_TABLE = 5,
    SET_LOG_BASE = 6,
    SET_LOG_FD = 7,
    SET_VRING_NUM = 8,
    SET_VRING_ADDR = 9,
    SET_VRING_BASE = 10,
    GET_VRING_BASE = 11,
    SET_VRING_KICK = 12,
    SET_VRING_CALL = 13,
    SET_VRING_ERR = 14,
    GET_PROTOCOL_FEATURES = 15,
    SET_PROTOCOL_FEATURES = 16,
    GET_QUEUE_NUM = 17,
    SET_VRING_ENABLE = 18,
    SEND_RARP = 19,
    NET_SET_MTU = 20,
    SET_BACKEND_REQ_FD = 21,
    IOTLB_MSG = 22,
    SET_VRING_ENDIAN = 23,
    GET_CONFIG = 24,
    SET_CONFIG = 25,
    CREATE_CRYPTO_SESSION = 26,
    CLOSE_CRYPTO_SESSION = 27,
    POSTCOPY_ADVISE = 28,
    POSTCOPY_LISTEN = 29,
    POSTCOPY_END = 30,
    GET_INFLIGHT_FD = 31,
    SET_INFLIGHT_FD = 32,
    GPU_SET_SOCKET = 33,
    RESET_DEVICE = 34,
    VRING_KICK = 35,
    GET_MAX_MEM_SLOTS = 36,
    ADD_MEM_REG = 37,
    REM_MEM_REG = 38,
    SET_STATUS = 39,
    GET_STATUS = 40,
    GET_SHARED_OBJECT = 41,
    SET_DEVICE_STATE_FD = 42,
    CHECK_DEVICE_STATE = 43,
    GET_SHMEM_CONFIG = 44,
    // end
}

impl From<FrontendReq> for u32 {
    ghost from_gives = { λ code number. number ≡ frontend_request_number code };

    fn from(code: FrontendReq) -> u32 {
        code as u32
    }
}

impl TryFrom<u32> for FrontendReq {
    type Error = ();

    ghost try_from_gives = { λ number code. code ≡ frontend_request_at number };

    fn try_from(value: u32) -> Result<FrontendReq, ()> {
        match value {
            // generated from protocol/requests.toml: requests
            1 => Ok(FrontendReq::GET_FEATURES),
            2 => Ok(FrontendReq::SET_FEATURES),
            3 => Ok(FrontendReq::SET_OWNER),
            4 => Ok(FrontendReq::RESET_OWNER),
            5 => Ok(FrontendReq::SET_MEM_TABLE),
            6 => Ok(FrontendReq::SET_LOG_BASE),
            7 => Ok(FrontendReq::SET_LOG_FD),
            8 => Ok(FrontendReq::SET_VRING_NUM),
            9 => Ok(FrontendReq::SET_VRING_ADDR),
            10 => Ok(FrontendReq::SET_VRING_BASE),
            11 => Ok(FrontendReq::GET_VRING_BASE),
            12 => Ok(FrontendReq::SET_VRING_KICK),
            13 => Ok(FrontendReq::SET_VRING_CALL),
            14 => Ok(FrontendReq::SET_VRING_ERR),
            15 => Ok(FrontendReq::GET_PROTOCOL_FEATURES),
            16 => Ok(FrontendReq::SET_PROTOCOL_FEATURES),
            17 => Ok(FrontendReq::GET_QUEUE_NUM),
            18 => Ok(FrontendReq::SET_VRING_ENABLE),
            19 => Ok(FrontendReq::SEND_RARP),
            20 => Ok(FrontendReq::NET_SET_MTU),
            21 => Ok(FrontendReq::SET_BACKEND_REQ_FD),
            22 => Ok(FrontendReq::IOTLB_MSG),
            23 => Ok(FrontendReq::SET_VRING_ENDIAN),
            24 => Ok(FrontendReq::GET_CONFIG),
            25 => Ok(FrontendReq::SET_CONFIG),
            26 => Ok(FrontendReq::CREATE_CRYPTO_SESSION),
            27 => Ok(FrontendReq::CLOSE_CRYPTO_SESSION),
            28 => Ok(FrontendReq::POSTCOPY_ADVISE),
            29 => Ok(FrontendReq::POSTCOPY_LISTEN),
            30 => Ok(FrontendReq::POSTCOPY_END),
            31 => Ok(FrontendReq::GET_INFLIGHT_FD),
            32 => Ok(FrontendReq::SET_INFLIGHT_FD),
            33 => Ok(FrontendReq::GPU_SET_SOCKET),
            34 => Ok(FrontendReq::RESET_DEVICE),
            35 => Ok(FrontendReq::VRING_KICK),
            36 => Ok(FrontendReq::GET_MAX_MEM_SLOTS),
            37 => Ok(FrontendReq::ADD_MEM_REG),
            38 => Ok(FrontendReq::REM_MEM_REG),
            39 => Ok(FrontendReq::SET_STATUS),
            40 => Ok(FrontendReq::GET_STATUS),
            41 => Ok(FrontendReq::GET_SHARED_OBJECT),
            42 => Ok(FrontendReq::SET_DEVICE_STATE_FD),
            43 => Ok(FrontendReq::CHECK_DEVICE_STATE),
            44 => Ok(FrontendReq::GET_SHMEM_CONFIG),
            // end
            _ => Err(()),
        }
    }
}

impl Req for FrontendReq {
    ghost number = { frontend_request_number };

    ghost code = { frontend_request_of };

    ghost any = { frontend_request_of };

    ghost named = { λ _. true };

    ghost code_of_number = { λ code _. frontend_request_of-number code };

    ghost number_of_code = { frontend_request_number-of };

    ghost number_of_any = { frontend_request_number-of };

    ghost any_of_code = { λ _ _ is. is };

    fn number(self) -> u32 {
        self.into()
    }

    fn code(n: u32) -> Option<FrontendReq> {
        FrontendReq::try_from(n).ok()
    }

    fn any(n: u32) -> Option<FrontendReq> {
        FrontendReq::try_from(n).ok()
    }
}
