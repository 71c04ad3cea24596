//! What a backend may hear as a request: one of a frontend, or a number of nobody.

ghost use Rattle.std.specs.Prelude.{◌≡◌};
ghost use Rattle.vhost_message.specs.FrontendReq.{frontend_request_number};
ghost use Rattle.vhost_message.specs.HeardReq.{heard, heard_request, request_number, request_of, any_request, request_at, is_named, request_of-request_number, request_number-request_of, any-is_named, request_number-any};

use crate::frontend_req::FrontendReq;
use crate::req::Req;

/// The number in the header of a message as a backend hears it: each request of a frontend, and under some profiles any other number. Who
/// asks names a [`FrontendReq`], which has no other.
#[derive(Clone, Copy, Debug, PartialEq, Eq, PartialOrd, Ord)]
pub enum HeardReq {
    // generated from protocol/requests.toml: variants
    GET_FEATURES,
    SET_FEATURES,
    SET_OWNER,
    RESET_OWNER,
    SET_MEM_TABLE,
    SET_LOG_BASE,
    SET_LOG_FD,
    SET_VRING_NUM,
    SET_VRING_ADDR,
    SET_VRING_BASE,
    GET_VRING_BASE,
    SET_VRING_KICK,
    SET_VRING_CALL,
    SET_VRING_ERR,
    GET_PROTOCOL_FEATURES,
    SET_PROTOCOL_FEATURES,
    GET_QUEUE_NUM,
    SET_VRING_ENABLE,
    SEND_RARP,
    NET_SET_MTU,
    SET_BACKEND_REQ_FD,
    IOTLB_MSG,
    SET_VRING_ENDIAN,
    GET_CONFIG,
    SET_CONFIG,
    CREATE_CRYPTO_SESSION,
    CLOSE_CRYPTO_SESSION,
    POSTCOPY_ADVISE,
    POSTCOPY_LISTEN,
    POSTCOPY_END,
    GET_INFLIGHT_FD,
    SET_INFLIGHT_FD,
    GPU_SET_SOCKET,
    RESET_DEVICE,
    VRING_KICK,
    GET_MAX_MEM_SLOTS,
    ADD_MEM_REG,
    REM_MEM_REG,
    SET_STATUS,
    GET_STATUS,
    GET_SHARED_OBJECT,
    SET_DEVICE_STATE_FD,
    CHECK_DEVICE_STATE,
    GET_SHMEM_CONFIG,
    // end
    /// A number that is no request's. It is heard under some profiles, and served by nobody.
    OTHER(u32),
}

impl HeardReq {
    /// What a number is heard as, where any may be.
    pub fn of(number: u32) -> HeardReq
        ensures { result ≡ heard_request number }
    {
        HeardReq::try_from(number).unwrap_or(HeardReq::OTHER(number))
    }
}

/// A request is heard as itself.
impl From<FrontendReq> for HeardReq {
    ghost from_gives = { λ code it. it ≡ heard code };

    fn from(code: FrontendReq) -> HeardReq {
        HeardReq::of(code.into())
    }
}

impl From<HeardReq> for u32 {
    ghost from_gives = { λ code number. number ≡ request_number code };

    fn from(code: HeardReq) -> u32 {
        match code {
            // generated from protocol/requests.toml: numbers
            HeardReq::GET_FEATURES => 1,
            HeardReq::SET_FEATURES => 2,
            HeardReq::SET_OWNER => 3,
            HeardReq::RESET_OWNER => 4,
            HeardReq::SET_MEM_TABLE => 5,
            HeardReq::SET_LOG_BASE => 6,
            HeardReq::SET_LOG_FD => 7,
            HeardReq::SET_VRING_NUM => 8,
            HeardReq::SET_VRING_ADDR => 9,
            HeardReq::SET_VRING_BASE => 10,
            HeardReq::GET_VRING_BASE => 11,
            HeardReq::SET_VRING_KICK => 12,
            HeardReq::SET_VRING_CALL => 13,
            HeardReq::SET_VRING_ERR => 14,
            HeardReq::GET_PROTOCOL_FEATURES => 15,
            HeardReq::SET_PROTOCOL_FEATURES => 16,
            HeardReq::GET_QUEUE_NUM => 17,
            HeardReq::SET_VRING_ENABLE => 18,
            HeardReq::SEND_RARP => 19,
            HeardReq::NET_SET_MTU => 20,
            HeardReq::SET_BACKEND_REQ_FD => 21,
            HeardReq::IOTLB_MSG => 22,
            HeardReq::SET_VRING_ENDIAN => 23,
            HeardReq::GET_CONFIG => 24,
            HeardReq::SET_CONFIG => 25,
            HeardReq::CREATE_CRYPTO_SESSION => 26,
            HeardReq::CLOSE_CRYPTO_SESSION => 27,
            HeardReq::POSTCOPY_ADVISE => 28,
            HeardReq::POSTCOPY_LISTEN => 29,
            HeardReq::POSTCOPY_END => 30,
            HeardReq::GET_INFLIGHT_FD => 31,
            HeardReq::SET_INFLIGHT_FD => 32,
            HeardReq::GPU_SET_SOCKET => 33,
            HeardReq::RESET_DEVICE => 34,
            HeardReq::VRING_KICK => 35,
            HeardReq::GET_MAX_MEM_SLOTS => 36,
            HeardReq::ADD_MEM_REG => 37,
            HeardReq::REM_MEM_REG => 38,
            HeardReq::SET_STATUS => 39,
            HeardReq::GET_STATUS => 40,
            HeardReq::GET_SHARED_OBJECT => 41,
            HeardReq::SET_DEVICE_STATE_FD => 42,
            HeardReq::CHECK_DEVICE_STATE => 43,
            HeardReq::GET_SHMEM_CONFIG => 44,
            // end
            HeardReq::OTHER(number) => number,
        }
    }
}

impl TryFrom<u32> for HeardReq {
    type Error = ();

    ghost try_from_gives = { λ number code. code ≡ request_at number };

    fn try_from(value: u32) -> Result<HeardReq, ()> {
        match value {
            // generated from protocol/requests.toml: requests
            1 => Ok(HeardReq::GET_FEATURES),
            2 => Ok(HeardReq::SET_FEATURES),
            3 => Ok(HeardReq::SET_OWNER),
            4 => Ok(HeardReq::RESET_OWNER),
            5 => Ok(HeardReq::SET_MEM_TABLE),
            6 => Ok(HeardReq::SET_LOG_BASE),
            7 => Ok(HeardReq::SET_LOG_FD),
            8 => Ok(HeardReq::SET_VRING_NUM),
            9 => Ok(HeardReq::SET_VRING_ADDR),
            10 => Ok(HeardReq::SET_VRING_BASE),
            11 => Ok(HeardReq::GET_VRING_BASE),
            12 => Ok(HeardReq::SET_VRING_KICK),
            13 => Ok(HeardReq::SET_VRING_CALL),
            14 => Ok(HeardReq::SET_VRING_ERR),
            15 => Ok(HeardReq::GET_PROTOCOL_FEATURES),
            16 => Ok(HeardReq::SET_PROTOCOL_FEATURES),
            17 => Ok(HeardReq::GET_QUEUE_NUM),
            18 => Ok(HeardReq::SET_VRING_ENABLE),
            19 => Ok(HeardReq::SEND_RARP),
            20 => Ok(HeardReq::NET_SET_MTU),
            21 => Ok(HeardReq::SET_BACKEND_REQ_FD),
            22 => Ok(HeardReq::IOTLB_MSG),
            23 => Ok(HeardReq::SET_VRING_ENDIAN),
            24 => Ok(HeardReq::GET_CONFIG),
            25 => Ok(HeardReq::SET_CONFIG),
            26 => Ok(HeardReq::CREATE_CRYPTO_SESSION),
            27 => Ok(HeardReq::CLOSE_CRYPTO_SESSION),
            28 => Ok(HeardReq::POSTCOPY_ADVISE),
            29 => Ok(HeardReq::POSTCOPY_LISTEN),
            30 => Ok(HeardReq::POSTCOPY_END),
            31 => Ok(HeardReq::GET_INFLIGHT_FD),
            32 => Ok(HeardReq::SET_INFLIGHT_FD),
            33 => Ok(HeardReq::GPU_SET_SOCKET),
            34 => Ok(HeardReq::RESET_DEVICE),
            35 => Ok(HeardReq::VRING_KICK),
            36 => Ok(HeardReq::GET_MAX_MEM_SLOTS),
            37 => Ok(HeardReq::ADD_MEM_REG),
            38 => Ok(HeardReq::REM_MEM_REG),
            39 => Ok(HeardReq::SET_STATUS),
            40 => Ok(HeardReq::GET_STATUS),
            41 => Ok(HeardReq::GET_SHARED_OBJECT),
            42 => Ok(HeardReq::SET_DEVICE_STATE_FD),
            43 => Ok(HeardReq::CHECK_DEVICE_STATE),
            44 => Ok(HeardReq::GET_SHMEM_CONFIG),
            // end
            _ => Err(()),
        }
    }
}

impl Req for HeardReq {
    ghost number = { request_number };

    ghost code = { request_of };

    ghost any = { any_request };

    ghost named = { is_named };

    ghost code_of_number = { request_of-request_number };

    ghost number_of_code = { request_number-request_of };

    ghost number_of_any = { request_number-any };

    ghost any_of_code = { any-is_named };

    fn number(self) -> u32 {
        self.into()
    }

    fn code(n: u32) -> Option<HeardReq> {
        HeardReq::try_from(n).ok()
    }

    fn any(n: u32) -> Option<HeardReq> {
        Some(HeardReq::of(n))
    }
}
