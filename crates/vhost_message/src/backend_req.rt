//! The requests of a backend.

ghost use Rattle.std.specs.Prelude.{◌≡◌, true};
ghost use Rattle.vhost_message.specs.BackendReq.{backend_request_number, backend_request_of, backend_request_at, backend_request_of-number, backend_request_number-of};

use crate::req::Req;

/// What a backend asks of a frontend over the backend channel, by the number in the header of the message (vhost-user
/// specification, "Back-end message types").
#[derive(Clone, Copy, Debug, PartialEq, Eq, PartialOrd, Ord)]
pub enum BackendReq {
    // generated from protocol/requests.toml: variants
    IOTLB_MSG = 1,
    CONFIG_CHANGE_MSG = 2,
    VRING_HOST_NOTIFIER_MSG = 3,
    VRING_CALL = 4,
    VRING_ERR = 5,
    SHARED_OBJECT_ADD = 6,
    SHARED_OBJECT_REMOVE = 7,
    SHARED_OBJECT_LOOKUP = 8,
    SHMEM_MAP = 9,
    SHMEM_UNMAP = 10,
    // end
}

impl From<BackendReq> for u32 {
    ghost from_gives = { λ code number. number ≡ backend_request_number code };

    fn from(code: BackendReq) -> u32 {
        code as u32
    }
}

impl TryFrom<u32> for BackendReq {
    type Error = ();

    ghost try_from_gives = { λ number code. code ≡ backend_request_at number };

    fn try_from(value: u32) -> Result<BackendReq, ()> {
        match value {
            // generated from protocol/requests.toml: requests
            1 => Ok(BackendReq::IOTLB_MSG),
            2 => Ok(BackendReq::CONFIG_CHANGE_MSG),
            3 => Ok(BackendReq::VRING_HOST_NOTIFIER_MSG),
            4 => Ok(BackendReq::VRING_CALL),
            5 => Ok(BackendReq::VRING_ERR),
            6 => Ok(BackendReq::SHARED_OBJECT_ADD),
            7 => Ok(BackendReq::SHARED_OBJECT_REMOVE),
            8 => Ok(BackendReq::SHARED_OBJECT_LOOKUP),
            9 => Ok(BackendReq::SHMEM_MAP),
            10 => Ok(BackendReq::SHMEM_UNMAP),
            // end
            _ => Err(()),
        }
    }
}

impl Req for BackendReq {
    ghost number = { backend_request_number };

    ghost code = { backend_request_of };

    ghost any = { backend_request_of };

    ghost named = { λ _. true };

    ghost code_of_number = { λ code _. backend_request_of-number code };

    ghost number_of_code = { backend_request_number-of };

    ghost number_of_any = { backend_request_number-of };

    ghost any_of_code = { λ _ _ is. is };

    fn number(self) -> u32 {
        self.into()
    }

    fn code(n: u32) -> Option<BackendReq> {
        BackendReq::try_from(n).ok()
    }

    fn any(n: u32) -> Option<BackendReq> {
        BackendReq::try_from(n).ok()
    }
}
