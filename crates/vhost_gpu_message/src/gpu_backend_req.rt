//! The requests of a backend to a display.

ghost use Rattle.std.specs.Prelude.{◌≡◌, true};
ghost use Rattle.vhost_gpu_message.specs.GpuBackendReq.{gpu_request_number, gpu_request_of, gpu_request_at, gpu_request_of-number, gpu_request_number-of};

use vhost_message::Req;

/// What a backend asks of the display, by the number in the header of the message (vhost-user-gpu specification,
/// "Message types").
#[derive(Clone, Copy, Debug, PartialEq, Eq, PartialOrd, Ord)]
pub enum GpuBackendReq {
    // generated from protocol/requests.toml: variants
    GET_PROTOCOL_FEATURES = 1,
    SET_PROTOCOL_FEATURES = 2,
    GET_DISPLAY_INFO = 3,
    CURSOR_POS = 4,
    CURSOR_POS_HIDE = 5,
    CURSOR_UPDATE = 6,
    SCANOUT = 7,
    UPDATE = 8,
    DMABUF_SCANOUT = 9,
    DMABUF_UPDATE = 10,
    GET_EDID = 11,
    DMABUF_SCANOUT2 = 12,
    // end
}

impl From<GpuBackendReq> for u32 {
    ghost from_gives = { λ code number. number ≡ gpu_request_number code };

    fn from(code: GpuBackendReq) -> u32 {
        code as u32
    }
}

impl TryFrom<u32> for GpuBackendReq {
    type Error = ();

    ghost try_from_gives = { λ number code. code ≡ gpu_request_at number };

    fn try_from(value: u32) -> Result<GpuBackendReq, ()> {
        match value {
            // generated from protocol/requests.toml: requests
            1 => Ok(GpuBackendReq::GET_PROTOCOL_FEATURES),
            2 => Ok(GpuBackendReq::SET_PROTOCOL_FEATURES),
            3 => Ok(GpuBackendReq::GET_DISPLAY_INFO),
            4 => Ok(GpuBackendReq::CURSOR_POS),
            5 => Ok(GpuBackendReq::CURSOR_POS_HIDE),
            6 => Ok(GpuBackendReq::CURSOR_UPDATE),
            7 => Ok(GpuBackendReq::SCANOUT),
            8 => Ok(GpuBackendReq::UPDATE),
            9 => Ok(GpuBackendReq::DMABUF_SCANOUT),
            10 => Ok(GpuBackendReq::DMABUF_UPDATE),
            11 => Ok(GpuBackendReq::GET_EDID),
            12 => Ok(GpuBackendReq::DMABUF_SCANOUT2),
            // end
            _ => Err(()),
        }
    }
}

impl Req for GpuBackendReq {
    ghost number = { gpu_request_number };

    ghost code = { gpu_request_of };

    ghost any = { gpu_request_of };

    ghost named = { λ _. true };

    ghost code_of_number = { λ code _. gpu_request_of-number code };

    ghost number_of_code = { gpu_request_number-of };

    ghost number_of_any = { gpu_request_number-of };

    ghost any_of_code = { λ _ _ is. is };

    fn number(self) -> u32 {
        self.into()
    }

    fn code(n: u32) -> Option<GpuBackendReq> {
        GpuBackendReq::try_from(n).ok()
    }

    fn any(n: u32) -> Option<GpuBackendReq> {
        GpuBackendReq::try_from(n).ok()
    }
}
