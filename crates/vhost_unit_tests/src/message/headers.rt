//! Headers as they are shown.

use crate::texts::has_fields;
use vhost_gpu_message::{GpuBackendReq, VhostUserGpuMsgHeader};
use vhost_message::{FrontendReq, VhostUserMsgHeader};

#[test]
fn of_a_reply(rt: HostRuntime) {
    let reply = VhostUserMsgHeader::new(FrontendReq::GET_FEATURES, 4, 24);
    let fields = "VhostUserMsgHeader { request: 1, flags: 5, size: 24 }";
    assert!(rt; has_fields(rt.alloc(), &reply, fields));
}

#[test]
fn of_a_display(rt: HostRuntime) {
    let reply = VhostUserGpuMsgHeader::new(GpuBackendReq::GET_EDID, 4, 1056);
    let fields = "VhostUserGpuMsgHeader { request: 11, flags: 4, size: 1056 }";
    assert!(rt; has_fields(rt.alloc(), &reply, fields));
}
