//! Constants, and the order of codes.

use bitflags::Flags;
use vhost_gpu_message::{GpuBackendReq, VhostUserGpuMsgHeader, VhostUserGpuProtocolFeatures};
use vhost_message::{
    FrontendReq, MsgHeader, VhostTransferStateDirection, VhostUserProtocolFeatures,
};
use vhost_protocol::{ASKED_PROTOCOL_FEATURES, SERVED_PROTOCOL_FEATURES};

#[test]
fn features(rt: HostRuntime) {
    let all = (
        VhostUserProtocolFeatures::all().bits(),
        VhostUserGpuProtocolFeatures::all().bits(),
    );
    assert!(rt; all == (0x7f_ffff, 1));
    assert!(rt; (ASKED_PROTOCOL_FEATURES, SERVED_PROTOCOL_FEATURES) == (0x4c_b33b, 0x4c_bf3b));
}

#[test]
fn sizes(rt: HostRuntime) {
    assert!(rt; <VhostUserGpuMsgHeader<GpuBackendReq> as MsgHeader>::MAX_MSG_SIZE == 0xffff_ffff);
}

#[test]
fn order(rt: HostRuntime) {
    let ordered = [
        FrontendReq::SET_OWNER < FrontendReq::RESET_OWNER,
        GpuBackendReq::CURSOR_POS < GpuBackendReq::CURSOR_POS_HIDE,
        VhostTransferStateDirection::SAVE < VhostTransferStateDirection::LOAD,
    ];
    assert!(rt; ordered == [true; 3]);
}
