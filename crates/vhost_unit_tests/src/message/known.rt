//! Headers and records whose bytes and verdicts are known from outside.

use vhost_gpu_message::{GpuBackendReq, VhostUserGpuMsgHeader};
use vhost_message::{
    BackendReq, ByteValued, FrontendReq, VhostUserConfig, VhostUserConfigFlags, VhostUserInflight,
    VhostUserMMap, VhostUserMemoryRegion, VhostUserMsgHeader, VhostUserMsgValidator,
    VhostUserShMemConfig,
};

/// Whether GET_FEATURES with so large a body is a valid header.
fn takes_size(size: u32) -> bool {
    VhostUserMsgHeader::new(FrontendReq::GET_FEATURES, 0, size).is_valid()
}

/// Whether GET_FEATURES without a body is a valid header where its flags are this byte.
fn takes_flags(flags: u8) -> bool {
    let bytes = [1, 0, 0, 0, flags, 0, 0, 0, 0, 0, 0, 0];
    VhostUserMsgHeader::<FrontendReq>::decode(&bytes).is_valid()
}

#[test]
fn headers_that_are_valid(rt: HostRuntime) {
    assert!(rt; [takes_size(4096), takes_size(4097)] == [true, false]);
    assert!(rt; [takes_flags(1), takes_flags(5), takes_flags(9)] == [true; 3]);
    assert!(rt; [takes_flags(0x11), takes_flags(0), takes_flags(2)] == [false; 3]);
}

/// The bytes of a header with all flags, and of one whose version and code were changed.
fn headers() -> [[u8; 12]; 2] {
    let mut all = [0; 12];
    VhostUserMsgHeader::new(FrontendReq::GET_FEATURES, 0xffff_ffff, 0).encode_into(&mut all);
    let mut header = VhostUserMsgHeader::new(FrontendReq::GET_FEATURES, 0, 0x100);
    header.set_need_reply(true);
    header.set_version(6);
    header.set_code(FrontendReq::SET_FEATURES);
    let mut changed = [0; 12];
    header.encode_into(&mut changed);
    [all, changed]
}

#[test]
fn bytes_of_headers(rt: HostRuntime) {
    let all = [1, 0, 0, 0, 13, 0, 0, 0, 0, 0, 0, 0];
    let changed = [2, 0, 0, 0, 10, 0, 0, 0, 0, 1, 0, 0];
    assert!(rt; headers() == [all, changed]);
    assert!(rt; !VhostUserMsgHeader::<FrontendReq>::decode(&changed).is_valid());
}

/// A display's header with all flags: its bytes, and whether it is valid.
fn display_header() -> ([u8; 12], bool) {
    let header = VhostUserGpuMsgHeader::new(GpuBackendReq::GET_EDID, 0xffff_ffff, 4);
    let mut bytes = [0; 12];
    header.encode_into(&mut bytes);
    (bytes, header.is_valid())
}

#[test]
fn bytes_of_a_display_header(rt: HostRuntime) {
    let bytes = [11, 0, 0, 0, 255, 255, 255, 255, 4, 0, 0, 0];
    assert!(rt; display_header() == (bytes, false));
}

/// Whether a region of guest memory at this address, so many bytes long, is valid.
fn takes_region(address: u64, size: u64) -> bool {
    VhostUserMemoryRegion::new(address, size, 0, 0).is_valid()
}

#[test]
fn regions_that_are_valid(rt: HostRuntime) {
    let found = [
        takes_region(0xffff_ffff_ffff_efff, 0x1000),
        takes_region(0xffff_ffff_ffff_f000, 0x1000),
        takes_region(0, 0),
    ];
    assert!(rt; found == [true, false, false]);
}

/// A mapping of so many bytes from this offset of its file.
fn mapping(fd_offset: u64, shm_offset: u64, len: u64, flags: u64) -> VhostUserMMap {
    VhostUserMMap {
        shmid: 0,
        padding: [0; 7],
        fd_offset,
        shm_offset,
        len,
        flags,
    }
}

/// The bytes of a mapping.
fn mapping_bytes() -> [u8; 40] {
    let mut bytes = [0; 40];
    mapping(0, 1028, 4096, 1).encode_into(&mut bytes);
    bytes
}

#[test]
fn mappings(rt: HostRuntime) {
    let bytes = [
        0, 0, 0, 0, 0, 0, 0, 0, 0, 0, 0, 0, 0, 0, 0, 0, 4, 4, 0, 0, 0, 0, 0, 0, 0, 16, 0, 0, 0, 0,
        0, 0, 1, 0, 0, 0, 0, 0, 0, 0,
    ];
    assert!(rt; mapping_bytes() == bytes);
    let valid = [
        mapping(0, 1028, 4096, 1).is_valid(),
        mapping(0xffff_ffff_ffff_e000, 0, 0x2000, 0).is_valid(),
        mapping(0xffff_ffff_ffff_dfff, 0, 0x2000, 0).is_valid(),
    ];
    assert!(rt; valid == [true, false, true]);
}

/// The bytes of an area for requests under way.
fn inflight_bytes() -> [u8; 24] {
    let mut bytes = [0; 24];
    VhostUserInflight::new(0x1000, 0, 2, 256).encode_into(&mut bytes);
    bytes
}

/// The last four bytes of an area for requests under way are padding, which a reader leaves out.
#[test]
fn areas_under_way(rt: HostRuntime) {
    let bytes = inflight_bytes();
    assert!(rt;
        bytes
            == [
                0, 16, 0, 0, 0, 0, 0, 0, 0, 0, 0, 0, 0, 0, 0, 0, 2, 0, 0, 1, 0, 0, 0, 0
            ]
    );
    let mut padded = bytes;
    padded[20..].fill(255);
    let area = VhostUserInflight::decode(&padded);
    let fields = (
        area.mmap_size,
        area.mmap_offset,
        area.num_queues,
        area.queue_size,
    );
    assert!(rt; fields == (0x1000, 0, 2, 256));
}

/// Whether so large a part of the configuration space at this offset is valid.
fn takes_config(offset: u32, size: u32) -> bool {
    VhostUserConfig::new(offset, size, VhostUserConfigFlags::WRITABLE).is_valid()
}

#[test]
fn configurations_that_are_valid(rt: HostRuntime) {
    let found = [
        takes_config(0xfff, 1),
        takes_config(0xfff, 2),
        takes_config(0xffff_ffff, 1),
    ];
    assert!(rt; found == [true, false, false]);
}

/// Whether regions of shared memory have these bytes first, and zeros behind them.
fn shows_sizes(first: &[u8; 32]) -> bool {
    let mut bytes = [0; 2056];
    VhostUserShMemConfig::new(2, &[0x1_0000, 0, 0x2_0000]).encode_into(&mut bytes);
    let (front, rest) = bytes.split_at(32);
    front == first.as_slice() && rest.iter().all(|byte| *byte == 0)
}

#[test]
fn bytes_of_shared_regions(rt: HostRuntime) {
    let first = [
        2, 0, 0, 0, 0, 0, 0, 0, 0, 0, 1, 0, 0, 0, 0, 0, 0, 0, 0, 0, 0, 0, 0, 0, 0, 0, 2, 0, 0, 0,
        0, 0,
    ];
    assert!(rt; shows_sizes(&first));
}

#[test]
fn numbers_of_no_request(rt: HostRuntime) {
    let refused = [
        FrontendReq::try_from(0_u32).is_err(),
        FrontendReq::try_from(45_u32).is_err(),
        BackendReq::try_from(0_u32).is_err(),
        BackendReq::try_from(11_u32).is_err(),
        GpuBackendReq::try_from(0_u32).is_err(),
        GpuBackendReq::try_from(13_u32).is_err(),
    ];
    assert!(rt; refused == [true; 6]);
}
