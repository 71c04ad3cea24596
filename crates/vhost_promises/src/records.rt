//! Records and headers, written and read again.

ghost use Rattle.std.specs.Prelude.{◌≡◌, ◌≤◌, Ok, length, true};
ghost use Rattle.vhost_message.specs.Bits.{has_bit};
ghost use Rattle.vhost_message.specs.declared.header_bit.TheConstants.{NEED_REPLY, REPLY};
ghost use Rattle.vhost_message.specs.declared.limits.TheConstants.{MAX_MSG_SIZE};

use vhost_gpu_message::{
    GpuBackendReq, VhostUserGpuCursorPos, VhostUserGpuMsgHeader, VhostUserGpuScanout,
};
use vhost_message::{
    ByteValued, Error, MSG_HEADER_SIZE, Req, Result, VhostUserConfig, VhostUserMemoryRegion,
    VhostUserMsgHeader, VhostUserMsgValidator, VhostUserSharedMsg, VhostUserU64,
};

/// Writes a record into a buffer of its size, and reads it again: it is the same, and the buffer has its wire bytes.
pub fn there_and_back<T: ByteValued>(value: &T, room: &mut [u8]) -> T
    requires { length room.old ≡ T.SIZE }
    ensures value { result ≡ value.now }
    ensures text { room.new ≡ T.text value.now }
{
    value.encode_into(room);
    T::decode(room)
}

/// Reads a record from any bytes of its size, and writes it there: from what was written the same record is read again.
pub fn back_and_there<T: ByteValued>(room: &mut [u8]) -> T
    requires { length room.old ≡ T.SIZE }
    ensures read { result ≡ T.read room.old }
    ensures same { T.read room.new ≡ T.read room.old }
{
    let value = T::decode(room);
    value.encode_into(room);
    value
}

/// Makes the header of a request that has a name, sends it there and back, and reads it: it is valid where the body is not too long, and
/// says the request, the size of the body in bytes, and of the flags REPLY and NEED_REPLY.
pub fn names_request<R: Req>(request: R, flags: u32, size: u32) -> Result<(R, u32, bool, bool)>
    requires named { R.named request ≡ true }
    requires short { size ≤ MAX_MSG_SIZE }
    ensures { result ≡ Ok (request, size, has_bit flags REPLY, has_bit flags NEED_REPLY) }
{
    let header = VhostUserMsgHeader::new(request, flags, size);
    let header = there_and_back(&header, &mut [0; MSG_HEADER_SIZE]);
    if !header.is_valid() {
        return Err(Error::InvalidMessage);
    }
    let code = header.get_code()?;
    Ok((
        code,
        header.get_size(),
        header.is_reply(),
        header.is_need_reply(),
    ))
}

/// A number, there and back.
pub fn same_number(value: u64) -> u64
    ensures { result ≡ value }
{
    there_and_back(&VhostUserU64::new(value), &mut [0; 8]).value
}

/// A region of memory.
pub fn same_region(region: &VhostUserMemoryRegion) -> VhostUserMemoryRegion
    ensures { result ≡ region.now }
{
    there_and_back(region, &mut [0; 32])
}

/// A part of the configuration space.
pub fn same_config(config: &VhostUserConfig) -> VhostUserConfig
    ensures { result ≡ config.now }
{
    there_and_back(config, &mut [0; 12])
}

/// The name of an object.
pub fn same_name(name: &VhostUserSharedMsg) -> VhostUserSharedMsg
    ensures { result ≡ name.now }
{
    there_and_back(name, &mut [0; 16])
}

/// The place of a display's cursor.
pub fn same_cursor(cursor: &VhostUserGpuCursorPos) -> VhostUserGpuCursorPos
    ensures { result ≡ cursor.now }
{
    there_and_back(cursor, &mut [0; 12])
}

/// The size of a display.
pub fn same_scanout(scanout: &VhostUserGpuScanout) -> VhostUserGpuScanout
    ensures { result ≡ scanout.now }
{
    there_and_back(scanout, &mut [0; 12])
}

/// The header of a vhost-user-gpu message.
pub fn same_gpu_header(
    header: &VhostUserGpuMsgHeader<GpuBackendReq>,
) -> VhostUserGpuMsgHeader<GpuBackendReq>
    ensures { result ≡ header.now }
{
    there_and_back(header, &mut [0; 12])
}
