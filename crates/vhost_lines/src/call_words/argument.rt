//! A word as an argument that is more than a number.

ghost use Rattle.std.specs.Prelude.{◌≡◌, IfOk, Some, option_map};
ghost use Rattle.vhost_message.specs.Transfer.{direction_number, phase_number};
ghost use Rattle.vhost_lines.specs.Arguments.{enabled, protocol_features, config_flags, header_flags, handle, request, direction, phase, byte_string, object_name};
ghost use Rattle.vhost_lines.specs.Calls.{area};
ghost use Rattle.vhost_lines.specs.Read.{bytes_of};

use crate::call_words::number::{number, number_16, number_32};
use bitflags::Flags;
use hex::{FromHex, FromHexError};
use std::alloc::{AllocError, Global};
use uuid::Uuid;
use vhost_link::{Kind, PlainHandle};
use vhost_message::{
    HeardReq, VhostTransferStateDirection, VhostTransferStatePhase, VhostUserConfigFlags,
    VhostUserHeaderFlag, VhostUserInflight, VhostUserProtocolFeatures, VhostUserSharedMsg,
};

/// The first number of a file descriptor that is a Unix stream socket.
const FIRST_SOCKET: u32 = 1000;

/// A flag: disable, which is 0, or enable, which is 1.
pub(crate) fn enabled(word: &str) -> Option<bool>
    ensures { result ≡ enabled word.now }
{
    match number(word) {
        Some(0) => Some(false),
        Some(1) => Some(true),
        _ => None,
    }
}

/// Protocol features. None where one is unknown.
pub(crate) fn protocol_features(word: &str) -> Option<VhostUserProtocolFeatures>
    ensures { option_map (λ f. f.bits) result ≡ protocol_features word.now }
{
    VhostUserProtocolFeatures::from_bits(number(word)?)
}

/// Flags of configuration space. None where one is unknown.
pub(crate) fn config_flags(word: &str) -> Option<VhostUserConfigFlags>
    ensures { option_map (λ f. f.bits) result ≡ config_flags word.now }
{
    VhostUserConfigFlags::from_bits(number_32(word)?)
}

/// The flags of a request's header: none, or that it asks for an acknowledgement.
pub(crate) fn header_flags(word: &str) -> Option<VhostUserHeaderFlag>
    ensures { option_map (λ f. f.bits) result ≡ header_flags word.now }
{
    let flags = number_32(word)?;
    if flags & VhostUserHeaderFlag::NEED_REPLY.bits() != flags {
        return None;
    }
    Some(VhostUserHeaderFlag::from_bits_retain(flags))
}

/// The file descriptor of a number.
pub(crate) fn handle(word: &str) -> Option<PlainHandle>
    ensures { result ≡ handle word.now }
{
    let id = number_32(word)?;
    let kind = if id < FIRST_SOCKET {
        Kind::NoSocket
    } else {
        Kind::UnixStream
    };
    Some(PlainHandle { id, kind })
}

/// The request of a code.
pub(crate) fn request(word: &str) -> Option<HeardReq>
    ensures { result ≡ request word.now }
{
    HeardReq::try_from(number_32(word)?).ok()
}

/// The direction of a number.
pub(crate) fn direction(word: &str) -> Option<VhostTransferStateDirection>
    ensures { option_map direction_number result ≡ direction word.now }
{
    VhostTransferStateDirection::try_from(number_32(word)?).ok()
}

/// The phase of a number.
pub(crate) fn phase(word: &str) -> Option<VhostTransferStatePhase>
    ensures { option_map phase_number result ≡ phase word.now }
{
    VhostTransferStatePhase::try_from(number_32(word)?).ok()
}

/// The bytes that hexadecimal digits write: at least one, by two digits each. AllocError: an allocation failed.
pub(crate) fn byte_string(alloc: Global, word: &str) -> Result<Option<Vec<u8>>, AllocError>
    ensures { IfOk result (λ bytes. bytes_of bytes ≡ byte_string word.now) }
{
    if word.is_empty() {
        return Ok(None);
    }
    match hex::decode(alloc, word) {
        Ok(bytes) => Ok(Some(bytes)),
        Err(FromHexError::OutOfMemory) => Err(AllocError),
        Err(_) => Ok(None),
    }
}

/// The name of a shared object, written by its 16 bytes.
pub(crate) fn object_name(word: &str) -> Option<VhostUserSharedMsg>
    ensures { result ≡ object_name word.now }
{
    let bytes = <[u8; 16] as FromHex>::from_hex(word).ok()?;
    Some(VhostUserSharedMsg {
        uuid: Uuid::from_bytes(bytes),
    })
}

/// The inflight region, each number in a word of its own.
pub(crate) fn area(
    size: &str,
    offset: &str,
    queues: &str,
    descriptors: &str,
) -> Option<VhostUserInflight>
    ensures { result ≡ area size.now offset.now queues.now descriptors.now }
{
    let size = number(size)?;
    let offset = number(offset)?;
    let queues = number_16(queues)?;
    Some(VhostUserInflight::new(size, offset, queues, number_16(descriptors)?))
}
