//! Calls of a ring's index and one argument more. Each is none where there is another count of arguments, or where one of them is
//! none.

ghost use Rattle.std.specs.Prelude.{◌≡◌, Some};
ghost use Rattle.vhost_protocol.specs.FrontendCall as value;
ghost use Rattle.vhost_lines.specs.Arguments.{handle, enabled};
ghost use Rattle.vhost_lines.specs.Number.{u64, u32, u16};
ghost use Rattle.vhost_lines.specs.Read.{called, texts};
ghost use Rattle.vhost_lines.specs.Shapes.{two};

use crate::call_words::argument::{enabled, handle};
use crate::call_words::number::{index, number_16, number_32};
use vhost_frontend_core::FrontendCall;

/// A ring and its size, in descriptors.
pub(crate) fn set_vring_num(args: &[&str]) -> Option<FrontendCall>
    ensures { called result ≡ two u64 u16 value.SetVringNum (texts args.now) }
{
    let [ring, word] = args else { return None };
    Some(FrontendCall::SetVringNum(index(ring)?, number_16(word)?))
}

/// A ring and its first index to look for available descriptors.
pub(crate) fn set_vring_base(args: &[&str]) -> Option<FrontendCall>
    ensures { called result ≡ two u64 u16 value.SetVringBase (texts args.now) }
{
    let [ring, word] = args else { return None };
    Some(FrontendCall::SetVringBase(index(ring)?, number_16(word)?.into()))
}

/// A packed ring and both its indices, each with its wrap counter.
pub(crate) fn set_packed_vring_base(args: &[&str]) -> Option<FrontendCall>
    ensures { called result ≡ two u64 u32 value.SetVringBase (texts args.now) }
{
    let [ring, word] = args else { return None };
    Some(FrontendCall::SetVringBase(index(ring)?, number_32(word)?))
}

/// A ring and its call descriptor, by which the backend signals used buffers.
pub(crate) fn set_vring_call(args: &[&str]) -> Option<FrontendCall>
    ensures { called result ≡ two u64 handle (λ i h. value.SetVringCall i (Some h)) (texts args.now) }
{
    let [ring, word] = args else { return None };
    Some(FrontendCall::SetVringCall(index(ring)?, Some(handle(word)?)))
}

/// A ring and its kick descriptor, by which the driver signals available buffers.
pub(crate) fn set_vring_kick(args: &[&str]) -> Option<FrontendCall>
    ensures { called result ≡ two u64 handle (λ i h. value.SetVringKick i (Some h)) (texts args.now) }
{
    let [ring, word] = args else { return None };
    Some(FrontendCall::SetVringKick(index(ring)?, Some(handle(word)?)))
}

/// A ring and its error descriptor, by which the backend signals errors.
pub(crate) fn set_vring_err(args: &[&str]) -> Option<FrontendCall>
    ensures { called result ≡ two u64 handle (λ i h. value.SetVringErr i (Some h)) (texts args.now) }
{
    let [ring, word] = args else { return None };
    Some(FrontendCall::SetVringErr(index(ring)?, Some(handle(word)?)))
}

/// A ring, and whether it is enabled.
pub(crate) fn set_vring_enable(args: &[&str]) -> Option<FrontendCall>
    ensures { called result ≡ two u64 enabled value.SetVringEnable (texts args.now) }
{
    let [ring, word] = args else { return None };
    Some(FrontendCall::SetVringEnable(index(ring)?, enabled(word)?))
}
