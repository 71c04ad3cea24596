//! Whether two answers are the same.

ghost use Rattle.std.specs.Prelude.{◌≡◌, ◌↔◌, IsTrue};
ghost use Rattle.vhost_frontend_core.specs.Values.{answer_of, bases_of};

use crate::errors::is_same_error;
use crate::records::{is_same_config, is_same_inflight};
use vhost_frontend_core::FrontendAnswer;
use vhost_message::{ByteValued, VhostUserShMemConfig};

/// How many bytes the record of shared memory regions has.
const SHMEM_CONFIG_SIZE: usize = 2056;

/// Whether both are the same regions of shared memory: their wire bytes are the same.
fn is_same_shmem_config(a: &VhostUserShMemConfig, b: &VhostUserShMemConfig) -> bool
    ensures { IsTrue result ↔ a.now ≡ b.now }
{
    let mut left = [0; SHMEM_CONFIG_SIZE];
    let mut right = [0; SHMEM_CONFIG_SIZE];
    a.encode_into(&mut left);
    b.encode_into(&mut right);
    left[..] == right[..]
}

/// Whether both have the same bases, or none.
fn are_same_bases(a: &Option<Vec<u64>>, b: &Option<Vec<u64>>) -> bool
    ensures { IsTrue result ↔ bases_of a.now ≡ bases_of b.now }
{
    match (a, b) {
        (Some(a), Some(b)) => a.as_slice() == b.as_slice(),
        (None, None) => true,
        _ => false,
    }
}

/// Whether both are the same answer, with the same value or the same error.
pub fn is_same_answer(a: &FrontendAnswer, b: &FrontendAnswer) -> bool
    ensures { IsTrue result ↔ answer_of a.now ≡ answer_of b.now }
{
    match a {
        FrontendAnswer::Failed(error) =>
            matches!(b, FrontendAnswer::Failed(other) if is_same_error(error, other)),
        FrontendAnswer::Done => matches!(b, FrontendAnswer::Done),
        FrontendAnswer::Number(number) =>
            matches!(b, FrontendAnswer::Number(other) if number == other),
        FrontendAnswer::Bases(bases) =>
            matches!(b, FrontendAnswer::Bases(other) if are_same_bases(bases, other)),
        FrontendAnswer::Base(base) => matches!(b, FrontendAnswer::Base(other) if base == other),
        FrontendAnswer::Config(part, bytes) =>
            matches!(b, FrontendAnswer::Config(other_part, other_bytes) if is_same_config(part, other_part) && bytes.as_slice() == other_bytes.as_slice()),
        FrontendAnswer::Handle(handle) =>
            matches!(b, FrontendAnswer::Handle(other) if handle == other),
        FrontendAnswer::Inflight(area, handle) =>
            matches!(b, FrontendAnswer::Inflight(other_area, other_handle) if is_same_inflight(area, other_area) && handle == other_handle),
        FrontendAnswer::StateHandle(handle) =>
            matches!(b, FrontendAnswer::StateHandle(other) if handle == other),
        FrontendAnswer::ShmemConfig(config) =>
            matches!(b, FrontendAnswer::ShmemConfig(other) if is_same_shmem_config(config, other)),
    }
}
