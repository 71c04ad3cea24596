//! How large a table of descriptors is.

ghost use Rattle.std.specs.Prelude.{◌≡◌, ◌*◌, ◌≤◌, IfOk};
ghost use Rattle.vhost_queue.specs.Segment.{table_entries};

use crate::descriptor::DESCRIPTOR_SIZE;
use crate::error::{Error, Result};

/// How many descriptors an indirect table of so many bytes has, where so many may come.
pub(crate) fn table_entries(len: u64, left: u16) -> Result<u16>
    ensures exact { result ≡ table_entries len left }
    ensures whole { IfOk result (λ n. 16 * n ≡ len) }
    ensures few { IfOk result (λ n. n ≤ left) }
{
    if len == 0 || len % DESCRIPTOR_SIZE != 0 {
        return Err(Error::InvalidIndirectLength);
    }
    let entries = len / DESCRIPTOR_SIZE;
    if entries > u64::from(left) {
        return Err(Error::ChainTooLong);
    }
    Ok(entries as u16)
}
