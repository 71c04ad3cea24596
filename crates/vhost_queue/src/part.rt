//! A part of a queue that lies at an address of the frontend's, and ranges in it.

ghost use Rattle.std.specs.Prelude.{◌≡◌, ◌+◌, ◌^◌, ◌<◌, IfOk};
ghost use Rattle.vhost_queue.specs.Memory.{part_of, LiesIn};
ghost use Rattle.vhost_queue.specs.Places.{at};

use crate::error::{Error, Result};
use crate::memory::{AddressSpace, GuestMemory, HostRange};

/// Where such a part is mapped. NotInGuest: not in one region. Unaligned: it is at no multiple of this.
pub(crate) fn part(memory: &mut GuestMemory, addr: u64, len: u64, align: u64) -> Result<HostRange>
    ensures exact { result ≡ part_of memory.old.regions.items addr len align }
    ensures len { IfOk result (λ range. range.len ≡ len) }
    ensures fits { IfOk result (λ range. range.addr + range.len < 2 ^ 64) }
    ensures inside { IfOk result (λ range. LiesIn memory.old.regions.items range) }
    ensures memory { memory.new.regions.items ≡ memory.old.regions.items }
{
    let range = memory.translate(AddressSpace::User, addr, len)?;
    if !range.addr.is_multiple_of(align) {
        return Err(Error::Unaligned);
    }
    Ok(range)
}

/// So many bytes at an address.
pub(crate) fn range(addr: u64, len: u64) -> HostRange
    ensures { result ≡ at addr len }
{
    HostRange { addr, len }
}
