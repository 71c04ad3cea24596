//! What one descriptor makes of a chain, in both kinds of queue.

ghost use Rattle.std.specs.Prelude.{◌≡◌, ◌+◌, ◌^◌, ◌<◌, ◌≤◌, true, IfOk, IfSome, Ok};
ghost use Rattle.vhost_queue.specs.Memory.{LiesIn};
ghost use Rattle.vhost_queue.specs.Segment.{is_writable, segment_of};

use crate::descriptor::Segment;
use crate::error::{Error, Result};
use crate::memory::GuestMemory;

/// Flags of a descriptor: VIRTQ_DESC_F_NEXT, VIRTQ_DESC_F_WRITE and VIRTQ_DESC_F_INDIRECT.
pub(crate) const NEXT: u16 = 1;

pub(crate) const WRITE: u16 = 2;

pub(crate) const INDIRECT: u16 = 4;

/// The segment of a descriptor's first bytes, those that lie in one region; where a writable one came before it or not.
pub(crate) fn segment_of(
    memory: &mut GuestMemory,
    writing: bool,
    addr: u64,
    len: u32,
    flags: u16,
) -> Result<Segment>
    ensures exact { result ≡ segment_of memory.old.regions.items writing addr len flags }
    ensures inside { IfOk result (λ s. LiesIn memory.old.regions.items s.range) }
    ensures ordered { IfOk result (λ s. writing ≡ true → s.writable ≡ true) }
    ensures writable { IfOk result (λ s. s.writable ≡ is_writable flags) }
    ensures first { IfOk result (λ s. s.guest_addr ≡ addr) }
    ensures some { IfOk result (λ s. 0 < s.range.len) }
    ensures most { IfOk result (λ s. s.range.len ≤ len) }
    ensures fits { IfOk result (λ s. addr + s.range.len < 2 ^ 64) }
    ensures memory { memory.new.regions.items ≡ memory.old.regions.items }
{
    let writable = flags & WRITE != 0;
    if writing && !writable {
        return Err(Error::ReadableAfterWritable);
    }
    if len == 0 {
        return Err(Error::EmptyDescriptor);
    }
    let range = memory.translate_part(addr, u64::from(len))?;
    Ok(Segment {
        range,
        guest_addr: addr,
        writable,
    })
}

/// The segment of a descriptor whose bytes all lie in one region. None: `segment_of` says what it is.
pub(crate) fn whole_segment_of(
    memory: &mut GuestMemory,
    writing: bool,
    addr: u64,
    len: u32,
    flags: u16,
) -> Option<Segment>
    ensures exact { IfSome result (λ s. segment_of memory.old.regions.items writing addr len flags ≡ Ok s) }
    ensures whole { IfSome result (λ s. s.range.len ≡ len) }
    ensures inside { IfSome result (λ s. LiesIn memory.old.regions.items s.range) }
    ensures ordered { IfSome result (λ s. writing ≡ true → s.writable ≡ true) }
    ensures writable { IfSome result (λ s. s.writable ≡ is_writable flags) }
    ensures memory { memory.new.regions.items ≡ memory.old.regions.items }
{
    let writable = flags & WRITE != 0;
    if (writing && !writable) || len == 0 {
        return None;
    }
    let Some(range) = memory.translate_whole(addr, u64::from(len)) else {
        return None;
    };
    Some(Segment {
        range,
        guest_addr: addr,
        writable,
    })
}
