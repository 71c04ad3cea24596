//! The dirty log: which bits are to be set for a range that was written (vhost-user specification, "Migration").

ghost use Rattle.std.specs.Prelude.{◌≡◌, ℕ, ◌+◌, ◌*◌, ◌/◌, ◌%◌, ◌^◌, ◌<◌, ◌≤◌, ◌↔◌, ◌⊎◌, IfOk, IfErr};
ghost use Rattle.vhost_queue.specs.Log.{HasByte};
ghost use Rattle.vhost_queue.specs.declared.error.Error.TheVariants.{NotInGuest};

use crate::error::{Error, Result};

/// How many bytes of the guest's a bit of the log stands for.
pub const LOG_PAGE_SIZE: u64 = 4096;

/// Pages of the guest's: from the first, up to the end.
#[repr(C)]
#[derive(Clone, Copy, Drop)]
pub struct DirtyPages {
    pub first: u64,
    pub end: u64,
}

/// A bit of the log: its byte, and the bit in it.
#[repr(C)]
#[derive(Clone, Copy, Drop)]
pub struct LogBit {
    pub byte: u64,
    pub mask: u8,
}

/// The pages of a range of guest addresses that a log of so many bytes has bits for. NotInGuest: the range ends beyond 64 bits.
pub fn dirty_pages(addr: u64, len: u64, log_size: u64) -> Result<DirtyPages>
    ensures touched { IfOk result (λ pages. (p : ℕ) → ((pages.first ≤ p) × (p < pages.end)) ↔ (HasByte addr len p × (p < 8 * log_size))) }
    ensures err { IfErr result (λ e. (e ≡ NotInGuest) × (2 ^ 64 ≤ addr + len)) }
{
    let Some(end) = addr.checked_add(len) else {
        return Err(Error::NotInGuest);
    };
    let first = addr / LOG_PAGE_SIZE;
    if len == 0 {
        return Ok(DirtyPages { first, end: first });
    }
    let behind = (end - 1) / LOG_PAGE_SIZE + 1;
    Ok(DirtyPages {
        first,
        end: behind.min(log_size.saturating_mul(8)),
    })
}

/// The bit of a page.
pub fn log_bit(page: u64) -> LogBit
    ensures byte { result.byte ≡ page / 8 }
    ensures mask { result.mask ≡ 2 ^ (page % 8) }
{
    LogBit {
        byte: page / 8,
        mask: 1 << (page % 8),
    }
}
