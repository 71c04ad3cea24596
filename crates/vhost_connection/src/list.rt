//! Descriptor buffers: lists with room for the descriptors of one message.

ghost use Rattle.std.specs.Prelude.{◌≡◌, ◌≤◌, [], IfErr, IfOk, false, is_some, vec_capacity, vec_len};
ghost use Rattle.vhost_message.specs.declared.limits.TheConstants.{MAX_ATTACHED_FD_ENTRIES};

use std::alloc::{AllocError, Global};
use vhost_message::MAX_ATTACHED_FD_ENTRIES;

/// An empty descriptor buffer, with room for the descriptors of a message.
#[derive(Drop)]
pub struct HandleList<H> {
    pub list: Vec<H>,
    ghost empty: { vec_len list ≡ 0 },
    ghost places: { MAX_ATTACHED_FD_ENTRIES ≤ vec_capacity list },
}

impl<H> HandleList<H> {
    /// A new buffer, unless its allocation failed.
    #[cold]
    pub fn new(alloc: Global) -> Result<HandleList<H>, AllocError> {
        Ok(HandleList {
            list: Vec::with_capacity(alloc, MAX_ATTACHED_FD_ENTRIES)?,
        })
    }
}

/// Moves the buffer out, or makes one where it was moved out before.
pub fn take_list<H>(place: &mut Option<HandleList<H>>, alloc: Global) -> Result<Vec<H>, AllocError>
    ensures taken { IfOk result (λ v. (v.items ≡ []) × (MAX_ATTACHED_FD_ENTRIES ≤ vec_capacity v)) }
    ensures memory { IfErr result (λ _. is_some place.old ≡ false) }
    ensures left { is_some place.new ≡ false }
{
    match place.take() {
        Some(HandleList { list }) => Ok(list),
        None => Vec::with_capacity(alloc, MAX_ATTACHED_FD_ENTRIES),
    }
}

/// What came of a message: how many bytes of its prefix and how many more, how many retries are left for what lies
/// behind them, and the descriptors of the first.
#[derive(Drop)]
pub struct Front<H> {
    pub count: usize,
    pub more: usize,
    pub left: u32,
    pub list: Vec<H>,
    ghost places: { MAX_ATTACHED_FD_ENTRIES ≤ vec_capacity list },
}
