//! A descriptor that stands for nothing outside the program.

ghost use Rattle.std.specs.Prelude.{◌≡◌, Ok, IfOk, length, map, vec_len};

use crate::handle::{Handle, Kind};
use std::alloc::{AllocError, Global};
use vhost_message::IoCause;

/// A descriptor that is a number and a kind. What it stands for is known to whoever made it.
#[derive(Clone, Copy, Debug, PartialEq, Eq)]
pub struct PlainHandle {
    /// Its number.
    pub id: u32,
    /// What it says that it is.
    pub kind: Kind,
}

impl Handle for PlainHandle {
    ghost kinds = { λ handle result. result ≡ Ok handle.kind };

    ghost duplicates = { λ handle result. result ≡ Ok handle };

    fn kind(&self) -> Result<Kind, IoCause> {
        Ok(self.kind)
    }

    fn duplicate(&self) -> Result<PlainHandle, IoCause> {
        Ok(*self)
    }
}

/// The same descriptors, in a list of their own.
pub(crate) fn copied(
    alloc: Global,
    handles: &[&PlainHandle],
) -> Result<Vec<PlainHandle>, AllocError>
    ensures { IfOk result (λ list. (list.items ≡ map (λ h. h.now) handles.now) × (vec_len list ≡ length handles.now)) }
{
    let mut list = Vec::new(alloc);
    for handle in handles {
        list.push(**handle)?;
    }
    Ok(list)
}
