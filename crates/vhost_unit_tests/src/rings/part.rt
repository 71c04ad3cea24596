//! What one call of a link between two threads moves.

ghost use Rattle.std.specs.Prelude.{◌≡◌, ◌≤◌, IfOk, length};
ghost use Rattle.vhost_message.specs.declared.limits.TheConstants.{MAX_ATTACHED_FD_ENTRIES};

use std::alloc::{AllocError, Global};
use std::sync::Arc;
use vhost_link::{Hub, Kind, PlainHandle, SharedLink};
use vhost_message::{IoCause, MAX_ATTACHED_FD_ENTRIES};

/// Bytes that one receive handed out, and the numbers of their file descriptors.
#[derive(Drop, Debug)]
pub(crate) struct Part {
    pub(crate) bytes: Vec<u8>,
    pub(crate) handles: Vec<u32>,
}

/// A file descriptor with this number.
pub(crate) fn handle(id: u32) -> PlainHandle {
    PlainHandle {
        id,
        kind: Kind::NoSocket,
    }
}

/// A hub without an end.
pub(crate) fn new_hub(alloc: Global) -> Result<Arc<Hub, Global>, AllocError> {
    Arc::new(alloc, Hub::new(alloc)).map_err(|_| AllocError)
}

/// Both ends of a new link of this hub, whose rings have the least size: room for 33 pieces.
pub(crate) fn pair_in<R: Copy + Drop>(
    rt: R,
    alloc: Global,
    hub: &Arc<Hub, Global>,
) -> Result<(SharedLink<R>, SharedLink<R>), AllocError>
    ensures { IfOk result (λ p. p.0.output ≡ p.1.input) }
{
    SharedLink::pair(rt, alloc, hub, MAX_ATTACHED_FD_ENTRIES + 1)
}

/// The same in a hub of its own.
pub(crate) fn pair<R: Copy + Drop>(
    rt: R,
    alloc: Global,
) -> Result<(SharedLink<R>, SharedLink<R>), AllocError>
    ensures { IfOk result (λ p. p.0.output ≡ p.1.input) }
{
    let hub = new_hub(alloc)?;
    pair_in(rt, alloc, &hub)
}

/// How many of the bytes one send took, or else the number of the failure; 0 where there is no byte.
pub(crate) fn send<R: Drop>(
    link: &mut SharedLink<R>,
    bytes: &[u8],
    handles: &[&PlainHandle],
) -> Result<usize, i32>
    requires { length handles.now ≤ MAX_ATTACHED_FD_ENTRIES }
    ensures { link.new.output ≡ link.old.output }
{
    if bytes.is_empty() {
        return Ok(0);
    }
    match link.send(bytes, handles) {
        Ok(count) => Ok(count),
        Err(IoCause::Raw(number)) => Err(number),
        Err(IoCause::Named(_)) => Err(0),
    }
}

/// What one receive of up to so many bytes, 64 at most, hands out, if anything has come.
pub(crate) fn receive<R: Drop>(
    link: &mut SharedLink<R>,
    alloc: Global,
    most: usize,
) -> Result<Option<Part>, AllocError>
    ensures { link.new.input ≡ link.old.input }
{
    let mut room = [0; 64];
    let mut list = Vec::with_capacity(alloc, MAX_ATTACHED_FD_ENTRIES)?;
    let most = most.min(64).max(1);
    let Some(count) = link.try_recv(&mut room[..most], &mut list) else {
        return Ok(None);
    };
    let bytes = Vec::from_slice(alloc, &room[..count])?;
    let handles = numbers(alloc, &list)?;
    Ok(Some(Part { bytes, handles }))
}

/// The numbers of some file descriptors.
fn numbers(alloc: Global, handles: &[PlainHandle]) -> Result<Vec<u32>, AllocError> {
    let mut numbers = Vec::new(alloc);
    for handle in handles {
        numbers.push(handle.id)?;
    }
    Ok(numbers)
}
