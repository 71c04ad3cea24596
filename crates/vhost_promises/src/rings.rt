//! A ring between two threads: one sends and finishes, the other receives and compares.

ghost use Rattle.std.specs.Prelude.{◌≡◌, ◌++◌, ◌≤◌, [], IfOk, IfSome, length, map};
ghost use Rattle.vhost_message.specs.declared.limits.TheConstants.{MAX_ATTACHED_FD_ENTRIES};
ghost use Rattle.vhost_promises.specs.Rings.{Arrives, part_cells, sent_cells};

mod part;

use crate::rings::part::{receive_part, send_part};
pub use part::Part;
use std::alloc::{AllocError, Global};
use std::sync::Arc;
use std::thread;
use std::thread::{Threads, join};
use vhost_link::{Hub, PlainHandle, SharedLink, Token};
use vhost_message::MAX_ATTACHED_FD_ENTRIES;

/// What went over a link.
#[derive(Drop)]
pub struct Carried {
    /// How many bytes each send accepted.
    pub counts: Vec<usize>,
    /// What each receive handed out.
    pub parts: Vec<Part>,
    /// How many pieces were left, unless the sender could not report what it sent.
    pub left: Option<usize>,
}

/// Sends bytes in parts, each with the descriptors, until all were accepted or so many calls were made. Then it finishes.
fn send_all(
    link: SharedLink<()>,
    alloc: Global,
    bytes: &[u8],
    handles: &[&PlainHandle],
    calls: u32,
) -> Result<(Vec<usize>, Option<Token>), AllocError>
    requires handles { length handles.now ≤ MAX_ATTACHED_FD_ENTRIES }
    requires fresh { link.sent ≡ [] }
    ensures ring { IfOk result (λ r. IfSome r.1 (λ t. t.ring ≡ link.output)) }
    ensures sent { IfOk result (λ r. IfSome r.1 (λ t. t.cells ≡ sent_cells (map (λ h. h.now) handles.now) bytes.now r.0.items)) }
{
    let mut link = link;
    let mut counts = Vec::new(alloc);
    let mut done = 0;
    for _i in 0..calls {
        if done == bytes.len() {
            break;
        }
        counts.reserve(1)?;
        let count = send_part(&mut link, &bytes[done..], handles);
        counts.push_reserved(count);
        done += count;
        thread::yield_now();
    }
    Ok((counts, link.finish()))
}

/// Receives what comes, until so many bytes came or so many calls were made.
fn receive_all(
    link: SharedLink<()>,
    alloc: Global,
    wanted: usize,
    calls: u32,
) -> Result<(SharedLink<()>, Vec<Part>), AllocError>
    requires { link.received ≡ [] }
    ensures ring { IfOk result (λ r. r.0.input ≡ link.input) }
    ensures received { IfOk result (λ r. r.0.received ≡ part_cells r.1.items) }
{
    let mut link = link;
    let mut parts = Vec::new(alloc);
    let mut received: usize = 0;
    for _i in 0..calls {
        if received >= wanted {
            break;
        }
        parts.reserve(1)?;
        let Some(part) = receive_part(&mut link, alloc)? else {
            thread::yield_now();
            continue;
        };
        received = received.saturating_add(part.bytes.len());
        parts.push_reserved(part);
    }
    Ok((link, parts))
}

/// Sends bytes from one thread to another over rings of the least size. Each send brings the descriptors along. Each thread makes
/// so many calls at most.
///
/// What was received and what is left are what was sent, with the descriptors at their bytes.
pub fn carries<R: Threads + Sync>(
    rt: &R,
    alloc: Global,
    bytes: &[u8],
    handles: &[&PlainHandle],
    calls: u32,
) -> Result<Carried, AllocError>
    requires { length handles.now ≤ MAX_ATTACHED_FD_ENTRIES }
    ensures { IfOk result (λ r. Arrives (sent_cells (map (λ h. h.now) handles.now) bytes.now r.counts.items) (part_cells r.parts.items) r.left) }
{
    let hub = Arc::new(alloc, Hub::new(alloc)).map_err(|_| AllocError)?;
    let (near, far) = SharedLink::pair((), alloc, &hub, MAX_ATTACHED_FD_ENTRIES + 1)?;
    let (sent, received) = join(
        rt,
        move || -> Result<(Vec<usize>, Option<Token>), AllocError>
            requires { (length handles.now ≤ MAX_ATTACHED_FD_ENTRIES) × (near.sent ≡ []) }
            ensures { IfOk result (λ r. IfSome r.1 (λ t. (t.ring ≡ near.output) × (t.cells ≡ sent_cells (map (λ h. h.now) handles.entry.now) bytes.entry.now r.0.items))) }
        { send_all(near, alloc, bytes, handles, calls) },
        move || -> Result<(SharedLink<()>, Vec<Part>), AllocError>
            requires { far.received ≡ [] }
            ensures { IfOk result (λ r. (r.0.input ≡ far.input) × (r.0.received ≡ part_cells r.1.items)) }
        { receive_all(far, alloc, bytes.len(), calls) },
    );
    let (counts, token) = sent?;
    let (mut far, parts) = received?;
    let left = match token {
        Some(token) => Some(far.compare(token)),
        None => None,
    };
    Ok(Carried {
        counts,
        parts,
        left,
    })
}
