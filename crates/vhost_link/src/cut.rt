//! How a link in memory splits its streams.

ghost use Rattle.std.specs.Prelude.{◌≡◌, ◌<◌, ◌≤◌, drop, IfOk};
ghost use Rattle.vhost_link.specs.Cuts.{allowed, Gives};

use std::collections::VecDeque;
use vhost_message::IoCause;
use vhost_message::errno::EAGAIN;

/// What one call of a link in memory does.
#[derive(Clone, Copy, Debug)]
pub enum Cut {
    /// It moves at most so many bytes; where this is 0, at most one.
    Give(usize),
    /// It fails with the cause `Raw(EAGAIN)`, and may be made again.
    Retry,
    /// It fails with this number of the system.
    Fault(i32),
}

/// How much the next call may move, of so many bytes; or why it fails.
pub(crate) fn next_cut(script: &mut VecDeque<Cut>, most: usize) -> Result<usize, IoCause>
    ensures cut { result ≡ allowed script.old.items most }
    ensures rest { script.new.items ≡ drop 1 script.old.items }
    ensures within { 0 < most → IfOk result (λ n. (0 < n) × (n ≤ most)) }
    ensures gives { IfOk result (Gives script.old.items) }
{
    match script.pop_front() {
        None => Ok(most),
        Some(Cut::Give(n)) => Ok(n.max(1).min(most)),
        Some(Cut::Retry) => Err(IoCause::Raw(EAGAIN)),
        Some(Cut::Fault(number)) => Err(IoCause::Raw(number)),
    }
}
