//! Where a device has mapped the regions of a table.

ghost use Rattle.std.specs.Prelude.{◌≡◌, ◌≤◌, length, take};
ghost use Rattle.vhost_protocol.specs.Answered.{rebased};

use vhost_message::VhostUserMemoryRegion;

/// Gives each region the user address at the same place, as far as there are both, and says how far that is.
pub fn rebase(regions: &mut [VhostUserMemoryRegion], bases: &[u64]) -> usize
    ensures rebased { take result regions.new ≡ rebased regions.old bases.now }
    ensures count { result ≤ length regions.new }
{
    let count = if regions.len() < bases.len() {
        regions.len()
    } else {
        bases.len()
    };
    'regions: for i in 0..count {
        regions[i].user_addr = bases[i];
    }
    count
}
