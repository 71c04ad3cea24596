//! All segments of a descriptor, however many regions it lies in: what the promise of a step comes to.

ghost use Rattle.std.specs.Prelude.{◌≡◌, [], None, false, All, OnOk};
ghost use Rattle.vhost_queue.specs.Chain.{following, Covers};
ghost use Rattle.vhost_queue.specs.Memory.{LiesIn};
ghost use Rattle.vhost_queue.specs.Segment.{is_indirect, is_writable};

use crate::chain::DescriptorChain;
use crate::descriptor::{Descriptor, Segment};
use crate::error::Result;
use crate::memory::GuestMemory;
use crate::serving::keep;

/// Goes on behind all of the next descriptor, which has this value and names no indirect table. Its segments are together its bytes, in
/// their order, and each lies in one region.
pub fn follow_descriptor(
    memory: &mut GuestMemory,
    chain: &mut DescriptorChain,
    descriptor: Descriptor,
    segments: &mut Vec<Segment>,
) -> Result<()>
    requires none { segments.old.items ≡ [] }
    requires next { (following chain.old).rest ≡ None }
    requires bytes { is_indirect descriptor.flags ≡ false }
    ensures covers { OnOk result (Covers descriptor.addr descriptor.len segments.new.items) }
    ensures writable { OnOk result (All (λ s. s.writable ≡ is_writable descriptor.flags) segments.new.items) }
    ensures inside { OnOk result (All (λ s. LiesIn memory.old.regions.items s.range) segments.new.items) }
    ensures behind { OnOk result ((following chain.new).rest ≡ None) }
    ensures memory { memory.new.regions.items ≡ memory.old.regions.items }
{
    let segment = chain.step(memory, descriptor)?;
    keep(segments, segment)?;
    while chain.has_rest() {
        let segment = chain.step(memory, descriptor)?;
        keep(segments, segment)?;
    }
    Ok(())
}
