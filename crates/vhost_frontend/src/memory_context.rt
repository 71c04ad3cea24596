//! Regions of memory and the descriptors that map them, side by side.

ghost use Rattle.std.specs.Prelude.{◌≡◌, ◌<◌, ◌≤◌, ◌++◌, ◌∷◌, [], length, map};
ghost use Rattle.vhost_message.specs.declared.limits.TheConstants.{MAX_MEM_REGIONS};

use vhost_message::{MAX_MEM_REGIONS, VhostUserMemoryRegion};

/// The regions of a memory table and the descriptors that map them, one for each. It has places for as many as a table may
/// have, and allocates nothing.
///
/// Mirrors the upstream type of this name.
#[derive(Drop)]
pub struct VhostUserMemoryContext<'a, H> {
    held: Option<Held<'a, H>>,
}

/// The first `count` of each are held.
#[derive(Drop)]
struct Held<'a, H> {
    regions: [VhostUserMemoryRegion; MAX_MEM_REGIONS],
    handles: [&'a H; MAX_MEM_REGIONS],
    count: usize,
    ghost fits: { count ≤ MAX_MEM_REGIONS },
    ghost whole: { length regions ≡ MAX_MEM_REGIONS },
}

impl<'a, H> VhostUserMemoryContext<'a, H> {
    ghost use Rattle.vhost_frontend.specs.MemoryContext.{regions_of, handles_of};

    /// No region, and no descriptor.
    pub fn new() -> Self
        ensures regions { regions_of result ≡ [] }
        ensures handles { handles_of result ≡ [] }
    {
        VhostUserMemoryContext { held: None }
    }

    /// Adds a region, and the descriptor that maps it. The caller knows that fewer are held than a table may have.
    pub fn append(&mut self, region: &VhostUserMemoryRegion, handle: &'a H)
        requires { length (regions_of self.old) < MAX_MEM_REGIONS }
        ensures regions { regions_of self.new ≡ regions_of self.old ++ region.now ∷ [] }
        ensures handles { handles_of self.new ≡ handles_of self.old ++ handle.now ∷ [] }
    {
        match &mut self.held {
            None => {
                self.held = Some(Held {
                    regions: [*region; MAX_MEM_REGIONS],
                    handles: [handle; MAX_MEM_REGIONS],
                    count: 1,
                });
            }
            Some(held) => {
                let mut handles = held.handles;
                handles[held.count] = handle;
                held.handles = handles;
                held.regions[held.count] = *region;
                held.count += 1;
            }
        }
    }

    /// Lends the regions.
    pub fn regions(&self) -> &[VhostUserMemoryRegion]
        ensures { result.now ≡ regions_of self.now }
    {
        match &self.held {
            None => &[],
            Some(held) => &held.regions[..held.count],
        }
    }

    /// Lends the descriptors, each at the place of its region.
    pub fn handles(&self) -> &[&'a H]
        ensures { map (λ h. h.now) result.now ≡ handles_of self.now }
    {
        match &self.held {
            None => &[],
            Some(held) => &held.handles[..held.count],
        }
    }
}
