//! What a frontend keeps of a request that it sent.

ghost use Rattle.std.specs.Prelude.{◌≡◌, ◌≤◌, [], length, vec_capacity};
ghost use Rattle.vhost_message.specs.declared.limits.TheConstants.{MAX_MEM_REGIONS};

use vhost_message::{
    HeardReq, VhostUserConfig, VhostUserMemoryRegion, VhostUserMsgHeader, VhostUserShMemConfig,
};
use vhost_protocol::Awaited;

/// A memory table that was sent, and an empty list with room for where its regions are mapped.
#[derive(Drop)]
pub struct KeptTable {
    /// The first `count` are its regions.
    pub(crate) regions: Vec<VhostUserMemoryRegion>,
    pub(crate) count: usize,
    pub(crate) bases: Vec<u64>,
    ghost few: { count ≤ MAX_MEM_REGIONS },
    ghost listed: { count ≤ length regions.items },
    ghost empty: { bases.items ≡ [] },
    ghost room: { count ≤ vec_capacity bases },
}

/// What is kept of a request for its answer: what the reply is compared with, or a place for what it brings.
#[derive(Drop)]
pub enum Kept {
    /// Nothing.
    Nothing,
    /// The region that it gave.
    Region(VhostUserMemoryRegion),
    /// The table that it gave while postcopy listens.
    Table(KeptTable),
    /// The part of the configuration space that it asked for, and the buffer for its bytes.
    Config(VhostUserConfig, Vec<u8>),
    /// A place for the regions of shared memory.
    Place(Box<VhostUserShMemConfig>),
}

/// A request that was sent. The half of a call that sends makes it, and the half that receives uses it up.
#[derive(Drop)]
pub struct Sent {
    pub(crate) request: VhostUserMsgHeader<HeardReq>,
    pub(crate) awaited: Awaited,
    pub(crate) kept: Kept,
}

impl Sent {
    ghost use Rattle.vhost_frontend_core.specs.declared.asked.Kept.TheVariants.{Nothing};

    pub(crate) fn new(request: VhostUserMsgHeader<HeardReq>, awaited: Awaited) -> Sent
        ensures { result ≡ record { request = request; awaited = awaited; kept = Nothing } }
    {
        Sent {
            request,
            awaited,
            kept: Kept::Nothing,
        }
    }

    /// What is awaited.
    pub fn awaited(&self) -> Awaited
        ensures { result ≡ self.now.awaited }
    {
        self.awaited
    }

    /// The header of the request.
    pub fn request(&self) -> &VhostUserMsgHeader<HeardReq>
        ensures { result.now ≡ self.now.request }
    {
        &self.request
    }
}
