//! A request as it was read.

ghost use Rattle.std.specs.Prelude.{◌≡◌, ◌≤◌, ◌+◌, ◌*◌, ◌==◌, ◌&&◌, not, drop, IfSome, is_some, nat_le, length};
ghost use Rattle.std.specs.List.{list_all};
ghost use Rattle.vhost_message.specs.Records.{config_of, memory_of, regions_of};
ghost use Rattle.vhost_message.specs.Valid.{is_valid_config, is_valid_memory, is_valid_region};
ghost use Rattle.vhost_protocol.specs.Row.{is_table_size as has_table_size};
ghost use Rattle.vhost_backend_req_handler_core.specs.Session.{session_of};
ghost use Rattle.vhost_message.specs.declared.limits.TheConstants.{MAX_MEM_REGIONS, MAX_MSG_SIZE, MEMORY_HEAD_SIZE, MEMORY_REGION_SIZE};

use crate::call::{Area, RegionTable};
use crate::session::Session;
use vhost_message::{
    ByteValued, HeardReq, MAX_MEM_REGIONS, MEMORY_HEAD_SIZE, MEMORY_REGION_SIZE, VhostUserConfig,
    VhostUserMemory, VhostUserMemoryRegion, VhostUserMsgValidator, read_front,
};

/// A request: its code and flags, and its body, which is lent. Its file descriptors lie beside it.
#[derive(Drop)]
pub struct Incoming<'a> {
    pub code: HeardReq,
    pub reply: bool,
    pub need_reply: bool,
    pub(crate) body: &'a [u8],
    ghost short: { length body.now ≤ MAX_MSG_SIZE },
}

impl<'a> Incoming<'a> {
    ghost use Rattle.vhost_backend_req_handler_core.specs.Beginning.{IsRequest, regions_in};

    /// A request with this code, these flags and this body.
    pub fn new(code: HeardReq, reply: bool, need_reply: bool, body: &'a [u8]) -> Self
        requires { length body.now ≤ MAX_MSG_SIZE }
        ensures { IsRequest code reply need_reply body.now result }
    {
        Incoming {
            code,
            reply,
            need_reply,
            body,
        }
    }

    /// The record at the start of the body, where it is valid and has as many bytes behind it as it says.
    pub(crate) fn area(&self) -> Option<Area>
        ensures valid { (nat_le 12 (length self.now.body.now) && is_valid_config (config_of self.now.body.now) && length self.now.body.now == 12 + (config_of self.now.body.now).size) ≡ is_some result }
        ensures record { IfSome result (λ a. a.config ≡ config_of self.now.body.now) }
    {
        if self.body.len() < VhostUserConfig::SIZE {
            return None;
        }
        let config = VhostUserConfig::decode(&self.body[..VhostUserConfig::SIZE]);
        if !config.is_valid() {
            return None;
        }
        if self.body.len() != VhostUserConfig::SIZE + config.size as usize {
            return None;
        }
        Some(Area { config })
    }

    /// The table of a request, where it has as many regions and file descriptors as it says, all valid. What may be behind
    /// them is left.
    #[tactic(auto, using(crate::proofs::Tables::regions_front))]
    pub(crate) fn table(&self, session: &Session, handles: usize) -> Option<RegionTable<'a>>
        ensures valid { let n = (memory_of self.now.body.now).num_regions in
            (not self.now.reply && nat_le MEMORY_HEAD_SIZE (length self.now.body.now) && is_valid_memory (memory_of self.now.body.now)
            && has_table_size (session_of session.now) n (length self.now.body.now)
            && handles == n && list_all is_valid_region (regions_of n (drop MEMORY_HEAD_SIZE self.now.body.now))) ≡ is_some result }
        ensures table { IfSome result (λ t. regions_in t ≡ regions_of (memory_of self.now.body.now).num_regions (drop MEMORY_HEAD_SIZE self.now.body.now)) }
    {
        let count = self.table_len(session, handles)?;
        let mut places = [VhostUserMemoryRegion::default(); MAX_MEM_REGIONS];
        let bytes = &self.body[MEMORY_HEAD_SIZE..MEMORY_HEAD_SIZE + MEMORY_REGION_SIZE * count];
        if read_front(bytes, &mut places[..], count) {
            Some(RegionTable { bytes, count })
        } else {
            None
        }
    }

    /// How many regions the table of a request has, where it has as many bytes and file descriptors as it says.
    fn table_len(&self, session: &Session, handles: usize) -> Option<usize>
        ensures valid { (not self.now.reply && nat_le MEMORY_HEAD_SIZE (length self.now.body.now) && is_valid_memory (memory_of self.now.body.now)
            && has_table_size (session_of session.now) (memory_of self.now.body.now).num_regions (length self.now.body.now) && handles == (memory_of self.now.body.now).num_regions) ≡ is_some result }
        ensures count { IfSome result (λ n. n ≡ (memory_of self.now.body.now).num_regions) }
        ensures len { IfSome result (λ n. (MEMORY_HEAD_SIZE + MEMORY_REGION_SIZE * n ≤ length self.now.body.now) × (n ≤ MAX_MEM_REGIONS)) }
    {
        if self.reply {
            return None;
        }
        if self.body.len() < MEMORY_HEAD_SIZE {
            return None;
        }
        let head = VhostUserMemory::decode(&self.body[..MEMORY_HEAD_SIZE]);
        let count = head.num_regions as usize;
        if !head.is_valid() {
            return None;
        }
        if !is_table_size(session, count, self.body.len()) {
            return None;
        }
        if handles != count {
            return None;
        }
        Some(count)
    }
}

/// Whether the body of a table with so many regions may have this size.
fn is_table_size(session: &Session, count: usize, size: usize) -> bool
    requires { count ≤ MAX_MEM_REGIONS }
    ensures { result ≡ has_table_size (session_of session.now) count size }
{
    let least = MEMORY_HEAD_SIZE + MEMORY_REGION_SIZE * count;
    if session.is_standard() {
        least <= size
    } else {
        size == least
    }
}
