//! The regions of a memory table, one after another as bytes.

ghost use Rattle.std.specs.Prelude.{◌≡◌, ◌≤◌, ◌+◌, ◌*◌, All, length, flat_map, take};
ghost use Rattle.std.specs.List.{list_all};
ghost use Rattle.vhost_message.specs.declared.limits.TheConstants.{MEMORY_REGION_SIZE};
ghost use Rattle.vhost_message.specs.Records.{region_at, region_text, regions_of};
ghost use Rattle.vhost_message.specs.RecordLaws.{RegionFits};
ghost use Rattle.vhost_message.specs.Valid.{is_valid_region};

use crate::bytes::{ByteValued, VhostUserMsgValidator};
use crate::limits::MEMORY_REGION_SIZE;
use crate::records::memory::VhostUserMemoryRegion;

/// The region at this place of a table's regions, counted from 0.
pub fn read_region(bytes: &[u8], place: usize) -> VhostUserMemoryRegion
    requires { MEMORY_REGION_SIZE * (place + 1) ≤ length bytes.now }
    ensures read { result ≡ region_at (MEMORY_REGION_SIZE * place) bytes.now }
    ensures fits { RegionFits result }
{
    let begin = MEMORY_REGION_SIZE * place;
    VhostUserMemoryRegion::decode(&bytes[begin..begin + MEMORY_REGION_SIZE])
}

/// Reads a region for each place, and says whether all of them are valid.
pub fn read_regions(bytes: &[u8], regions: &mut [VhostUserMemoryRegion]) -> bool
    requires { length bytes.now ≡ MEMORY_REGION_SIZE * length regions.old }
    ensures all { result ≡ list_all is_valid_region (regions_of (length regions.old) bytes.now) }
    ensures read { regions.new ≡ regions_of (length regions.old) bytes.now }
{
    let mut all = true;
    'regions: for i in 0..regions.len() {
        let region = read_region(bytes, i);
        all &= region.is_valid();
        regions[i] = region;
    }
    all
}

/// Reads so many regions to the first of these places, and says whether all of them are valid.
pub fn read_front(bytes: &[u8], places: &mut [VhostUserMemoryRegion], count: usize) -> bool
    requires count { count ≤ length places.old }
    requires bytes { length bytes.now ≡ MEMORY_REGION_SIZE * count }
    ensures all { result ≡ list_all is_valid_region (regions_of count bytes.now) }
    ensures read { take count places.new ≡ regions_of count bytes.now }
{
    read_regions(bytes, &mut places[..count])
}

/// Writes the regions one after another.
pub fn put_regions(regions: &[VhostUserMemoryRegion], out: &mut [u8])
    requires { length out.old ≡ MEMORY_REGION_SIZE * length regions.now }
    ensures text { out.new ≡ flat_map region_text regions.now }
    ensures fits { All RegionFits regions.now }
{
    'regions: for i in 0..regions.len() {
        let begin = MEMORY_REGION_SIZE * i;
        regions[i].encode_into(&mut out[begin..begin + MEMORY_REGION_SIZE]);
    }
}
