//! The regions of a memory table: which may be sent, their bytes and descriptors, and where a reply says that they are
//! mapped.

ghost use Rattle.std.specs.Prelude.{◌≡◌, ◌<◌, ◌≤◌, ◌*◌, ◌&&◌, ◌==◌, true, IfOk, IfSome, is_some, length, map, nat_le, slice_index_or, take};
ghost use Rattle.std.specs.List.{list_all};
ghost use Rattle.vhost_message.specs.declared.limits.TheConstants.{MAX_MEM_REGIONS, MEMORY_REGION_SIZE};
ghost use Rattle.vhost_message.specs.RecordLaws.{RegionFits};
ghost use Rattle.vhost_message.specs.Records.{regions_of};
ghost use Rattle.vhost_protocol.specs.Ask as ask;
ghost use Rattle.vhost_protocol.specs.AnswerTable.{are_same_ranges, is_same_range, bases_in};
ghost use Rattle.vhost_frontend_core.specs.Asking.{tested};
ghost use Rattle.vhost_backend.specs.Region.{region_in};
ghost use Rattle.vhost_frontend_core.specs.Regions.{info_in, info_of, infos_in, table_in};

use crate::asked::KeptTable;
use vhost_backend::VhostUserMemoryRegionInfo;
use vhost_message::{Error, MAX_MEM_REGIONS, Result, VhostUserMemoryRegion, read_region};

/// A region of guest memory, and the descriptor that maps it, as a call keeps them.
#[derive(Clone, Copy)]
pub struct RegionInfo<H> {
    pub region: VhostUserMemoryRegion,
    pub mmap_handle: Option<H>,
}

impl<H> RegionInfo<H> {
    /// The same, with its descriptor lent.
    pub(crate) fn lent(&self) -> VhostUserMemoryRegionInfo<'_, H>
        ensures same { info_in result ≡ info_of self.now }
        ensures fits { RegionFits self.now.region }
    {
        let region = self.region;
        lent_region(
            region.guest_phys_addr,
            region.memory_size,
            region.user_addr,
            region.mmap_offset,
            self.mmap_handle.as_ref(),
        )
    }
}

/// The region of these numbers of bytes, which fit their places.
fn lent_region<H>(
    guest_phys_addr: u64,
    memory_size: u64,
    userspace_addr: u64,
    mmap_offset: u64,
    mmap_handle: Option<&H>,
) -> VhostUserMemoryRegionInfo<'_, H>
    ensures same { result ≡ record { guest_phys_addr = guest_phys_addr; memory_size = memory_size; userspace_addr = userspace_addr; mmap_offset = mmap_offset; mmap_handle = mmap_handle.entry } }
    ensures fits { RegionFits (region_in result) }
{
    VhostUserMemoryRegionInfo::new(
        guest_phys_addr,
        memory_size,
        userspace_addr,
        mmap_offset,
        mmap_handle,
    )
}

/// The regions of a table, lent as their caller has them, or as a call keeps them.
#[derive(Clone, Copy)]
pub enum Regions<'a, H> {
    Lent(&'a [VhostUserMemoryRegionInfo<'a, H>]),
    Kept(&'a [RegionInfo<H>]),
}

impl<'a, H> Regions<'a, H> {
    /// How many there are.
    pub(crate) fn len(&self) -> usize
        ensures { result ≡ length (table_in self.now) }
    {
        match self {
            Regions::Lent(regions) => regions.len(),
            Regions::Kept(regions) => regions.len(),
        }
    }

    /// The one at this place.
    pub(crate) fn at(&self, i: usize) -> VhostUserMemoryRegionInfo<'a, H>
        requires { i < length (table_in self.now) }
        ensures { info_in result ≡ slice_index_or (table_in self.now) i (info_in result) }
    {
        match self {
            Regions::Lent(regions) => at_lent(*regions, i),
            Regions::Kept(regions) => at_kept(*regions, i),
        }
    }
}

/// The lent region at this place.
fn at_lent<'a, H>(
    regions: &'a [VhostUserMemoryRegionInfo<'a, H>],
    i: usize,
) -> VhostUserMemoryRegionInfo<'a, H>
    requires { i < length regions.now }
    ensures { info_in result ≡ slice_index_or (infos_in regions.now) i (info_in result) }
{
    regions[i]
}

/// The kept region at this place, lent.
fn at_kept<'a, H>(regions: &'a [RegionInfo<H>], i: usize) -> VhostUserMemoryRegionInfo<'a, H>
    requires { i < length regions.now }
    ensures { info_in result ≡ slice_index_or (map info_of regions.now) i (info_in result) }
{
    regions[i].lent()
}

/// Whether both regions are the same range of guest memory.
pub fn is_same(region: &VhostUserMemoryRegion, other: &VhostUserMemoryRegion) -> bool
    ensures { result ≡ is_same_range region.now other.now }
{
    region.guest_phys_addr == other.guest_phys_addr && region.memory_size == other.memory_size
}

/// Whether the region's size is not 0, and it has a descriptor.
fn is_usable<H>(region: &VhostUserMemoryRegionInfo<H>) -> bool
    ensures { result ≡ ask.is_usable (info_in region.now) }
{
    region.memory_size != 0 && region.mmap_handle.is_some()
}

/// The same of all regions.
fn are_usable<H>(regions: &Regions<'_, H>) -> bool
    ensures { result ≡ list_all ask.is_usable (table_in regions.now) }
{
    'regions: for i in 0..regions.len() {
        if !is_usable(&regions.at(i)) {
            return false;
        }
    }
    true
}

/// The descriptor of the first region of a table, where the table may be sent.
///
/// InvalidParam: there is no region, there are more than a table may have, or one has the size 0 or no descriptor.
pub fn first_handle<'a, H>(regions: &Regions<'a, H>) -> Result<&'a H>
    ensures test { ask.param (nat_le 1 (length (table_in regions.now)) && nat_le (length (table_in regions.now)) MAX_MEM_REGIONS && list_all ask.is_usable (table_in regions.now)) ≡ tested result }
    ensures few { IfOk result (λ _. length (table_in regions.now) ≤ MAX_MEM_REGIONS) }
    ensures usable { IfOk result (λ _. list_all ask.is_usable (table_in regions.now) ≡ true) }
{
    let count = regions.len();
    if count == 0 || count > MAX_MEM_REGIONS || !are_usable(regions) {
        return Err(Error::InvalidParam);
    }
    let region = regions.at(0);
    let Some(handle) = region.mmap_handle else {
        return Err(Error::InvalidParam);
    };
    Ok(handle)
}

/// The descriptors of regions that all have one, at the start of a table's places; in the other places is this one.
pub fn handles_of<'a, H>(regions: &Regions<'a, H>, other: &'a H) -> [&'a H; MAX_MEM_REGIONS]
    requires few { length (table_in regions.now) ≤ MAX_MEM_REGIONS }
    requires usable { list_all ask.is_usable (table_in regions.now) ≡ true }
    ensures { map (λ h. h.now) (take (length (table_in regions.now)) result) ≡ ask.handles_in (table_in regions.now) }
{
    let mut handles = [other; MAX_MEM_REGIONS];
    'regions: for i in 0..regions.len() {
        let region = regions.at(i);
        handles[i] = region.mmap_handle.unwrap_or(other);
    }
    handles
}

/// The regions of a table, at the start of a table's places.
pub fn table_of<H>(regions: &Regions<'_, H>) -> [VhostUserMemoryRegion; MAX_MEM_REGIONS]
    requires { length (table_in regions.now) ≤ MAX_MEM_REGIONS }
    ensures { take (length (table_in regions.now)) result ≡ ask.regions_in (table_in regions.now) }
{
    let mut table = [VhostUserMemoryRegion::default(); MAX_MEM_REGIONS];
    'regions: for i in 0..regions.len() {
        table[i] = regions.at(i).to_region();
    }
    table
}

/// Where a table's regions are mapped, as the wire bytes of a reply's regions say. None: they are other regions.
pub fn bases_of(table: KeptTable, text: &[u8]) -> Option<Vec<u64>>
    requires { length text.now ≡ MEMORY_REGION_SIZE * table.count }
    ensures same { is_some result ≡ are_same_ranges (take table.count table.regions.items) (regions_of table.count text.now) }
    ensures bases { IfSome result (λ bases. bases.items ≡ bases_in (regions_of table.count text.now)) }
{
    let KeptTable {
        regions,
        count,
        mut bases,
    } = table;
    let mut same = true;
    'regions: for i in 0..count {
        let region = read_region(text, i);
        same &= is_same(&regions[i], &region);
        bases.push_reserved(region.user_addr);
    }
    if same { Some(bases) } else { None }
}
