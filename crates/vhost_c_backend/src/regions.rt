//! The regions of a call, and bytes of the configuration space: arguments that need room.

ghost use Rattle.std.specs.Prelude.{◌≡◌, ◌≤◌, ◌∷◌, ◌++◌, [], length, map, drop};
ghost use Rattle.vhost_c_common.specs.Records.{config_in, fd_in};
ghost use Rattle.vhost_c_backend.specs.Arguments.{region_at, regions_with, PutsAll, PutsRegions, PutsConfig, PutsName, PutsOther, PutsFds, fd_at as fd_of_index};
ghost use Rattle.vhost_backend_req_handler_core.specs.Beginning.{regions_in};

use vhost_backend_req_handler_core::{DeviceCall, RegionTable};
use vhost_c_common::{Config, Refusal, Region, fd_of, put_fds as write_fds};
use vhost_link::PlainHandle;
use vhost_message::{MAX_MEM_REGIONS, VhostUserConfig, VhostUserMemoryRegion};

type Outcome<T> = std::result::Result<T, Refusal>;

/// Writes the regions of a call to the start of a place: how many there are, and whether postcopy listens.
///
/// NoRoom: the place is too small. OtherCall: the call has no regions. After both, nothing was written.
pub(crate) fn put_regions(
    call: &DeviceCall,
    handles: &[PlainHandle],
    places: &mut [Region],
) -> Outcome<(usize, bool)>
    ensures { PutsRegions handles.now call.now places.old places.new result }
{
    match call {
        DeviceCall::SetMemTable(table, listens) => {
            let count = put_table(table, handles, places)?;
            Ok((count, *listens))
        }
        DeviceCall::AddMemRegion(region, listens) => {
            let count = put_one(region.region(), fd_at(handles, 0), places)?;
            Ok((count, *listens))
        }
        DeviceCall::RemoveMemRegion(region) => {
            let count = put_one(region.region(), -1, places)?;
            Ok((count, false))
        }
        _ => Err(Refusal::OtherCall),
    }
}

/// Writes the regions of a table.
fn put_table(
    table: &RegionTable<'_>,
    handles: &[PlainHandle],
    places: &mut [Region],
) -> Outcome<usize>
    ensures { PutsAll (regions_with (regions_in table.now) handles.now) places.old places.new result }
{
    let count = table.len();
    if count > places.len() {
        return Err(Refusal::NoRoom);
    }
    let mut regions = [VhostUserMemoryRegion::default(); MAX_MEM_REGIONS];
    table.read(&mut regions[..count]);
    put_each(&regions[..count], handles, places);
    Ok(count)
}

/// Writes regions, each with the file descriptor at the same place.
fn put_each(regions: &[VhostUserMemoryRegion], handles: &[PlainHandle], places: &mut [Region])
    requires { length regions.now ≤ length places.old }
    ensures { places.new ≡ regions_with regions.now handles.now ++ drop (length regions.now) places.old }
{
    'regions: for i in 0..regions.len() {
        places[i] = placed_at(&regions[i], handles, i);
    }
}

/// Writes one region.
fn put_one(region: &VhostUserMemoryRegion, fd: i32, places: &mut [Region]) -> Outcome<usize>
    ensures { PutsAll (region_at region.now fd ∷ []) places.old places.new result }
{
    if places.is_empty() {
        return Err(Refusal::NoRoom);
    }
    places[0] = placed(region, fd);
    Ok(1)
}

/// A region and its file descriptor, in the form of C.
fn placed(region: &VhostUserMemoryRegion, fd: i32) -> Region
    ensures { result ≡ region_at region.now fd }
{
    Region {
        guest_phys_addr: region.guest_phys_addr,
        memory_size: region.memory_size,
        user_addr: region.user_addr,
        mmap_offset: region.mmap_offset,
        fd,
    }
}

/// A region and the file descriptor at this place.
fn placed_at(region: &VhostUserMemoryRegion, handles: &[PlainHandle], index: usize) -> Region
    ensures { result ≡ region_at region.now (fd_of_index handles.now index) }
{
    placed(region, fd_at(handles, index))
}

/// The file descriptor at this place; -1 where there is none.
pub(crate) fn fd_at(handles: &[PlainHandle], index: usize) -> i32
    ensures { result ≡ fd_of_index handles.now index }
{
    match handles.get(index) {
        Some(handle) => fd_of(*handle),
        None => -1,
    }
}

/// Writes the bytes of a call to the start of a place: how many there are, and which part of the configuration space they are.
///
/// NoRoom: the place is too small. OtherCall: the call has none. After both, nothing was written.
pub(crate) fn put_config(call: &DeviceCall, place: &mut [u8]) -> Outcome<(usize, Config)>
    ensures { PutsConfig call.now place.old place.new result }
{
    match call {
        DeviceCall::GetConfig(area) => Ok((0, part(area.config()))),
        DeviceCall::SetConfig(area, bytes) => {
            if bytes.len() > place.len() {
                return Err(Refusal::NoRoom);
            }
            place[..bytes.len()].copy_from_slice(bytes);
            Ok((bytes.len(), part(area.config())))
        }
        _ => Err(Refusal::OtherCall),
    }
}

/// A part of the configuration space, in the form of C.
fn part(config: VhostUserConfig) -> Config
    ensures { config_in result ≡ config }
{
    Config {
        offset: config.offset,
        size: config.size,
        flags: config.flags,
    }
}

/// Writes the body of a request without a call of its own to the start of a place: how long it is, and the request's number.
///
/// NoRoom: the place is too small. OtherCall: the call is no such request. After both, nothing was written.
pub(crate) fn put_other(call: &DeviceCall, place: &mut [u8]) -> Outcome<(usize, u32)>
    ensures { PutsOther call.now place.old place.new result }
{
    match call {
        DeviceCall::Other(request, body) => {
            if body.len() > place.len() {
                return Err(Refusal::NoRoom);
            }
            place[..body.len()].copy_from_slice(body);
            Ok((body.len(), *request))
        }
        _ => Err(Refusal::OtherCall),
    }
}

/// Writes all file descriptors of a request without a call of its own to the start of a place: how many there are.
///
/// NoRoom: the place is too small. OtherCall: the call is no such request. After both, nothing was written.
pub(crate) fn put_fds(
    call: &DeviceCall,
    handles: &[PlainHandle],
    place: &mut [i32],
) -> Outcome<(usize, ())>
    ensures { PutsFds handles.now call.now place.old place.new result }
{
    match call {
        DeviceCall::Other(_, _) => {
            if handles.len() > place.len() {
                return Err(Refusal::NoRoom);
            }
            write_fds(handles, place);
            Ok((handles.len(), ()))
        }
        _ => Err(Refusal::OtherCall),
    }
}

/// Writes the name of a shared object to the start of a place.
///
/// NoRoom: the place is too small. OtherCall: the call has no name. After both, nothing was written.
pub(crate) fn put_name(call: &DeviceCall, place: &mut [u8]) -> Outcome<()>
    ensures { PutsName call.now place.old place.new result }
{
    match call {
        DeviceCall::GetSharedObject(object) => {
            if place.len() < 16 {
                return Err(Refusal::NoRoom);
            }
            place[..16].copy_from_slice(object.uuid.as_bytes());
            Ok(())
        }
        _ => Err(Refusal::OtherCall),
    }
}
