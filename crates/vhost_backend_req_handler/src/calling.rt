//! A call that is a value is made of a device that has a method for each.

ghost use Rattle.std.specs.Prelude.{◌≡◌, ℕ, List, Some};
ghost use Rattle.vhost_message.specs.declared.records.shmem.VhostUserShMemConfig.{VhostUserShMemConfig};
ghost use Rattle.vhost_protocol.specs.DeviceCall.{GetConfig, SetConfig, SetMemTable, SetVringAddr};
ghost use Rattle.vhost_protocol.specs.Error.{seen_result};
ghost use Rattle.vhost_connection.specs.State.{state};
ghost use Rattle.vhost_device.specs.Answers.{seen_bits};
ghost use Rattle.vhost_device.specs.Reached.{by_trait};
ghost use Rattle.vhost_backend_req_handler_core.specs.Beginning.{config_in, handles_in, regions_in};
ghost use Rattle.vhost_backend_req_handler_core.specs.Concluding.{bases_in, bytes_in, done_in};
ghost use Rattle.vhost_backend_req_handler_core.specs.declared.call.DeviceCall.TheVariants as call_;
ghost use Rattle.vhost_backend_req_handler.specs.Calling.{CalledWith};
ghost use Rattle.vhost_backend_req_handler.specs.Opening.{OpensAsBackend, OpensAsGpu};

use crate::opening::{give_backend, give_gpu};
use crate::service::{Header, Service};
use bitflags::Flags;
use std::alloc::Global;
use vhost_backend_req_handler_core::{
    Area, DeviceAnswer, DeviceCall, RegionTable, take_single_file,
};
use vhost_connection::Endpoint;
use vhost_device::VhostUserBackendReqHandlerMut;
use vhost_link::Link;
use vhost_message::{
    Error, MAX_MEM_REGIONS, Result, VhostTransferStateDirection, VhostTransferStatePhase,
    VhostUserConfigFlags, VhostUserInflight, VhostUserLog, VhostUserMemoryRegion,
    VhostUserProtocolFeatures, VhostUserSingleMemoryRegion, VhostUserVringAddr,
    VhostUserVringAddrFlags,
};

/// The answer to a request that devices have no call for.
const NOT_SERVED: Error = Error::InvalidOperation("request not served");

fn set_log_base<L: Link, D: VhostUserBackendReqHandlerMut<Link = L>>(
    device: &mut D,
    log: VhostUserLog,
    handles: Option<Vec<L::Handle>>,
) -> Option<DeviceAnswer<L::Handle>>
    ensures { (budget : ℕ) (place : VhostUserShMemConfig) → CalledWith (by_trait D.gives) (λ h o. OpensAsBackend L.opens L.Handle.kinds budget h o) (λ h o. OpensAsGpu L.opens L.Handle.kinds budget h o) device.old place (call_.SetLogBase log) (handles_in handles) result device.new }
{
    match take_single_file(handles) {
        Some(file) => Some(DeviceAnswer::Done(device.set_log_base(&log, file))),
        None => None,
    }
}

fn set_inflight_fd<L: Link, D: VhostUserBackendReqHandlerMut<Link = L>>(
    device: &mut D,
    area: VhostUserInflight,
    handles: Option<Vec<L::Handle>>,
) -> Option<DeviceAnswer<L::Handle>>
    ensures { (budget : ℕ) (place : VhostUserShMemConfig) → CalledWith (by_trait D.gives) (λ h o. OpensAsBackend L.opens L.Handle.kinds budget h o) (λ h o. OpensAsGpu L.opens L.Handle.kinds budget h o) device.old place (call_.SetInflightFd area) (handles_in handles) result device.new }
{
    match take_single_file(handles) {
        Some(file) => Some(DeviceAnswer::Done(device.set_inflight_fd(&area, file))),
        None => None,
    }
}

fn add_mem_region<L: Link, D: VhostUserBackendReqHandlerMut<Link = L>>(
    device: &mut D,
    region: VhostUserSingleMemoryRegion,
    listens: bool,
    handles: Option<Vec<L::Handle>>,
) -> Option<DeviceAnswer<L::Handle>>
    ensures { (budget : ℕ) (place : VhostUserShMemConfig) → CalledWith (by_trait D.gives) (λ h o. OpensAsBackend L.opens L.Handle.kinds budget h o) (λ h o. OpensAsGpu L.opens L.Handle.kinds budget h o) device.old place (call_.AddMemRegion region listens) (handles_in handles) result device.new }
{
    match take_single_file(handles) {
        Some(file) => Some(DeviceAnswer::Base(device.add_mem_region(&region, file, Some(listens)))),
        None => None,
    }
}

fn set_device_state_fd<L: Link, D: VhostUserBackendReqHandlerMut<Link = L>>(
    device: &mut D,
    direction: VhostTransferStateDirection,
    phase: VhostTransferStatePhase,
    handles: Option<Vec<L::Handle>>,
) -> Option<DeviceAnswer<L::Handle>>
    ensures { (budget : ℕ) (place : VhostUserShMemConfig) → CalledWith (by_trait D.gives) (λ h o. OpensAsBackend L.opens L.Handle.kinds budget h o) (λ h o. OpensAsGpu L.opens L.Handle.kinds budget h o) device.old place (call_.SetDeviceStateFd direction phase) (handles_in handles) result device.new }
{
    match take_single_file(handles) {
        Some(file) => Some(DeviceAnswer::StateHandle(device.set_device_state_fd(
            direction, phase, file,
        ))),
        None => None,
    }
}

fn set_vring_kick<L: Link, D: VhostUserBackendReqHandlerMut<Link = L>>(
    device: &mut D,
    index: u8,
    wants: bool,
    handles: Option<Vec<L::Handle>>,
) -> Option<DeviceAnswer<L::Handle>>
    ensures { (budget : ℕ) (place : VhostUserShMemConfig) → CalledWith (by_trait D.gives) (λ h o. OpensAsBackend L.opens L.Handle.kinds budget h o) (λ h o. OpensAsGpu L.opens L.Handle.kinds budget h o) device.old place (call_.SetVringKick index wants) (handles_in handles) result device.new }
{
    if !wants {
        return Some(DeviceAnswer::Done(device.set_vring_kick(index, None)));
    }
    match take_single_file(handles) {
        Some(file) => Some(DeviceAnswer::Done(device.set_vring_kick(index, Some(file)))),
        None => None,
    }
}

fn set_vring_call<L: Link, D: VhostUserBackendReqHandlerMut<Link = L>>(
    device: &mut D,
    index: u8,
    wants: bool,
    handles: Option<Vec<L::Handle>>,
) -> Option<DeviceAnswer<L::Handle>>
    ensures { (budget : ℕ) (place : VhostUserShMemConfig) → CalledWith (by_trait D.gives) (λ h o. OpensAsBackend L.opens L.Handle.kinds budget h o) (λ h o. OpensAsGpu L.opens L.Handle.kinds budget h o) device.old place (call_.SetVringCall index wants) (handles_in handles) result device.new }
{
    if !wants {
        return Some(DeviceAnswer::Done(device.set_vring_call(index, None)));
    }
    match take_single_file(handles) {
        Some(file) => Some(DeviceAnswer::Done(device.set_vring_call(index, Some(file)))),
        None => None,
    }
}

fn set_vring_err<L: Link, D: VhostUserBackendReqHandlerMut<Link = L>>(
    device: &mut D,
    index: u8,
    wants: bool,
    handles: Option<Vec<L::Handle>>,
) -> Option<DeviceAnswer<L::Handle>>
    ensures { (budget : ℕ) (place : VhostUserShMemConfig) → CalledWith (by_trait D.gives) (λ h o. OpensAsBackend L.opens L.Handle.kinds budget h o) (λ h o. OpensAsGpu L.opens L.Handle.kinds budget h o) device.old place (call_.SetVringErr index wants) (handles_in handles) result device.new }
{
    if !wants {
        return Some(DeviceAnswer::Done(device.set_vring_err(index, None)));
    }
    match take_single_file(handles) {
        Some(file) => Some(DeviceAnswer::Done(device.set_vring_err(index, Some(file)))),
        None => None,
    }
}

/// The file descriptors as a list, which is empty where none came.
fn list_of<H: Drop>(alloc: Global, handles: Option<Vec<H>>) -> Vec<H>
    ensures { result.items ≡ handles_in handles }
{
    match handles {
        Some(list) => list,
        None => Vec::new(alloc),
    }
}

/// The bits of features.
fn bits(answer: Result<VhostUserProtocolFeatures>) -> Result<u64>
    ensures { seen_result result ≡ seen_bits answer }
{
    match answer {
        Ok(features) => Ok(features.bits()),
        Err(error) => Err(error),
    }
}

fn set_vring_addr<L: Link, D: VhostUserBackendReqHandlerMut<Link = L>>(
    device: &mut D,
    ring: VhostUserVringAddr,
) -> DeviceAnswer<L::Handle>
    ensures { D.gives device.old (SetVringAddr ring) (done_in result) device.new }
{
    let flags = VhostUserVringAddrFlags::from_bits_retain(ring.flags);
    DeviceAnswer::Done(device.set_vring_addr(
        ring.index,
        flags,
        ring.descriptor,
        ring.used,
        ring.available,
        ring.log,
    ))
}

fn get_config<L: Link, D: VhostUserBackendReqHandlerMut<Link = L>>(
    device: &mut D,
    area: Area,
) -> DeviceAnswer<L::Handle>
    ensures { let c = config_in area in D.gives device.old (GetConfig c.offset c.size c.flags) (bytes_in result) device.new }
{
    let config = area.config();
    let flags = VhostUserConfigFlags::from_bits_retain(config.flags);
    DeviceAnswer::Bytes(device.get_config(config.offset, config.size, flags))
}

fn set_config<L: Link, D: VhostUserBackendReqHandlerMut<Link = L>>(
    device: &mut D,
    area: Area,
    bytes: &[u8],
) -> DeviceAnswer<L::Handle>
    ensures { let c = config_in area in D.gives device.old (SetConfig c.offset bytes.now c.flags) (done_in result) device.new }
{
    let config = area.config();
    let flags = VhostUserConfigFlags::from_bits_retain(config.flags);
    DeviceAnswer::Done(device.set_config(config.offset, bytes, flags))
}

fn set_mem_table<L: Link, D: VhostUserBackendReqHandlerMut<Link = L>>(
    device: &mut D,
    table: RegionTable,
    listens: bool,
    files: Vec<L::Handle>,
) -> DeviceAnswer<L::Handle>
    ensures { D.gives device.old (SetMemTable (regions_in table.entry) files.items (Some listens)) (bases_in result) device.new }
{
    let mut places = [VhostUserMemoryRegion::default(); MAX_MEM_REGIONS];
    let regions = &mut places[..];
    let regions = &mut regions[..table.len()];
    table.read(regions);
    DeviceAnswer::Bases(device.set_mem_table(regions, files, Some(listens)))
}

fn set_backend_req_fd<L: Link, D: VhostUserBackendReqHandlerMut<Link = L>>(
    alloc: Global,
    endpoint: &mut Endpoint<Header, L>,
    device: &mut D,
    handles: Option<Vec<L::Handle>>,
) -> Option<DeviceAnswer<L::Handle>>
    ensures called { (place : VhostUserShMemConfig) → CalledWith (by_trait D.gives) (λ h o. OpensAsBackend L.opens L.Handle.kinds (state endpoint.old).budget h o) (λ h o. OpensAsGpu L.opens L.Handle.kinds (state endpoint.old).budget h o) device.old place call_.SetBackendReqFd (handles_in handles) result device.new }
    ensures same { endpoint.new ≡ endpoint.old }
{
    match take_single_file(handles) {
        Some(file) => Some(DeviceAnswer::Done(give_backend(alloc, endpoint, device, file))),
        None => None,
    }
}

fn set_gpu_socket<L: Link, D: VhostUserBackendReqHandlerMut<Link = L>>(
    alloc: Global,
    endpoint: &mut Endpoint<Header, L>,
    device: &mut D,
    handles: Option<Vec<L::Handle>>,
) -> Option<DeviceAnswer<L::Handle>>
    ensures called { (place : VhostUserShMemConfig) → CalledWith (by_trait D.gives) (λ h o. OpensAsBackend L.opens L.Handle.kinds (state endpoint.old).budget h o) (λ h o. OpensAsGpu L.opens L.Handle.kinds (state endpoint.old).budget h o) device.old place call_.SetGpuSocket (handles_in handles) result device.new }
    ensures same { endpoint.new ≡ endpoint.old }
{
    match take_single_file(handles) {
        Some(file) => Some(DeviceAnswer::Done(give_gpu(alloc, endpoint, device, file))),
        None => None,
    }
}

impl Service {
    /// Calls the device. A channel that the call wants is opened first; where it can't be, that is the answer. None: the
    /// descriptors are not those of this call.
    pub(crate) fn call_device<L: Link, D: VhostUserBackendReqHandlerMut<Link = L>>(
        &mut self,
        endpoint: &mut Endpoint<Header, L>,
        device: &mut D,
        call: &DeviceCall<'_>,
        handles: &mut Option<Vec<L::Handle>>,
    ) -> Option<DeviceAnswer<L::Handle>>
        ensures called { CalledWith (by_trait D.gives) (λ h o. OpensAsBackend L.opens L.Handle.kinds (state endpoint.old).budget h o) (λ h o. OpensAsGpu L.opens L.Handle.kinds (state endpoint.old).budget h o) device.old self.new.shmem call.now (handles_in handles.old) result device.new }
        ensures endpoint { state endpoint.new ≡ state endpoint.old }
        ensures session { self.new.session ≡ self.old.session }
        ensures regions { self.new.regions ≡ self.old.regions }
    {
        match call {
            DeviceCall::SetOwner => Some(DeviceAnswer::Done(device.set_owner())),
            DeviceCall::ResetOwner => Some(DeviceAnswer::Done(device.reset_owner())),
            DeviceCall::ResetDevice => Some(DeviceAnswer::Done(device.reset_device())),
            DeviceCall::GetFeatures => Some(DeviceAnswer::Number(device.get_features())),
            DeviceCall::SetFeatures(features) => Some(DeviceAnswer::Done(device.set_features(
                *features,
            ))),
            DeviceCall::SetMemTable(table, listens) => {
                let files = list_of(self.alloc, handles.take());
                Some(set_mem_table(device, *table, *listens, files))
            }
            DeviceCall::SetLogBase(log) => set_log_base(device, *log, handles.take()),
            DeviceCall::SetVringNum(index, num) => Some(DeviceAnswer::Done(device.set_vring_num(
                *index, *num,
            ))),
            DeviceCall::SetVringBase(index, base) => Some(DeviceAnswer::Done(device.set_vring_base(
                *index, *base,
            ))),
            DeviceCall::SetVringAddr(ring) => Some(set_vring_addr(device, *ring)),
            DeviceCall::GetVringBase(index) => Some(DeviceAnswer::RingState(device.get_vring_base(
                *index,
            ))),
            DeviceCall::SetVringKick(index, wants) => set_vring_kick(
                device,
                *index,
                *wants,
                handles.take(),
            ),
            DeviceCall::SetVringCall(index, wants) => set_vring_call(
                device,
                *index,
                *wants,
                handles.take(),
            ),
            DeviceCall::SetVringErr(index, wants) => set_vring_err(
                device,
                *index,
                *wants,
                handles.take(),
            ),
            DeviceCall::GetProtocolFeatures => Some(DeviceAnswer::Number(bits(
                device.get_protocol_features(),
            ))),
            DeviceCall::SetProtocolFeatures(features) => Some(DeviceAnswer::Done(
                device.set_protocol_features(*features),
            )),
            DeviceCall::GetQueueNum => Some(DeviceAnswer::Number(device.get_queue_num())),
            DeviceCall::GetMaxMemSlots => Some(DeviceAnswer::Number(device.get_max_mem_slots())),
            DeviceCall::SetVringEnable(index, on) => Some(DeviceAnswer::Done(
                device.set_vring_enable(*index, *on),
            )),
            DeviceCall::SetMtu(mtu) => Some(DeviceAnswer::Done(device.set_mtu(*mtu))),
            DeviceCall::GetConfig(area) => Some(get_config(device, *area)),
            DeviceCall::SetConfig(area, bytes) => Some(set_config(device, *area, bytes)),
            DeviceCall::SetBackendReqFd => set_backend_req_fd(
                self.alloc,
                endpoint,
                device,
                handles.take(),
            ),
            DeviceCall::SetGpuSocket => set_gpu_socket(
                self.alloc,
                endpoint,
                device,
                handles.take(),
            ),
            DeviceCall::GetSharedObject(name) => Some(DeviceAnswer::Handle(device.get_shared_object(
                *name,
            ))),
            DeviceCall::GetInflightFd(area) => Some(DeviceAnswer::Inflight(device.get_inflight_fd(
                area,
            ))),
            DeviceCall::SetInflightFd(area) => set_inflight_fd(device, *area, handles.take()),
            DeviceCall::AddMemRegion(region, listens) => add_mem_region(
                device,
                *region,
                *listens,
                handles.take(),
            ),
            DeviceCall::RemoveMemRegion(region) => Some(DeviceAnswer::Done(device.remove_mem_region(
                region,
            ))),
            DeviceCall::SetDeviceStateFd(direction, phase) => set_device_state_fd(
                device,
                *direction,
                *phase,
                handles.take(),
            ),
            DeviceCall::CheckDeviceState => Some(DeviceAnswer::Done(device.check_device_state())),
            DeviceCall::GetShmemConfig => self.get_shmem_config(device),
            DeviceCall::PostcopyAdvice => Some(DeviceAnswer::Handle(device.postcopy_advice())),
            DeviceCall::PostcopyListen => Some(DeviceAnswer::Done(device.postcopy_listen())),
            DeviceCall::PostcopyEnd => Some(DeviceAnswer::Done(device.postcopy_end())),
            DeviceCall::PostcopyAckMemRegions => Some(DeviceAnswer::Done(
                device.postcopy_ack_mem_regions(),
            )),
            DeviceCall::Other(_, _) => Some(DeviceAnswer::Done(Err(NOT_SERVED))),
        }
    }

    /// The regions of shared memory go to their place.
    fn get_shmem_config<L: Link, D: VhostUserBackendReqHandlerMut<Link = L>>(
        &mut self,
        device: &mut D,
    ) -> Option<DeviceAnswer<L::Handle>>
        ensures called { (budget : ℕ) (hs : List L.Handle) → CalledWith (by_trait D.gives) (λ h o. OpensAsBackend L.opens L.Handle.kinds budget h o) (λ h o. OpensAsGpu L.opens L.Handle.kinds budget h o) device.old self.new.shmem call_.GetShmemConfig hs result device.new }
        ensures session { self.new.session ≡ self.old.session }
        ensures regions { self.new.regions ≡ self.old.regions }
    {
        match device.get_shmem_config() {
            Ok(config) => {
                self.shmem = config;
                Some(DeviceAnswer::Shmem(Ok(())))
            }
            Err(error) => Some(DeviceAnswer::Shmem(Err(error))),
        }
    }
}
