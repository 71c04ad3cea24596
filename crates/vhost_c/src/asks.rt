//! Calls whose arguments are numbers and records.

ghost use Rattle.std.specs.Prelude.{◌≡◌, ◌≢◌, ◌<◌, length, map, replicate};
ghost use Rattle.vhost_message.specs.declared.limits.TheConstants.{MAX_MSG_SIZE, MAX_MEM_REGIONS};
ghost use Rattle.vhost_c_common.specs.Number.{error_number};
ghost use Rattle.vhost_protocol.specs.FrontendCall as calls;
ghost use Rattle.vhost_frontend_core.specs.Values.{call_of};
ghost use Rattle.vhost_c_common.specs.Records.{vring_in, inflight_in};
ghost use Rattle.vhost_c.specs.Records.{info_in};
ghost use Rattle.vhost_c_frontend.specs.Session.{AsksBy, AsksAllowed, AsksNamed, AsksUnless, RejectsBy, is_header_flag};
ghost use Rattle.vhost_message.specs.HeardReq.{request_at};

use crate::holder::Holder;
use crate::regions::{info_of, infos_of};
use bitflags::Flags;
use std::alloc::Global;
use uuid::Uuid;
use vhost_c_common::{Inflight, Refusal, Region, Vring, number_of};
use vhost_frontend_core::FrontendCall;
use vhost_message::{
    Error, HeardReq, MAX_MSG_SIZE, VhostUserConfigFlags, VhostUserHeaderFlag,
    VhostUserProtocolFeatures, VhostUserSharedMsg,
};

/// The flag of a request that asks for an acknowledgement.
const NEED_REPLY: u32 = 8;

/// Asks a session, if there is one.
pub(crate) fn asked(alloc: Global, holder: &mut Holder, call: FrontendCall) -> u32
    ensures { AsksBy (call_of call) holder.old.session result holder.new.session }
{
    match holder.take(alloc) {
        None => number_of(Err(Refusal::NoSession)),
        Some(mut session) => {
            let outcome = session.ask(call);
            holder.put(session);
            number_of(outcome)
        }
    }
}

/// Refuses an ask of whose arguments no call can be made, if there is a session.
pub(crate) fn rejected(alloc: Global, holder: &mut Holder, error: Error) -> u32
    ensures { RejectsBy error holder.old.session result holder.new.session }
{
    match holder.take(alloc) {
        None => number_of(Err(Refusal::NoSession)),
        Some(mut session) => {
            let outcome = session.reject(error);
            holder.put(session);
            number_of(outcome)
        }
    }
}

/// Refuses what is asked of another session, where no call can be made of its arguments.
pub(crate) fn refused(error: Error) -> u32
    ensures { result ≡ error_number error }
{
    number_of(Err(Refusal::Protocol(error)))
}

/// The flags of each request from now on: none, or that which asks for an acknowledgement. Nothing is sent for it, and
/// nothing is to be received.
#[unsafe(no_mangle)]
pub extern "C" fn covretin_set_hdr_flags(alloc: Global, session: &mut Holder, flags: u32) -> u32
    ensures { AsksAllowed (is_header_flag flags) (calls.SetHdrFlags flags) session.old.session result session.new.session }
{
    if flags != 0 && flags != NEED_REPLY {
        return rejected(alloc, session, Error::InvalidParam);
    }
    let flags = VhostUserHeaderFlag::from_bits_retain(flags);
    asked(alloc, session, FrontendCall::SetHdrFlags(flags))
}

/// Asks for the virtio features that the backend offers.
#[unsafe(no_mangle)]
pub extern "C" fn covretin_ask_get_features(alloc: Global, session: &mut Holder) -> u32
    ensures { AsksBy calls.GetFeatures session.old.session result session.new.session }
{
    asked(alloc, session, FrontendCall::GetFeatures)
}

/// Accepts virtio features.
#[unsafe(no_mangle)]
pub extern "C" fn covretin_ask_set_features(
    alloc: Global,
    session: &mut Holder,
    features: u64,
) -> u32
    ensures { AsksBy (calls.SetFeatures features) session.old.session result session.new.session }
{
    asked(alloc, session, FrontendCall::SetFeatures(features))
}

/// Asks to become the owner of the session.
#[unsafe(no_mangle)]
pub extern "C" fn covretin_ask_set_owner(alloc: Global, session: &mut Holder) -> u32
    ensures { AsksBy calls.SetOwner session.old.session result session.new.session }
{
    asked(alloc, session, FrontendCall::SetOwner)
}

/// Gives the session up.
#[unsafe(no_mangle)]
pub extern "C" fn covretin_ask_reset_owner(alloc: Global, session: &mut Holder) -> u32
    ensures { AsksBy calls.ResetOwner session.old.session result session.new.session }
{
    asked(alloc, session, FrontendCall::ResetOwner)
}

/// Asks for the protocol features that the backend offers.
#[unsafe(no_mangle)]
pub extern "C" fn covretin_ask_get_protocol_features(alloc: Global, session: &mut Holder) -> u32
    ensures { AsksBy calls.GetProtocolFeatures session.old.session result session.new.session }
{
    asked(alloc, session, FrontendCall::GetProtocolFeatures)
}

/// Accepts protocol features.
#[unsafe(no_mangle)]
pub extern "C" fn covretin_ask_set_protocol_features(
    alloc: Global,
    session: &mut Holder,
    features: u64,
) -> u32
    ensures { AsksBy (calls.SetProtocolFeatures features) session.old.session result session.new.session }
{
    asked(
        alloc,
        session,
        FrontendCall::SetProtocolFeatures(VhostUserProtocolFeatures::from_bits_retain(features)),
    )
}

/// Asks how many queues the backend has.
#[unsafe(no_mangle)]
pub extern "C" fn covretin_ask_get_queue_num(alloc: Global, session: &mut Holder) -> u32
    ensures { AsksBy calls.GetQueueNum session.old.session result session.new.session }
{
    asked(alloc, session, FrontendCall::GetQueueNum)
}

/// Resets the device.
#[unsafe(no_mangle)]
pub extern "C" fn covretin_ask_reset_device(alloc: Global, session: &mut Holder) -> u32
    ensures { AsksBy calls.ResetDevice session.old.session result session.new.session }
{
    asked(alloc, session, FrontendCall::ResetDevice)
}

/// Sets a ring's size, in descriptors.
#[unsafe(no_mangle)]
pub extern "C" fn covretin_ask_set_vring_num(
    alloc: Global,
    session: &mut Holder,
    index: usize,
    num: u16,
) -> u32
    ensures { AsksBy (calls.SetVringNum index num) session.old.session result session.new.session }
{
    asked(alloc, session, FrontendCall::SetVringNum(index, num))
}

/// Sets where a ring lies.
#[unsafe(no_mangle)]
pub extern "C" fn covretin_ask_set_vring_addr(
    alloc: Global,
    session: &mut Holder,
    index: usize,
    ring: &Vring,
) -> u32
    ensures { AsksBy (calls.SetVringAddr index (vring_in ring.now)) session.old.session result session.new.session }
{
    asked(
        alloc,
        session,
        FrontendCall::SetVringAddr(index, ring.data()),
    )
}

/// Sets a ring's next descriptor index; of a packed ring both indices, with their wrap counters.
#[unsafe(no_mangle)]
pub extern "C" fn covretin_ask_set_vring_base(
    alloc: Global,
    session: &mut Holder,
    index: usize,
    base: u32,
) -> u32
    ensures { AsksBy (calls.SetVringBase index base) session.old.session result session.new.session }
{
    asked(alloc, session, FrontendCall::SetVringBase(index, base))
}

/// Stops a ring, and asks for its next descriptor index.
#[unsafe(no_mangle)]
pub extern "C" fn covretin_ask_get_vring_base(
    alloc: Global,
    session: &mut Holder,
    index: usize,
) -> u32
    ensures { AsksBy (calls.GetVringBase index) session.old.session result session.new.session }
{
    asked(alloc, session, FrontendCall::GetVringBase(index))
}

/// Enables or disables a ring.
#[unsafe(no_mangle)]
pub extern "C" fn covretin_ask_set_vring_enable(
    alloc: Global,
    session: &mut Holder,
    index: usize,
    enable: bool,
) -> u32
    ensures { AsksBy (calls.SetVringEnable index enable) session.old.session result session.new.session }
{
    asked(alloc, session, FrontendCall::SetVringEnable(index, enable))
}

/// Asks for the inflight region.
#[unsafe(no_mangle)]
pub extern "C" fn covretin_ask_get_inflight_fd(
    alloc: Global,
    session: &mut Holder,
    inflight: &Inflight,
) -> u32
    ensures { AsksBy (calls.GetInflightFd (inflight_in inflight.now)) session.old.session result session.new.session }
{
    asked(alloc, session, FrontendCall::GetInflightFd(inflight.data()))
}

/// Asks how many regions of memory the backend accepts.
#[unsafe(no_mangle)]
pub extern "C" fn covretin_ask_get_max_mem_slots(alloc: Global, session: &mut Holder) -> u32
    ensures { AsksBy calls.GetMaxMemSlots session.old.session result session.new.session }
{
    asked(alloc, session, FrontendCall::GetMaxMemSlots)
}

/// Adds a region of memory.
#[unsafe(no_mangle)]
pub extern "C" fn covretin_ask_add_mem_region(
    alloc: Global,
    session: &mut Holder,
    region: &Region,
) -> u32
    ensures { AsksBy (calls.AddMemRegion (info_in region.now)) session.old.session result session.new.session }
{
    asked(alloc, session, FrontendCall::AddMemRegion(info_of(region)))
}

/// Removes a region of memory.
#[unsafe(no_mangle)]
pub extern "C" fn covretin_ask_remove_mem_region(
    alloc: Global,
    session: &mut Holder,
    region: &Region,
) -> u32
    ensures { AsksBy (calls.RemoveMemRegion (info_in region.now)) session.old.session result session.new.session }
{
    asked(
        alloc,
        session,
        FrontendCall::RemoveMemRegion(info_of(region)),
    )
}

/// Asks for the regions of shared memory.
#[unsafe(no_mangle)]
pub extern "C" fn covretin_ask_get_shmem_config(alloc: Global, session: &mut Holder) -> u32
    ensures { AsksBy calls.GetShmemConfig session.old.session result session.new.session }
{
    asked(alloc, session, FrontendCall::GetShmemConfig)
}

/// Asks whether the transfer of the backend's state succeeded.
#[unsafe(no_mangle)]
pub extern "C" fn covretin_ask_check_device_state(alloc: Global, session: &mut Holder) -> u32
    ensures { AsksBy calls.CheckDeviceState session.old.session result session.new.session }
{
    asked(alloc, session, FrontendCall::CheckDeviceState)
}

/// Announces that postcopy is going to begin, and asks for the userfaultfd.
#[unsafe(no_mangle)]
pub extern "C" fn covretin_ask_postcopy_advise(alloc: Global, session: &mut Holder) -> u32
    ensures { AsksBy calls.PostcopyAdvise session.old.session result session.new.session }
{
    asked(alloc, session, FrontendCall::PostcopyAdvise)
}

/// Asks the backend to listen for page faults. Under `Standard` its acknowledgement is awaited wherever both sides agreed on them.
#[unsafe(no_mangle)]
pub extern "C" fn covretin_ask_postcopy_listen(alloc: Global, session: &mut Holder) -> u32
    ensures { AsksBy calls.PostcopyListen session.old.session result session.new.session }
{
    asked(alloc, session, FrontendCall::PostcopyListen)
}

/// Announces that postcopy has ended. Under `Standard` its reply is awaited, whatever the flags of requests.
#[unsafe(no_mangle)]
pub extern "C" fn covretin_ask_postcopy_end(alloc: Global, session: &mut Holder) -> u32
    ensures { AsksBy calls.PostcopyEnd session.old.session result session.new.session }
{
    asked(alloc, session, FrontendCall::PostcopyEnd)
}

/// Sets the MTU, in bytes.
#[unsafe(no_mangle)]
pub extern "C" fn covretin_ask_set_mtu(alloc: Global, session: &mut Holder, mtu: u16) -> u32
    ensures { AsksBy (calls.SetMtu mtu) session.old.session result session.new.session }
{
    asked(alloc, session, FrontendCall::SetMtu(mtu))
}

/// Asks for bytes of the configuration space, from `offset` on.
#[unsafe(no_mangle)]
pub extern "C" fn covretin_ask_get_config(
    alloc: Global,
    session: &mut Holder,
    offset: u32,
    size: u32,
    flags: u32,
) -> u32
    ensures { AsksUnless (MAX_MSG_SIZE < size) (calls.GetConfig offset size flags (replicate size 0)) session.old.session result session.new.session }
{
    if size as usize > MAX_MSG_SIZE {
        return rejected(alloc, session, Error::InvalidParam);
    }
    let flags = VhostUserConfigFlags::from_bits_retain(flags);
    match Vec::from_elem(alloc, 0u8, size as usize) {
        Ok(bytes) => asked(
            alloc,
            session,
            FrontendCall::GetConfig(offset, size, flags, bytes),
        ),
        Err(_) => rejected(alloc, session, Error::OutOfMemory),
    }
}

/// The same, and sends these bytes with the request, as many as are asked for.
#[unsafe(no_mangle)]
pub extern "C" fn covretin_ask_get_config_bytes(
    alloc: Global,
    session: &mut Holder,
    offset: u32,
    flags: u32,
    bytes: &[u8],
) -> u32
    ensures { AsksUnless (MAX_MSG_SIZE < length bytes.now) (calls.GetConfig offset (length bytes.now) flags bytes.now) session.old.session result session.new.session }
{
    if bytes.len() > MAX_MSG_SIZE {
        return rejected(alloc, session, Error::InvalidParam);
    }
    let flags = VhostUserConfigFlags::from_bits_retain(flags);
    let size = bytes.len() as u32;
    match Vec::from_slice(alloc, bytes) {
        Ok(bytes) => asked(
            alloc,
            session,
            FrontendCall::GetConfig(offset, size, flags, bytes),
        ),
        Err(_) => rejected(alloc, session, Error::OutOfMemory),
    }
}

/// Writes bytes of the configuration space, from `offset` on.
#[unsafe(no_mangle)]
pub extern "C" fn covretin_ask_set_config(
    alloc: Global,
    session: &mut Holder,
    offset: u32,
    flags: u32,
    bytes: &[u8],
) -> u32
    ensures { AsksUnless (MAX_MSG_SIZE < length bytes.now) (calls.SetConfig offset flags bytes.now) session.old.session result session.new.session }
{
    if bytes.len() > MAX_MSG_SIZE {
        return rejected(alloc, session, Error::InvalidParam);
    }
    let flags = VhostUserConfigFlags::from_bits_retain(flags);
    match Vec::from_slice(alloc, bytes) {
        Ok(bytes) => asked(
            alloc,
            session,
            FrontendCall::SetConfig(offset, flags, bytes),
        ),
        Err(_) => rejected(alloc, session, Error::OutOfMemory),
    }
}

/// Gives the regions of guest memory.
#[unsafe(no_mangle)]
pub extern "C" fn covretin_ask_set_mem_table(
    alloc: Global,
    session: &mut Holder,
    regions: &[Region],
) -> u32
    ensures { AsksUnless (MAX_MEM_REGIONS < length regions.now) (calls.SetMemTable (map info_in regions.now)) session.old.session result session.new.session }
{
    match infos_of(alloc, regions) {
        Ok(infos) => asked(alloc, session, FrontendCall::SetMemTable(infos)),
        Err(error) => rejected(alloc, session, error),
    }
}

/// Asks for the descriptor of a shared object, by its name of 16 bytes.
#[unsafe(no_mangle)]
pub extern "C" fn covretin_ask_get_shared_object(
    alloc: Global,
    session: &mut Holder,
    name: &[u8],
) -> u32
    ensures { AsksUnless (length name.now ≢ 16) (calls.GetSharedObject (record { uuid = name.now })) session.old.session result session.new.session }
{
    if name.len() != 16 {
        return rejected(alloc, session, Error::InvalidParam);
    }
    let mut bytes = [0; 16];
    bytes.copy_from_slice(name);
    let name = VhostUserSharedMsg {
        uuid: Uuid::from_bytes(bytes),
    };
    asked(alloc, session, FrontendCall::GetSharedObject(name))
}

/// Acknowledges that the regions are mapped which the request of this number brought.
#[unsafe(no_mangle)]
pub extern "C" fn covretin_ask_postcopy_ack_mem_regions(
    alloc: Global,
    session: &mut Holder,
    request: u32,
) -> u32
    ensures { AsksNamed (request_at request) (λ code. AsksBy (calls.PostcopyAckMemRegions code)) session.old.session result session.new.session }
{
    match HeardReq::try_from(request) {
        Ok(code) => asked(alloc, session, FrontendCall::PostcopyAckMemRegions(code)),
        Err(()) => rejected(alloc, session, Error::InvalidParam),
    }
}
