//! Each call's name, and what reads its arguments.

ghost use Rattle.std.specs.Prelude.{◌≡◌, ◌∷◌, IfOk};
ghost use Rattle.vhost_lines.specs.Calls.{call_named};
ghost use Rattle.vhost_lines.specs.Read.{called, texts, words_of, read_for};

use crate::call_words::bare::bare;
use crate::call_words::buffered::{get_config, set_config, set_mem_table};
use crate::call_words::ring::{
    set_packed_vring_base, set_vring_base, set_vring_call, set_vring_enable, set_vring_err,
    set_vring_kick, set_vring_num,
};
use crate::call_words::several::{
    add_mem_region, get_inflight_fd, remove_mem_region, set_device_state_fd, set_inflight_fd,
    set_log_base, set_vring_addr,
};
use crate::call_words::single::{
    get_shared_object, get_vring_base, postcopy_ack_mem_regions, set_backend_request_fd,
    set_features, set_hdr_flags, set_log_fd, set_mtu, set_protocol_features,
};
use std::alloc::{AllocError, Global};
use vhost_frontend_core::FrontendCall;

/// The call of a name and its arguments: a table of memory has those of a text, any other call the first words of it.
/// AllocError: an allocation failed.
pub(crate) fn call_named(
    alloc: Global,
    name: &str,
    args: &[&str],
    text: Option<&str>,
) -> Result<Option<FrontendCall>, AllocError>
    ensures { IfOk result (λ call. called call ≡ call_named (name.now ∷ read_for name.now (texts args.now) (words_of text.entry))) }
{
    match name {
        // generated from protocol/requests.toml: calls
        "get_features" => Ok(bare(FrontendCall::GetFeatures, args)),
        "set_owner" => Ok(bare(FrontendCall::SetOwner, args)),
        "reset_owner" => Ok(bare(FrontendCall::ResetOwner, args)),
        "get_protocol_features" => Ok(bare(FrontendCall::GetProtocolFeatures, args)),
        "get_queue_num" => Ok(bare(FrontendCall::GetQueueNum, args)),
        "reset_device" => Ok(bare(FrontendCall::ResetDevice, args)),
        "get_max_mem_slots" => Ok(bare(FrontendCall::GetMaxMemSlots, args)),
        "get_shmem_config" => Ok(bare(FrontendCall::GetShmemConfig, args)),
        "check_device_state" => Ok(bare(FrontendCall::CheckDeviceState, args)),
        "postcopy_advise" => Ok(bare(FrontendCall::PostcopyAdvise, args)),
        "postcopy_listen" => Ok(bare(FrontendCall::PostcopyListen, args)),
        "postcopy_end" => Ok(bare(FrontendCall::PostcopyEnd, args)),
        "set_features" => Ok(set_features(args)),
        "set_protocol_features" => Ok(set_protocol_features(args)),
        "get_vring_base" => Ok(get_vring_base(args)),
        "set_log_fd" => Ok(set_log_fd(args)),
        "set_backend_request_fd" => Ok(set_backend_request_fd(args)),
        "get_shared_object" => Ok(get_shared_object(args)),
        "postcopy_ack_mem_regions" => Ok(postcopy_ack_mem_regions(args)),
        "set_mtu" => Ok(set_mtu(args)),
        "set_hdr_flags" => Ok(set_hdr_flags(args)),
        "set_vring_num" => Ok(set_vring_num(args)),
        "set_vring_base" => Ok(set_vring_base(args)),
        "set_packed_vring_base" => Ok(set_packed_vring_base(args)),
        "set_vring_call" => Ok(set_vring_call(args)),
        "set_vring_kick" => Ok(set_vring_kick(args)),
        "set_vring_err" => Ok(set_vring_err(args)),
        "set_vring_enable" => Ok(set_vring_enable(args)),
        "set_log_base" => Ok(set_log_base(args)),
        "set_vring_addr" => Ok(set_vring_addr(args)),
        "get_inflight_fd" => Ok(get_inflight_fd(args)),
        "set_inflight_fd" => Ok(set_inflight_fd(args)),
        "add_mem_region" => Ok(add_mem_region(args)),
        "remove_mem_region" => Ok(remove_mem_region(args)),
        "set_device_state_fd" => Ok(set_device_state_fd(args)),
        "set_mem_table" => set_mem_table(alloc, text),
        "get_config" => get_config(alloc, args),
        "set_config" => set_config(alloc, args),
        // end
        _ => Ok(None),
    }
}
