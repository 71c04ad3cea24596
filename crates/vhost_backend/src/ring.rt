//! Whether a ring lies in guest memory.

ghost use Rattle.std.specs.Prelude.{◌≡◌, ◌+◌};
ghost use Rattle.vhost_message.specs.VringConfig.{is_in_guest, is_valid_ring};

use vhost_message::VringConfigData;

/// Whether a ring can be used as it is configured, where the guest's memory has these ranges, each given by its start
/// and length in bytes: its size is a power of two and at most the greatest, the ends of its three parts lie in the
/// guest's memory, and there is an address for the log if writes are to be logged. The crate `vhost` asks this before
/// it hands a ring to the kernel. Nothing wraps: a part that ends beyond the addresses of 64 bits lies nowhere.
pub fn vring_is_valid(config_data: &VringConfigData, ranges: &[(u64, u64)]) -> bool
    ensures { result ≡ is_valid_ring config_data.now ranges.now }
{
    let size = u64::from(config_data.queue_size);
    config_data.queue_size <= config_data.queue_max_size
        && config_data.queue_size != 0
        && config_data.queue_size.is_power_of_two()
        && ends_in_guest(ranges, config_data.desc_table_addr, 16 * size)
        && ends_in_guest(ranges, config_data.avail_ring_addr, 6 + 2 * size)
        && ends_in_guest(ranges, config_data.used_ring_addr, 6 + 8 * size)
        && config_data.is_log_addr_valid()
}

// Whether what begins there and has this length ends at an address of the guest's memory.
fn ends_in_guest(ranges: &[(u64, u64)], start: u64, length: u64) -> bool
    ensures { result ≡ is_in_guest ranges.now (start + length) }
{
    match start.checked_add(length) {
        Some(end) => is_in_guest(ranges, end),
        None => false,
    }
}

// Whether the address lies in one of these ranges.
fn is_in_guest(ranges: &[(u64, u64)], address: u64) -> bool
    ensures { result ≡ is_in_guest ranges.now address }
{
    ranges.iter().any(|&(start, length)| start <= address && address - start < length)
}
