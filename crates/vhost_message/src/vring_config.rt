//! How a ring is configured.

ghost use Rattle.std.specs.Prelude.{◌≡◌};
ghost use Rattle.vhost_message.specs.VringConfig.{is_log_valid, logging_addr, ring_addr};

use crate::records::VhostUserVringAddr;

/// The sizes of a ring and where its parts lie (vhost-user specification, "A vring address description").
#[derive(Clone, Copy, Default)]
pub struct VringConfigData {
    /// The greatest size that the device supports, in descriptors.
    pub queue_max_size: u16,
    /// The ring's size, in descriptors.
    pub queue_size: u16,
    /// Bit 0: writes to the used ring are logged.
    pub flags: u32,
    /// Where the table of descriptors begins.
    pub desc_table_addr: u64,
    /// Where the used ring begins.
    pub used_ring_addr: u64,
    /// Where the available ring begins.
    pub avail_ring_addr: u64,
    /// Where writes to the used ring are logged.
    pub log_addr: Option<u64>,
}

impl VringConfigData {
    /// Whether there is an address for the log, if writes are to be logged.
    pub fn is_log_addr_valid(&self) -> bool
        ensures { result ≡ is_log_valid self.now }
    {
        self.flags & 1 == 0 || self.log_addr.is_some()
    }

    /// The address of the log if writes are logged and there is one, else 0.
    pub fn get_log_addr(&self) -> u64
        ensures { result ≡ logging_addr self.now }
    {
        if self.flags & 1 == 0 {
            return 0;
        }
        self.log_addr.unwrap_or(0)
    }
}

impl VhostUserVringAddr {
    /// The addresses of the ring `index` as it is configured. The log's address is 0 where there is none, whatever the
    /// flags say.
    pub fn from_config_data(index: u32, config_data: &VringConfigData) -> Self
        ensures { result ≡ ring_addr index config_data.now }
    {
        VhostUserVringAddr {
            index,
            flags: config_data.flags,
            descriptor: config_data.desc_table_addr,
            used: config_data.used_ring_addr,
            available: config_data.avail_ring_addr,
            log: config_data.log_addr.unwrap_or(0),
        }
    }
}
