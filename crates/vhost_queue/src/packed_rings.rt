//! Where the three parts of a packed queue are mapped.

ghost use Rattle.std.specs.Prelude.{◌≡◌, ◌+◌, ◌*◌, ◌^◌, ◌<◌, ◌≤◌, IfOk};

use crate::descriptor::DESCRIPTOR_SIZE;
use crate::error::{Error, Result};
use crate::memory::{GuestMemory, HostRange};
use crate::part::{part, range};
use crate::rings::MAX_SIZE;

/// Where a packed queue's descriptor ring and its two areas of event suppression are mapped (virtio 1.2, 2.8).
#[derive(Clone, Copy, Drop)]
pub struct PackedRings {
    size: u16,
    desc_ring: u64,
    driver_event: u64,
    device_event: u64,
    ghost some: { 0 < size },
    ghost few: { size ≤ 32768 },
    ghost desc_fits: { desc_ring + 16 * size < 2 ^ 64 },
    ghost driver_fits: { driver_event + 4 < 2 ^ 64 },
    ghost device_fits: { device_event + 4 < 2 ^ 64 },
}

impl PackedRings {
    ghost use Rattle.std.specs.Prelude.{IfErr};
    ghost use Rattle.vhost_queue.specs.PackedRings.{ring_range, driver_range, device_range, AreAt, Refuses};
    ghost use Rattle.vhost_queue.specs.Memory.{LiesIn};
    ghost use Rattle.vhost_queue.specs.Places.{at, Within};

    /// Translates the frontend's addresses of a queue of this size. InvalidSize: it is 0 or above 32768. NotInGuest: a part does
    /// not lie in one region. Unaligned: a part is not mapped at a multiple of 16, 4 or 4.
    pub fn map(
        memory: &mut GuestMemory,
        size: u16,
        desc_ring: u64,
        driver_event: u64,
        device_event: u64,
    ) -> Result<PackedRings>
        ensures size { IfOk result (λ rings. rings.size ≡ size) }
        ensures found { IfOk result (λ rings. AreAt memory.old.regions.items rings desc_ring driver_event device_event) }
        ensures ring { IfOk result (λ rings. LiesIn memory.old.regions.items (ring_range rings)) }
        ensures driver { IfOk result (λ rings. LiesIn memory.old.regions.items (driver_range rings)) }
        ensures device { IfOk result (λ rings. LiesIn memory.old.regions.items (device_range rings)) }
        ensures reason { IfErr result (Refuses memory.old.regions.items size desc_ring driver_event device_event) }
        ensures memory { memory.new.regions.items ≡ memory.old.regions.items }
    {
        if size == 0 || size > MAX_SIZE {
            return Err(Error::InvalidSize);
        }
        let ring = part(memory, desc_ring, DESCRIPTOR_SIZE * u64::from(size), 16)?;
        let driver = part(memory, driver_event, 4, 4)?;
        let device = part(memory, device_event, 4, 4)?;
        Ok(PackedRings {
            size,
            desc_ring: ring.addr,
            driver_event: driver.addr,
            device_event: device.addr,
        })
    }

    /// How many descriptors the ring has.
    pub fn size(&self) -> u16
        ensures size { result ≡ self.now.size }
        ensures some { 0 < result }
        ensures few { result ≤ 32768 }
    {
        self.size
    }

    /// Where the descriptor ring begins.
    pub fn desc_ring(&self) -> u64
        ensures { result ≡ self.now.desc_ring }
    {
        self.desc_ring
    }

    /// The length and the id of the descriptor at an index: four bytes and two.
    pub fn elem_place(&self, index: u16) -> HostRange
        requires { index < self.now.size }
        ensures exact { result ≡ at (self.now.desc_ring + 16 * index + 8) 6 }
        ensures within { Within (ring_range self.now) result }
    {
        range(self.desc_ring + DESCRIPTOR_SIZE * u64::from(index) + 8, 6)
    }

    /// The flags of the descriptor at an index.
    pub fn flags_place(&self, index: u16) -> HostRange
        requires { index < self.now.size }
        ensures exact { result ≡ at (self.now.desc_ring + 16 * index + 14) 2 }
        ensures within { Within (ring_range self.now) result }
    {
        range(self.desc_ring + DESCRIPTOR_SIZE * u64::from(index) + 14, 2)
    }

    /// Where the driver says when it wants to be told: two bytes of a place, and two of flags.
    pub fn driver_event_place(&self) -> HostRange
        ensures { result ≡ driver_range self.now }
    {
        range(self.driver_event, 4)
    }

    /// Where the device says when it wants to be told.
    pub fn device_event_place(&self) -> HostRange
        ensures { result ≡ device_range self.now }
    {
        range(self.device_event, 4)
    }
}
