//! Where the three parts of a split queue are mapped.

ghost use Rattle.std.specs.Prelude.{◌≡◌, ◌+◌, ◌-◌, ◌*◌, ◌%◌, ◌^◌, ◌<◌, ◌≤◌, IfOk, min, true};
ghost use Rattle.std.specs.Int.{is_power_of_two};

use crate::descriptor::DESCRIPTOR_SIZE;
use crate::error::{Error, Result};
use crate::memory::{GuestMemory, HostRange};
use crate::part::{part, range};

/// The greatest queue.
pub const MAX_SIZE: u16 = 32768;

/// Where a split queue's descriptor table and rings are mapped (virtio 1.2, 2.7).
#[derive(Clone, Copy, Drop)]
pub struct Rings {
    size: u16,
    desc_table: u64,
    avail_ring: u64,
    used_ring: u64,
    ghost some: { 0 < size },
    ghost few: { size ≤ 32768 },
    ghost power: { is_power_of_two size ≡ true },
    ghost desc_fits: { desc_table + 16 * size < 2 ^ 64 },
    ghost avail_fits: { avail_ring + (6 + 2 * size) < 2 ^ 64 },
    ghost used_fits: { used_ring + (6 + 8 * size) < 2 ^ 64 },
}

impl Rings {
    ghost use Rattle.std.specs.Prelude.{IfErr};
    ghost use Rattle.vhost_queue.specs.Rings.{table_range, avail_range, used_range, AreAt, Refuses};
    ghost use Rattle.vhost_queue.specs.Memory.{LiesIn};
    ghost use Rattle.vhost_queue.specs.Places.{at, Within};

    /// Translates the frontend's addresses of a queue of this size. InvalidSize: it is 0, no power of two or above 32768.
    /// NotInGuest: a part does not lie in one region. Unaligned: a part is not mapped at a multiple of 16, 2 or 4.
    pub fn map(
        memory: &mut GuestMemory,
        size: u16,
        desc_table: u64,
        avail_ring: u64,
        used_ring: u64,
    ) -> Result<Rings>
        ensures size { IfOk result (λ rings. rings.size ≡ size) }
        ensures found { IfOk result (λ rings. AreAt memory.old.regions.items rings desc_table avail_ring used_ring) }
        ensures table { IfOk result (λ rings. LiesIn memory.old.regions.items (table_range rings)) }
        ensures avail { IfOk result (λ rings. LiesIn memory.old.regions.items (avail_range rings)) }
        ensures used { IfOk result (λ rings. LiesIn memory.old.regions.items (used_range rings)) }
        ensures reason { IfErr result (Refuses memory.old.regions.items size desc_table avail_ring used_ring) }
        ensures memory { memory.new.regions.items ≡ memory.old.regions.items }
    {
        if size == 0 || size > MAX_SIZE || !size.is_power_of_two() {
            return Err(Error::InvalidSize);
        }
        let count = u64::from(size);
        let table = part(memory, desc_table, DESCRIPTOR_SIZE * count, 16)?;
        let avail = part(memory, avail_ring, 6 + 2 * count, 2)?;
        let used = part(memory, used_ring, 6 + 8 * count, 4)?;
        Ok(Rings {
            size,
            desc_table: table.addr,
            avail_ring: avail.addr,
            used_ring: used.addr,
        })
    }

    /// How many descriptors the queue has.
    pub fn size(&self) -> u16
        ensures { result ≡ self.now.size }
    {
        self.size
    }

    /// Where the descriptor table begins.
    pub fn desc_table(&self) -> u64
        ensures { result ≡ self.now.desc_table }
    {
        self.desc_table
    }

    /// The flags of the available ring: bit 0, the driver does not want to be told.
    pub fn avail_flags_place(&self) -> HostRange
        ensures exact { result ≡ at self.now.avail_ring 2 }
        ensures within { Within (avail_range self.now) result }
    {
        range(self.avail_ring, 2)
    }

    /// The index of the available ring.
    pub fn avail_idx_place(&self) -> HostRange
        ensures exact { result ≡ at (self.now.avail_ring + 2) 2 }
        ensures within { Within (avail_range self.now) result }
    {
        range(self.avail_ring + 2, 2)
    }

    /// The entry of the available ring at an index.
    pub fn avail_entry_place(&self, index: u16) -> HostRange
        ensures exact { result ≡ at (self.now.avail_ring + 4 + 2 * (index % self.now.size)) 2 }
        ensures within { Within (avail_range self.now) result }
    {
        range(self.avail_ring + 4 + 2 * u64::from(index % self.size), 2)
    }

    /// The entries of the available ring from an index on, one behind the other: so many at most, up to the end of the ring.
    pub fn avail_entries_place(&self, index: u16, most: usize) -> HostRange
        ensures exact { result ≡ at (self.now.avail_ring + 4 + 2 * (index % self.now.size)) (2 * min most (self.now.size - index % self.now.size)) }
        ensures within { Within (avail_range self.now) result }
    {
        let first = index % self.size;
        let count = most.min(usize::from(self.size - first));
        range(self.avail_ring + 4 + 2 * u64::from(first), 2 * count as u64)
    }

    /// The index at which the driver wants to be told.
    pub fn used_event_place(&self) -> HostRange
        ensures exact { result ≡ at (self.now.avail_ring + 4 + 2 * self.now.size) 2 }
        ensures within { Within (avail_range self.now) result }
    {
        range(self.avail_ring + 4 + 2 * u64::from(self.size), 2)
    }

    /// The flags of the used ring: bit 0, the device does not want to be told.
    pub fn used_flags_place(&self) -> HostRange
        ensures exact { result ≡ at self.now.used_ring 2 }
        ensures within { Within (used_range self.now) result }
    {
        range(self.used_ring, 2)
    }

    /// The index of the used ring.
    pub fn used_idx_place(&self) -> HostRange
        ensures exact { result ≡ at (self.now.used_ring + 2) 2 }
        ensures within { Within (used_range self.now) result }
    {
        range(self.used_ring + 2, 2)
    }

    /// The entry of the used ring at an index: four bytes of the head, and four of the length.
    pub fn used_entry_place(&self, index: u16) -> HostRange
        ensures exact { result ≡ at (self.now.used_ring + 4 + 8 * (index % self.now.size)) 8 }
        ensures within { Within (used_range self.now) result }
    {
        range(self.used_ring + 4 + 8 * u64::from(index % self.size), 8)
    }

    /// The index at which the device wants to be told.
    pub fn avail_event_place(&self) -> HostRange
        ensures exact { result ≡ at (self.now.used_ring + 4 + 8 * self.now.size) 2 }
        ensures within { Within (used_range self.now) result }
    {
        range(self.used_ring + 4 + 8 * u64::from(self.size), 2)
    }
}
