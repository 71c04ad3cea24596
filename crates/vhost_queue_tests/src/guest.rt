//! A guest's memory, and a device that serves its requests.

use std::alloc::{AllocError, Global};
use vhost_queue::{
    Descriptor, EventSuppression, GuestRegion, HostRange, PackedDescriptor, PackedShared,
    PackedUsed, Segment, Shared, UsedElem,
};

/// How many bytes the guest has.
const SIZE: u64 = 0x1000;
/// Where they are mapped, and where the frontend has them.
const HOST: u64 = 0x1000;

pub(crate) const USER: u64 = 0x10000;

/// Where the second of two regions begins.
pub(crate) const BORDER: u64 = 0x800;

/// What was served: how many segments the last request had, how many bytes were to be written, and what the driver sees of it.
#[derive(Clone, Copy, Debug, PartialEq, Eq)]
pub(crate) struct Served {
    pub(crate) segments: usize,
    pub(crate) writable: u64,
    pub(crate) seen: u16,
}

/// The guest's memory, and of what the last request was: how many segments, and how many bytes to write.
#[derive(Drop)]
pub(crate) struct Guest {
    bytes: Vec<u8>,
    segments: usize,
    writable: u64,
}

impl Guest {
    pub(crate) fn new(alloc: Global) -> Result<Guest, AllocError> {
        let bytes = vec![in alloc; 0u8; SIZE as usize]?;
        Ok(Guest {
            bytes,
            segments: 0,
            writable: 0,
        })
    }

    /// The region that it lies in.
    pub(crate) fn region() -> GuestRegion {
        GuestRegion {
            guest_addr: 0,
            size: SIZE,
            user_addr: USER,
            host_addr: HOST,
        }
    }

    /// The same bytes in two regions, which adjoin for the guest.
    pub(crate) fn two_regions() -> [GuestRegion; 2] {
        [
            GuestRegion {
                guest_addr: 0,
                size: BORDER,
                user_addr: USER,
                host_addr: HOST,
            },
            GuestRegion {
                guest_addr: BORDER,
                size: SIZE - BORDER,
                user_addr: USER + SIZE,
                host_addr: HOST + BORDER,
            },
        ]
    }

    /// What was served, of which the driver sees this word.
    pub(crate) fn served(&self, at: u64) -> Served {
        Served {
            segments: self.segments,
            writable: self.writable,
            seen: self.u16_at(at.wrapping_add(HOST)),
        }
    }

    /// A descriptor of either layout at an address of the guest: two numbers, and what comes third and fourth.
    pub(crate) fn put_descriptor(
        &mut self,
        at: usize,
        addr: u64,
        len: u32,
        third: u16,
        fourth: u16,
    ) {
        self.put(at, &addr.to_le_bytes());
        self.put(at.wrapping_add(8), &len.to_le_bytes());
        self.put_word(at.wrapping_add(12), third);
        self.put_word(at.wrapping_add(14), fourth);
    }

    pub(crate) fn put_word(&mut self, at: usize, word: u16) {
        self.put(at, &word.to_le_bytes());
    }

    fn put(&mut self, at: usize, bytes: &[u8]) {
        for (i, byte) in bytes.iter().enumerate() {
            if let Some(place) = self.bytes.get_mut(at.wrapping_add(i)) {
                *place = *byte;
            }
        }
    }

    fn byte(&self, at: u64) -> u8 {
        let at = at.wrapping_sub(HOST) as usize;
        self.bytes.get(at).copied().unwrap_or(0)
    }

    fn u16_at(&self, at: u64) -> u16 {
        u16::from(self.byte(at)) + 256 * u16::from(self.byte(at.wrapping_add(1)))
    }

    fn u32_at(&self, at: u64) -> u32 {
        u32::from(self.u16_at(at)) + 65536 * u32::from(self.u16_at(at.wrapping_add(2)))
    }

    fn told(&mut self, segments: &[Segment]) -> u32 {
        self.segments = segments.len();
        self.writable = 0;
        for segment in segments {
            if segment.writable {
                self.writable = self.writable.wrapping_add(segment.range.len);
            }
        }
        (self.writable % 65536) as u32
    }
}

impl Shared for Guest {
    ghost may_touch = { λ _. Unit {0} };

    fn read_index(&mut self, place: HostRange) -> u16 {
        self.u16_at(place.addr)
    }

    fn read_descriptor(&mut self, place: HostRange) -> Descriptor {
        let at = place.addr;
        Descriptor {
            addr: u64::from(self.u32_at(at)),
            len: self.u32_at(at.wrapping_add(8)),
            flags: self.u16_at(at.wrapping_add(12)),
            next: self.u16_at(at.wrapping_add(14)),
        }
    }

    fn write_used(&mut self, elem: UsedElem) {
        let at = elem.idx_place.addr.wrapping_sub(HOST) as usize;
        self.put(at, &elem.idx.to_le_bytes());
    }

    fn serve(&mut self, segments: &[Segment]) -> u32 {
        self.told(segments)
    }
}

impl PackedShared for Guest {
    ghost may_touch = { λ _. Unit {0} };

    fn read_flags(&mut self, place: HostRange) -> u16 {
        self.u16_at(place.addr)
    }

    fn read_descriptor(&mut self, place: HostRange) -> PackedDescriptor {
        let at = place.addr;
        PackedDescriptor {
            addr: u64::from(self.u32_at(at)),
            len: self.u32_at(at.wrapping_add(8)),
            id: self.u16_at(at.wrapping_add(12)),
            flags: self.u16_at(at.wrapping_add(14)),
        }
    }

    fn write_used(&mut self, used: PackedUsed) {
        let at = used.flags_place.addr.wrapping_sub(HOST) as usize;
        self.put(at, &used.flags.to_le_bytes());
    }

    fn read_event(&mut self, place: HostRange) -> EventSuppression {
        EventSuppression {
            position: self.u16_at(place.addr),
            flags: self.u16_at(place.addr.wrapping_add(2)),
        }
    }

    fn serve(&mut self, segments: &[Segment]) -> u32 {
        self.told(segments)
    }
}
