//! Each call of a backend through both wrappers.

use crate::told::{Told, done, mapped, number};
use std::cell::RefCell;
use std::sync::{RwLock, Wait};
use vhost_backend::{
    Error, Result, VhostBackend, VhostBackendMut, VhostUserDirtyLogRegion,
    VhostUserMemoryRegionInfo, VringConfigData,
};

// What each call was given, in the order of the calls.
#[derive(Clone, Copy, Default)]
struct Device {
    seen: [u64; 14],
}

impl Device {
    fn sees(&mut self, call: usize, given: u64) -> Result<()> {
        if let Some(place) = self.seen.get_mut(call) {
            *place = given;
        }
        Ok(())
    }
}

// A ring's index and a file descriptor as one number.
fn pair(queue_index: usize, number: u32) -> u64 {
    (queue_index as u64).wrapping_mul(0x10000) ^ u64::from(number)
}

impl VhostBackendMut for Device {
    type Handle = u32;

    fn get_features(&mut self) -> Result<u64> {
        self.sees(0, 1)?;
        Ok(0x4000_0000)
    }

    fn set_features(&mut self, features: u64) -> Result<()> {
        self.sees(1, features)
    }

    fn set_owner(&mut self) -> Result<()> {
        self.sees(2, 1)
    }

    fn reset_owner(&mut self) -> Result<()> {
        self.sees(3, 1)
    }

    fn set_mem_table(
        &mut self,
        regions: &[VhostUserMemoryRegionInfo<'_, u32>],
    ) -> Result<Option<Vec<u64>>> {
        let Some(region) = regions.first() else {
            return Err(Error::InvalidGuestMemory);
        };
        self.sees(4, region.memory_size)?;
        Ok(None)
    }

    fn set_log_base(
        &mut self,
        base: u64,
        region: Option<VhostUserDirtyLogRegion<'_, u32>>,
    ) -> Result<()> {
        self.sees(5, base ^ region.map_or(0, |log| log.mmap_size))
    }

    fn set_log_fd(&mut self, fd: &u32) -> Result<()> {
        self.sees(6, u64::from(*fd))
    }

    fn set_vring_num(&mut self, queue_index: usize, num: u16) -> Result<()> {
        self.sees(7, pair(queue_index, u32::from(num)))
    }

    fn set_vring_addr(&mut self, queue_index: usize, config_data: &VringConfigData) -> Result<()> {
        self.sees(8, pair(queue_index, config_data.flags))
    }

    fn set_vring_base(&mut self, queue_index: usize, base: u16) -> Result<()> {
        self.sees(9, pair(queue_index, u32::from(base)))
    }

    fn get_vring_base(&mut self, queue_index: usize) -> Result<u32> {
        self.sees(10, pair(queue_index, 0))?;
        Ok(77)
    }

    fn set_vring_call(&mut self, queue_index: usize, fd: &u32) -> Result<()> {
        self.sees(11, pair(queue_index, *fd))
    }

    fn set_vring_kick(&mut self, queue_index: usize, fd: &u32) -> Result<()> {
        self.sees(12, pair(queue_index, *fd))
    }

    fn set_vring_err(&mut self, queue_index: usize, fd: &u32) -> Result<()> {
        self.sees(13, pair(queue_index, *fd))
    }
}

/// What each call answered, made once.
fn call_each<B: VhostBackend<Handle = u32>>(backend: &B, rt: &impl Wait) -> [Told; 14] {
    let handle: u32 = 9;
    let region = VhostUserMemoryRegionInfo::new(0, 0x2000, 0, 0, Some(&handle));
    let log = VhostUserDirtyLogRegion {
        mmap_size: 0x300,
        mmap_offset: 0,
        mmap_handle: Some(&handle),
    };
    [
        number(backend.get_features(rt)),
        done(backend.set_features(rt, 3)),
        done(backend.set_owner(rt)),
        done(backend.reset_owner(rt)),
        mapped(backend.set_mem_table(rt, &[region])),
        done(backend.set_log_base(rt, 0x7000, Some(log))),
        done(backend.set_log_fd(rt, &handle)),
        done(backend.set_vring_num(rt, 1, 256)),
        done(backend.set_vring_addr(rt, 2, &VringConfigData::default())),
        done(backend.set_vring_base(rt, 3, 4)),
        number(backend.get_vring_base(rt, 5)),
        done(backend.set_vring_call(rt, 6, &handle)),
        done(backend.set_vring_kick(rt, 7, &handle)),
        done(backend.set_vring_err(rt, 8, &handle)),
    ]
}

// What `call_each` gave each call.
static GIVEN: [u64; 14] = [
    1, 3, 1, 1, 0x2000, 0x7300, 9, 0x10100, 0x20000, 0x30004, 0x50000, 0x60009, 0x70009, 0x80009,
];

// What the backend answered each.
static ANSWERED: [Told; 14] = [
    Told::Number(0x4000_0000),
    Told::Done,
    Told::Done,
    Told::Done,
    Told::Done,
    Told::Done,
    Told::Done,
    Told::Done,
    Told::Done,
    Told::Done,
    Told::Number(77),
    Told::Done,
    Told::Done,
    Told::Done,
];

#[test]
fn behind_a_lock(rt: HostRuntime) {
    let device = RwLock::new(Device::default());
    assert!(rt; call_each(&device, &rt) == ANSWERED);
    assert!(rt; device.into_inner().seen == GIVEN);
}

#[test]
fn in_a_cell(rt: HostRuntime) {
    let device = RefCell::new(Device::default());
    assert!(rt; call_each(&device, &rt) == ANSWERED);
    assert!(rt; device.into_inner().seen == GIVEN);
}

#[test]
fn in_a_cell_in_use(rt: HostRuntime) {
    let device = RefCell::new(Device::default());
    let held = device.try_borrow_mut();
    assert!(rt; held.is_ok());
    assert!(rt; call_each(&device, &rt) == [Told::InUse; 14]);
    drop(held);
    assert!(rt; device.set_owner(&rt).is_ok());
}
