//! Backends behind an `RwLock` or in a `RefCell`.

use crate::backend::{VhostBackend, VhostBackendMut};
use crate::dirty_log::VhostUserDirtyLogRegion;
use crate::error::{Error, Result};
use crate::region::VhostUserMemoryRegionInfo;
use std::cell::RefCell;
use std::sync::{RwLock, Wait};
use vhost_message::{VhostUserMemoryRegionBase, VringConfigData};

// Each call waits until it has the backend for itself.
impl<T: VhostBackendMut> VhostBackend for RwLock<T> {
    type Handle = T::Handle;

    fn get_features(&self, rt: &impl Wait) -> Result<u64> {
        self.write(rt).get_features()
    }

    fn set_features(&self, rt: &impl Wait, features: u64) -> Result<()> {
        self.write(rt).set_features(features)
    }

    fn set_owner(&self, rt: &impl Wait) -> Result<()> {
        self.write(rt).set_owner()
    }

    fn reset_owner(&self, rt: &impl Wait) -> Result<()> {
        self.write(rt).reset_owner()
    }

    fn set_mem_table(
        &self,
        rt: &impl Wait,
        regions: &[VhostUserMemoryRegionInfo<'_, T::Handle>],
    ) -> Result<Option<Vec<VhostUserMemoryRegionBase>>> {
        self.write(rt).set_mem_table(regions)
    }

    fn set_log_base(
        &self,
        rt: &impl Wait,
        base: u64,
        region: Option<VhostUserDirtyLogRegion<'_, T::Handle>>,
    ) -> Result<()> {
        self.write(rt).set_log_base(base, region)
    }

    fn set_log_fd(&self, rt: &impl Wait, fd: &T::Handle) -> Result<()> {
        self.write(rt).set_log_fd(fd)
    }

    fn set_vring_num(&self, rt: &impl Wait, queue_index: usize, num: u16) -> Result<()> {
        self.write(rt).set_vring_num(queue_index, num)
    }

    fn set_vring_addr(
        &self,
        rt: &impl Wait,
        queue_index: usize,
        config_data: &VringConfigData,
    ) -> Result<()> {
        self.write(rt).set_vring_addr(queue_index, config_data)
    }

    fn set_vring_base(&self, rt: &impl Wait, queue_index: usize, base: u16) -> Result<()> {
        self.write(rt).set_vring_base(queue_index, base)
    }

    fn get_vring_base(&self, rt: &impl Wait, queue_index: usize) -> Result<u32> {
        self.write(rt).get_vring_base(queue_index)
    }

    fn set_vring_call(&self, rt: &impl Wait, queue_index: usize, fd: &T::Handle) -> Result<()> {
        self.write(rt).set_vring_call(queue_index, fd)
    }

    fn set_vring_kick(&self, rt: &impl Wait, queue_index: usize, fd: &T::Handle) -> Result<()> {
        self.write(rt).set_vring_kick(queue_index, fd)
    }

    fn set_vring_err(&self, rt: &impl Wait, queue_index: usize, fd: &T::Handle) -> Result<()> {
        self.write(rt).set_vring_err(queue_index, fd)
    }
}

// A backend that is in use answers InvalidOperation; nothing waits.
impl<T: VhostBackendMut> VhostBackend for RefCell<T> {
    type Handle = T::Handle;

    fn get_features(&self, _rt: &impl Wait) -> Result<u64> {
        match self.try_borrow_mut() {
            Ok(mut backend) => backend.get_features(),
            Err(_) => Err(Error::InvalidOperation),
        }
    }

    fn set_features(&self, _rt: &impl Wait, features: u64) -> Result<()> {
        match self.try_borrow_mut() {
            Ok(mut backend) => backend.set_features(features),
            Err(_) => Err(Error::InvalidOperation),
        }
    }

    fn set_owner(&self, _rt: &impl Wait) -> Result<()> {
        match self.try_borrow_mut() {
            Ok(mut backend) => backend.set_owner(),
            Err(_) => Err(Error::InvalidOperation),
        }
    }

    fn reset_owner(&self, _rt: &impl Wait) -> Result<()> {
        match self.try_borrow_mut() {
            Ok(mut backend) => backend.reset_owner(),
            Err(_) => Err(Error::InvalidOperation),
        }
    }

    fn set_mem_table(
        &self,
        _rt: &impl Wait,
        regions: &[VhostUserMemoryRegionInfo<'_, T::Handle>],
    ) -> Result<Option<Vec<VhostUserMemoryRegionBase>>> {
        match self.try_borrow_mut() {
            Ok(mut backend) => backend.set_mem_table(regions),
            Err(_) => Err(Error::InvalidOperation),
        }
    }

    fn set_log_base(
        &self,
        _rt: &impl Wait,
        base: u64,
        region: Option<VhostUserDirtyLogRegion<'_, T::Handle>>,
    ) -> Result<()> {
        match self.try_borrow_mut() {
            Ok(mut backend) => backend.set_log_base(base, region),
            Err(_) => Err(Error::InvalidOperation),
        }
    }

    fn set_log_fd(&self, _rt: &impl Wait, fd: &T::Handle) -> Result<()> {
        match self.try_borrow_mut() {
            Ok(mut backend) => backend.set_log_fd(fd),
            Err(_) => Err(Error::InvalidOperation),
        }
    }

    fn set_vring_num(&self, _rt: &impl Wait, queue_index: usize, num: u16) -> Result<()> {
        match self.try_borrow_mut() {
            Ok(mut backend) => backend.set_vring_num(queue_index, num),
            Err(_) => Err(Error::InvalidOperation),
        }
    }

    fn set_vring_addr(
        &self,
        _rt: &impl Wait,
        queue_index: usize,
        config_data: &VringConfigData,
    ) -> Result<()> {
        match self.try_borrow_mut() {
            Ok(mut backend) => backend.set_vring_addr(queue_index, config_data),
            Err(_) => Err(Error::InvalidOperation),
        }
    }

    fn set_vring_base(&self, _rt: &impl Wait, queue_index: usize, base: u16) -> Result<()> {
        match self.try_borrow_mut() {
            Ok(mut backend) => backend.set_vring_base(queue_index, base),
            Err(_) => Err(Error::InvalidOperation),
        }
    }

    fn get_vring_base(&self, _rt: &impl Wait, queue_index: usize) -> Result<u32> {
        match self.try_borrow_mut() {
            Ok(mut backend) => backend.get_vring_base(queue_index),
            Err(_) => Err(Error::InvalidOperation),
        }
    }

    fn set_vring_call(&self, _rt: &impl Wait, queue_index: usize, fd: &T::Handle) -> Result<()> {
        match self.try_borrow_mut() {
            Ok(mut backend) => backend.set_vring_call(queue_index, fd),
            Err(_) => Err(Error::InvalidOperation),
        }
    }

    fn set_vring_kick(&self, _rt: &impl Wait, queue_index: usize, fd: &T::Handle) -> Result<()> {
        match self.try_borrow_mut() {
            Ok(mut backend) => backend.set_vring_kick(queue_index, fd),
            Err(_) => Err(Error::InvalidOperation),
        }
    }

    fn set_vring_err(&self, _rt: &impl Wait, queue_index: usize, fd: &T::Handle) -> Result<()> {
        match self.try_borrow_mut() {
            Ok(mut backend) => backend.set_vring_err(queue_index, fd),
            Err(_) => Err(Error::InvalidOperation),
        }
    }
}
