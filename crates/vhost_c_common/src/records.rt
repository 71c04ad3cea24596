//! Records as a program in C writes them.

ghost use Rattle.std.specs.Prelude.{◌≡◌, ◌≤◌, ◌⊎◌, length, take, drop, map, Contains, None, Some, IfOk, IfErr};
ghost use Rattle.vhost_message.specs.declared.error.Error.TheVariants.{InvalidParam, OutOfMemory};
ghost use Rattle.vhost_c_common.specs.Records.{handle_in, fd_in, vring_in, inflight_in};

use std::alloc::Global;
use vhost_link::{Kind, PlainHandle};
use vhost_message::{Error, Result, VhostUserInflight, VringConfigData};

/// A region of guest memory and the descriptor that maps it: `covretin_region`.
#[repr(C)]
#[derive(Drop, Clone, Copy)]
pub struct Region {
    pub guest_phys_addr: u64,
    /// In bytes.
    pub memory_size: u64,
    pub user_addr: u64,
    /// Where it begins in what the descriptor maps, in bytes.
    pub mmap_offset: u64,
    /// Negative: none.
    pub fd: i32,
}

/// Where a ring lies: `covretin_vring`.
#[repr(C)]
#[derive(Drop, Clone, Copy)]
pub struct Vring {
    /// In descriptors.
    pub queue_max_size: u16,
    /// In descriptors.
    pub queue_size: u16,
    /// Bit 0: writes to the used ring are logged.
    pub flags: u32,
    pub desc_table_addr: u64,
    pub used_ring_addr: u64,
    pub avail_ring_addr: u64,
    /// Where they are logged.
    pub log_addr: u64,
    /// Whether `log_addr` counts.
    pub has_log_addr: bool,
}

/// The inflight region: `covretin_inflight`.
#[repr(C)]
#[derive(Drop, Clone, Copy)]
pub struct Inflight {
    /// In bytes.
    pub mmap_size: u64,
    /// In bytes.
    pub mmap_offset: u64,
    pub num_queues: u16,
    pub queue_size: u16,
}

/// A part of the configuration space: `covretin_config`.
#[repr(C)]
#[derive(Drop, Clone, Copy)]
pub struct Config {
    /// In bytes.
    pub offset: u32,
    /// In bytes.
    pub size: u32,
    pub flags: u32,
}

impl Vring {
    /// The ring of a call.
    pub fn data(&self) -> VringConfigData
        ensures { result ≡ vring_in self.now }
    {
        VringConfigData {
            queue_max_size: self.queue_max_size,
            queue_size: self.queue_size,
            flags: self.flags,
            desc_table_addr: self.desc_table_addr,
            used_ring_addr: self.used_ring_addr,
            avail_ring_addr: self.avail_ring_addr,
            log_addr: if self.has_log_addr {
                Some(self.log_addr)
            } else {
                None
            },
        }
    }
}

impl Inflight {
    /// The inflight region of a call.
    pub fn data(&self) -> VhostUserInflight
        ensures { result ≡ inflight_in self.now }
    {
        VhostUserInflight::new(
            self.mmap_size,
            self.mmap_offset,
            self.num_queues,
            self.queue_size,
        )
    }

    /// The inflight region of an answer.
    pub fn of(area: &VhostUserInflight) -> Inflight
        ensures { inflight_in result ≡ area.now }
    {
        Inflight {
            mmap_size: area.mmap_size,
            mmap_offset: area.mmap_offset,
            num_queues: area.num_queues,
            queue_size: area.queue_size,
        }
    }
}

/// The `PlainHandle` of a file descriptor. None: it is negative.
pub fn handle_of(fd: i32) -> Option<PlainHandle>
    ensures { result ≡ handle_in fd }
{
    if fd < 0 {
        return None;
    }
    Some(PlainHandle {
        id: fd.unsigned_abs(),
        kind: Kind::NoSocket,
    })
}

/// The `PlainHandle` of each of these file descriptors.
///
/// InvalidParam: one is negative. OutOfMemory: an allocation failed.
pub fn handles_of(alloc: Global, fds: &[i32]) -> Result<Vec<PlainHandle>>
    ensures handles { IfOk result (λ handles. map handle_in fds.now ≡ map Some handles.items) }
    ensures refused { IfErr result (λ e. ((e ≡ InvalidParam) × Contains (map handle_in fds.now) None) ⊎ (e ≡ OutOfMemory)) }
{
    let mut handles = Vec::new(alloc);
    'fds: for fd in fds {
        let Some(handle) = handle_of(*fd) else {
            return Err(Error::InvalidParam);
        };
        if handles.push(handle).is_err() {
            return Err(Error::OutOfMemory);
        }
    }
    Ok(handles)
}

/// The file descriptor of a `PlainHandle`, or -1.
pub fn fd_of(handle: PlainHandle) -> i32
    ensures { result ≡ fd_in handle }
{
    if handle.id > i32::MAX as u32 {
        return -1;
    }
    handle.id as i32
}

/// Writes file descriptors to the start of a buffer.
pub fn put_fds(handles: &[PlainHandle], fds: &mut [i32])
    requires { length handles.now ≤ length fds.old }
    ensures front { take (length handles.now) fds.new ≡ map fd_in handles.now }
    ensures rest { drop (length handles.now) fds.new ≡ drop (length handles.now) fds.old }
{
    'handles: for i in 0..handles.len() {
        fds[i] = fd_of(handles[i]);
    }
}
