//! Where a program in C has the answers of its calls, of whichever session.

ghost use Rattle.std.specs.Prelude.{◌≡◌};

use std::alloc::Global;
use vhost_c_channel::Mmap;
use vhost_c_common::{Config, Inflight, Region, Vring};

/// The places of a program that its calls write to, each to its own.
#[derive(Drop)]
pub struct Places {
    pub bytes: Vec<u8>,
    pub fds: Vec<i32>,
    pub numbers: Vec<u64>,
    pub regions: Vec<Region>,
    pub byte_count: usize,
    pub fd_count: usize,
    pub count: usize,
    pub number: u64,
    /// The number of a call, or of a request.
    pub code: u32,
    pub index: u32,
    pub value: u32,
    pub direction: u32,
    pub phase: u32,
    pub fd: i32,
    pub listening: bool,
    pub config: Config,
    pub inflight: Inflight,
    pub ring: Vring,
    pub region: Region,
    pub mmap: Mmap,
}

/// What a call answers: its number, of `enum covretin_error`, and its places then.
#[derive(Drop)]
pub struct ProgramAnswer {
    pub number: u32,
    pub places: Places,
}

/// The answer of a call that writes to no place.
pub(crate) fn bare(alloc: Global, number: u32) -> ProgramAnswer
    ensures { result.number ≡ number }
{
    let region = Region {
        guest_phys_addr: 0,
        memory_size: 0,
        user_addr: 0,
        mmap_offset: 0,
        fd: 0,
    };
    let places = Places {
        bytes: Vec::new(alloc),
        fds: Vec::new(alloc),
        numbers: Vec::new(alloc),
        regions: Vec::new(alloc),
        byte_count: 0,
        fd_count: 0,
        count: 0,
        number: 0,
        code: 0,
        index: 0,
        value: 0,
        direction: 0,
        phase: 0,
        fd: 0,
        listening: false,
        config: Config {
            offset: 0,
            size: 0,
            flags: 0,
        },
        inflight: Inflight {
            mmap_size: 0,
            mmap_offset: 0,
            num_queues: 0,
            queue_size: 0,
        },
        ring: no_ring(),
        region,
        mmap: Mmap {
            fd_offset: 0,
            shm_offset: 0,
            len: 0,
            flags: 0,
            shmid: 0,
        },
    };
    ProgramAnswer { number, places }
}

/// A ring that lies nowhere.
fn no_ring() -> Vring {
    Vring {
        queue_max_size: 0,
        queue_size: 0,
        flags: 0,
        desc_table_addr: 0,
        used_ring_addr: 0,
        avail_ring_addr: 0,
        log_addr: 0,
        has_log_addr: false,
    }
}
