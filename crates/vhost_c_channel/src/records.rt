//! Records of the backend channel as a program in C writes them.

ghost use Rattle.std.specs.Prelude.{◌≡◌, ◌≢◌, length, IfSome, IfNone};
ghost use Rattle.vhost_c_channel.specs.Records.{mmap_in, mmap_out};

use uuid::Uuid;
use vhost_message::{VhostUserMMap, VhostUserSharedMsg};

/// A part of a region of shared memory, and what is mapped there: `covretin_mmap`.
#[repr(C)]
#[derive(Drop, Clone, Copy)]
pub struct Mmap {
    /// Where it begins in what the file descriptor maps, in bytes.
    pub fd_offset: u64,
    /// Where it begins in the region, in bytes.
    pub shm_offset: u64,
    /// In bytes.
    pub len: u64,
    /// Bit 0: it may be written.
    pub flags: u64,
    /// The number of the region.
    pub shmid: u8,
}

impl Mmap {
    /// The mapping of a call.
    pub fn data(&self) -> VhostUserMMap
        ensures { result ≡ mmap_in self.now }
    {
        VhostUserMMap {
            shmid: self.shmid,
            padding: [0; 7],
            fd_offset: self.fd_offset,
            shm_offset: self.shm_offset,
            len: self.len,
            flags: self.flags,
        }
    }

    /// The mapping of a request.
    pub(crate) fn of(mapping: &VhostUserMMap) -> Mmap
        ensures { result ≡ mmap_out mapping.now }
    {
        Mmap {
            fd_offset: mapping.fd_offset,
            shm_offset: mapping.shm_offset,
            len: mapping.len,
            flags: mapping.flags,
            shmid: mapping.shmid,
        }
    }
}

/// The name of a shared object. None: these are not 16 bytes.
pub fn name_in(name: &[u8]) -> Option<VhostUserSharedMsg>
    ensures some { IfSome result (λ n. n ≡ record { uuid = name.now }) }
    ensures none { IfNone result (length name.now ≢ 16) }
{
    if name.len() != 16 {
        return None;
    }
    let mut bytes = [0; 16];
    bytes.copy_from_slice(name);
    Some(VhostUserSharedMsg {
        uuid: Uuid::from_bytes(bytes),
    })
}
