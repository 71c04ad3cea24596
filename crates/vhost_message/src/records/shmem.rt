//! Shared memory regions.

ghost use Rattle.std.specs.Prelude.{◌≡◌, ℕ, ◌*◌, ◌<◌, ◌^◌, [], ◌++◌, length, flat_map, slice_index};
ghost use Rattle.vhost_message.specs.Text.{digits};
ghost use Rattle.vhost_message.specs.Records.{shmem_config, shmem_config_text, shmem_config_of, mmap_text, mmap_of};
ghost use Rattle.vhost_message.specs.LongRecords.{ShMemConfigFits, MMapFits, shmem_config-length, shmem_config-reads_back, mmap-length, mmap-reads_back};
ghost use Rattle.vhost_message.specs.Valid.{is_valid_mmap};

use crate::bytes::{ByteValued, VhostUserMsgValidator};
use crate::flags::VhostUserMMapFlags;
use byteorder::{ByteOrder, LittleEndian};

/// The sizes in bytes of the shared memory regions (vhost-user specification, "Shared memory regions description"):
/// `nregions` of them count.
#[derive(Clone, Copy, Debug)]
pub struct VhostUserShMemConfig {
    /// How many regions there are.
    pub nregions: u32,
    padding: u32,
    /// The size of each region, 0 where there is none.
    pub memory_sizes: [u64; 256],
}

impl VhostUserShMemConfig {
    /// `nregions` regions of these sizes in bytes, of which the first 256 are taken; the rest is filled with 0.
    pub fn new(nregions: u32, memory: &[u64]) -> Self
        ensures { result ≡ shmem_config nregions memory.now }
    {
        let count = memory.len().min(256);
        let mut memory_sizes = [0; 256];
        memory_sizes[..count].copy_from_slice(&memory[..count]);
        VhostUserShMemConfig {
            nregions,
            padding: 0,
            memory_sizes,
        }
    }

    /// Its numbers fit their fields. It does nothing.
    pub fn fits_law(&self)
        ensures { ShMemConfigFits self.now }
    {
        let VhostUserShMemConfig {
            nregions: _nregions,
            padding: _padding,
            memory_sizes: _sizes,
        } = *self;
        sizes_law(&self.memory_sizes);
    }
}

/// Numbers of 64 bits fit them.
fn sizes_law(sizes: &[u64])
    ensures { (k : ℕ) → slice_index sizes.now k < 2 ^ 64 }
{}

impl Default for VhostUserShMemConfig {
    ghost is_default = { λ c. c ≡ shmem_config 0 [] };

    /// No region.
    fn default() -> Self {
        VhostUserShMemConfig {
            nregions: 0,
            padding: 0,
            memory_sizes: [0; 256],
        }
    }
}

impl ByteValued for VhostUserShMemConfig {
    const SIZE: usize = 2056;

    ghost SIZE = { 2056 };

    ghost text = { shmem_config_text };

    ghost read = { shmem_config_of };

    ghost fits = { ShMemConfigFits };

    ghost text_length = { shmem_config-length };

    ghost reads_back = { shmem_config-reads_back };

    fn encode_into(&self, out: &mut [u8]) {
        let (nregions, padding) = (self.nregions, self.padding);
        LittleEndian::write_u32(out, nregions);
        LittleEndian::write_u32(&mut out[4..], padding);
        write_sizes(&mut out[8..], &self.memory_sizes);
    }

    fn decode(b: &[u8]) -> Self {
        let mut memory_sizes = [0; 256];
        LittleEndian::read_u64_into(&b[8..], &mut memory_sizes);
        VhostUserShMemConfig {
            nregions: LittleEndian::read_u32(b),
            padding: LittleEndian::read_u32(&b[4..]),
            memory_sizes,
        }
    }
}

impl VhostUserMsgValidator for VhostUserShMemConfig {
    fn is_valid(&self) -> bool {
        true
    }
}

/// A mapping of some bytes of a file into a shared memory region, all in bytes: the region's number, where the mapping
/// begins in the file and in the region, and how long it is (vhost-user specification, "VIRTIO shared memory region
/// mapping message").
#[derive(Clone, Copy, Default, Debug)]
pub struct VhostUserMMap {
    /// The number of the region.
    pub shmid: u8,
    /// Bytes without a meaning, kept as they are read.
    pub padding: [u8; 7],
    /// Where the mapping begins in the file.
    pub fd_offset: u64,
    /// Where it begins in the region.
    pub shm_offset: u64,
    /// How long it is.
    pub len: u64,
    /// Bits of `VhostUserMMapFlags`.
    pub flags: u64,
}

impl ByteValued for VhostUserMMap {
    const SIZE: usize = 40;

    ghost SIZE = { 40 };

    ghost text = { mmap_text };

    ghost read = { mmap_of };

    ghost fits = { MMapFits };

    ghost text_length = { mmap-length };

    ghost reads_back = { mmap-reads_back };

    fn encode_into(&self, out: &mut [u8]) {
        let VhostUserMMap {
            shmid,
            padding,
            fd_offset,
            shm_offset,
            len,
            flags,
        } = *self;
        let (head, words) = out.split_at_mut(8);
        write_head(head, shmid, &padding);
        write_words(words, fd_offset, shm_offset, len, flags);
    }

    fn decode(b: &[u8]) -> Self {
        let mut padding = [0; 7];
        padding.copy_from_slice(&b[1..8]);
        VhostUserMMap {
            shmid: b[0],
            padding,
            fd_offset: LittleEndian::read_u64(&b[8..]),
            shm_offset: LittleEndian::read_u64(&b[16..]),
            len: LittleEndian::read_u64(&b[24..]),
            flags: LittleEndian::read_u64(&b[32..]),
        }
    }
}

impl VhostUserMsgValidator for VhostUserMMap {
    ghost valid = { is_valid_mmap };

    fn is_valid(&self) -> bool {
        self.len != 0
            && self.fd_offset.checked_add(self.len).is_some()
            && self.shm_offset.checked_add(self.len).is_some()
            && VhostUserMMapFlags::is_known(self.flags)
    }
}

// Writes the number of a region and the padding behind it.
fn write_head(out: &mut [u8], shmid: u8, padding: &[u8])
    requires room { length out.old ≡ 8 }
    requires padding { length padding.now ≡ 7 }
    ensures text { out.new ≡ digits 1 shmid ++ padding.now }
    ensures fits { shmid < 2 ^ 8 }
{
    out[0] = shmid;
    out[1..].copy_from_slice(padding);
}

// Writes four numbers.
fn write_words(out: &mut [u8], a: u64, b: u64, c: u64, d: u64)
    requires { length out.old ≡ 32 }
    ensures text { out.new ≡ digits 8 a ++ digits 8 b ++ digits 8 c ++ digits 8 d }
    ensures fits { (a < 2 ^ 64) × (b < 2 ^ 64) × (c < 2 ^ 64) × (d < 2 ^ 64) }
{
    LittleEndian::write_u64(out, a);
    LittleEndian::write_u64(&mut out[8..], b);
    LittleEndian::write_u64(&mut out[16..], c);
    LittleEndian::write_u64(&mut out[24..], d);
}

// Writes numbers one behind the other.
fn write_sizes(out: &mut [u8], sizes: &[u64])
    requires { length out.old ≡ 8 * length sizes.now }
    ensures text { out.new ≡ flat_map (digits 8) sizes.now }
    ensures fits { (k : ℕ) → slice_index sizes.now k < 2 ^ 64 }
{
    LittleEndian::write_u64_into(sizes, out);
}
