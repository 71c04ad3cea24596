//! A descriptor's 16 bytes.

ghost use Rattle.std.specs.Prelude.{◌≡◌};
ghost use Rattle.vhost_c_queue.specs.DeviceQueue.{as_packed};

use vhost_queue::{Descriptor, PackedDescriptor};

/// The 16 bytes as a descriptor of a packed queue.
pub fn as_packed(descriptor: Descriptor) -> PackedDescriptor
    ensures { result ≡ as_packed descriptor }
{
    PackedDescriptor {
        addr: descriptor.addr,
        len: descriptor.len,
        id: descriptor.flags,
        flags: descriptor.next,
    }
}
