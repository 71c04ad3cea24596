//! The example device.

ghost use Rattle.std.specs.Prelude.{◌≡◌, IfOk};
ghost use Rattle.vhost_dummy_backend.specs.Dummy.{fresh};
ghost use Rattle.vhost_link.specs.declared.handle.Kind.TheVariants.{NoSocket};
ghost use Rattle.vhost_lines.specs.Session.{spares};

use std::alloc::{AllocError, Global};
use vhost_dummy_backend::DummyBackendReqHandler;
use vhost_link::{Kind, MemLink, PlainHandle};

/// The device, over links in memory.
pub type Device = DummyBackendReqHandler<MemLink>;

/// A device that nobody owns, with eight file descriptors to give: 100 first.
pub fn new_device(alloc: Global) -> Result<Device, AllocError>
    ensures { IfOk result (λ device. device ≡ fresh alloc spares) }
{
    let handles = [
        spare(107),
        spare(106),
        spare(105),
        spare(104),
        spare(103),
        spare(102),
        spare(101),
        spare(100),
    ];
    let spare = Vec::from_slice(alloc, &handles)?;
    Ok(DummyBackendReqHandler::new(alloc, spare))
}

/// A file descriptor with this number, which is no socket.
fn spare(id: u32) -> PlainHandle
    ensures { result ≡ record { id = id; kind = NoSocket } }
{
    PlainHandle {
        id,
        kind: Kind::NoSocket,
    }
}
