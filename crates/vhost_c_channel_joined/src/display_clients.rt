//! Worked consequences of the calls of a session with a display: what follows of their contracts alone.

ghost use Rattle.std.specs.Prelude.{◌≡◌, ◌++◌, List, IfOk, IfErr};
ghost use Rattle.vhost_protocol.specs.Stream.{Cell};
ghost use Rattle.vhost_link.specs.declared.plain.PlainHandle.{PlainHandle};
ghost use Rattle.vhost_c_common.specs.Memory.{WantsMemory};
ghost use Rattle.vhost_c_channel_joined.specs.Clients.{size, sizes, IsSizing, Sizes};

use std::alloc::Global;
use vhost_c_channel::Display;
use vhost_c_common::Refusal;
use vhost_gpu_backend_req::GpuCall;
use vhost_gpu_message::VhostUserGpuScanout;

type Outcome<T> = std::result::Result<T, Refusal>;

/// A session is opened, and gives a screen a size of 2 by 2 pixels so often. Exactly the bytes of so many messages are to be sent,
/// unless memory is refused: nothing else is an error, and none breaks the session before that.
pub fn sizes_a_screen(alloc: Global, count: u32) -> Outcome<Display>
    ensures sent { IfOk result (λ s. IsSizing (sizes count) s) }
    ensures memory { IfErr result WantsMemory }
{
    match Display::new(alloc) {
        Ok(mut display) => match size_all(&mut display, count) {
            Ok(()) => Ok(display),
            Err(refusal) => Err(refusal),
        },
        Err(error) => Err(Refusal::Protocol(error)),
    }
}

/// Does so this often.
fn size_all(display: &mut Display, count: u32) -> Outcome<()>
    ensures { (cells : List (Cell PlainHandle)) → IsSizing cells display.old → Sizes (cells ++ sizes count) result display.new }
{
    'sizes: for _ in 0..count {
        match size_one(display) {
            Ok(()) => {}
            Err(refusal) => return Err(refusal),
        }
    }
    Ok(())
}

/// Does so once.
fn size_one(display: &mut Display) -> Outcome<()>
    ensures { (cells : List (Cell PlainHandle)) → IsSizing cells display.old → Sizes (cells ++ size) result display.new }
{
    let scanout = VhostUserGpuScanout {
        scanout_id: 0,
        width: 2,
        height: 2,
    };
    match display.ask(&GpuCall::SetScanout(scanout)) {
        Ok(()) => display.take(),
        Err(refusal) => Err(refusal),
    }
}
