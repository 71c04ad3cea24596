//! Calls by which a device asks its display.

ghost use Rattle.std.specs.Prelude.{◌≡◌, ℕ, List, [], length};
ghost use Rattle.vhost_protocol.specs.Gpu.{GetProtocolFeatures, SetProtocolFeatures, GetDisplayInfo, GetEdid, SetScanout, UpdateScanout, SetDmabufScanout, SetDmabufScanout2, UpdateDmabufScanout, MoveCursor, HideCursor, UpdateCursor};
ghost use Rattle.vhost_gpu_backend_req.specs.Halves.{call_in, pixels_of};
ghost use Rattle.vhost_c_common.specs.Records.{handle_in};
ghost use Rattle.vhost_c_channel.specs.DisplayRecords.{scanout_in, update_in, dmabuf_in, dmabuf2_in, cursor_pos_in, cursor_update_in};
ghost use Rattle.vhost_c.specs.Display.{AsksBy};

use crate::display_holder::DisplayHolder;
use std::alloc::Global;
use vhost_c_channel::{CursorPos, CursorUpdate, DmabufScanout, DmabufScanout2, Scanout, Update};
use vhost_c_common::{Refusal, handle_of, number_of};
use vhost_gpu_backend_req::GpuCall;
use vhost_gpu_message::VhostUserGpuEdidRequest;
use vhost_link::PlainHandle;
use vhost_message::VhostUserU64;

/// Asks a session, if there is one. The call's pixels, if any, are sent by the caller, behind what is then to be sent.
fn asked(alloc: Global, display: &mut DisplayHolder, call: GpuCall<PlainHandle>) -> u32
    ensures pixels { (pixels : List ℕ) → length pixels ≡ pixels_of call → AsksBy (call_in call pixels) display.old.session result display.new.session }
    ensures bare { pixels_of call ≡ 0 → AsksBy (call_in call []) display.old.session result display.new.session }
{
    match display.take(alloc) {
        None => number_of(Err(Refusal::NoSession)),
        Some(mut held) => {
            let outcome = held.ask(&call);
            display.put(held);
            number_of(outcome)
        }
    }
}

/// Asks for the display's features.
#[unsafe(no_mangle)]
pub extern "C" fn covretin_display_ask_get_protocol_features(
    alloc: Global,
    display: &mut DisplayHolder,
) -> u32
    ensures { AsksBy GetProtocolFeatures display.old.session result display.new.session }
{
    asked(alloc, display, GpuCall::GetProtocolFeatures)
}

/// Sends which features the device accepted.
#[unsafe(no_mangle)]
pub extern "C" fn covretin_display_ask_set_protocol_features(
    alloc: Global,
    display: &mut DisplayHolder,
    features: u64,
) -> u32
    ensures { AsksBy (SetProtocolFeatures features) display.old.session result display.new.session }
{
    let features = VhostUserU64 { value: features };
    asked(alloc, display, GpuCall::SetProtocolFeatures(features))
}

/// Asks which screens there are.
#[unsafe(no_mangle)]
pub extern "C" fn covretin_display_ask_get_display_info(
    alloc: Global,
    display: &mut DisplayHolder,
) -> u32
    ensures { AsksBy GetDisplayInfo display.old.session result display.new.session }
{
    asked(alloc, display, GpuCall::GetDisplayInfo)
}

/// Asks for a screen's EDID.
#[unsafe(no_mangle)]
pub extern "C" fn covretin_display_ask_get_edid(
    alloc: Global,
    display: &mut DisplayHolder,
    scanout_id: u32,
) -> u32
    ensures { AsksBy (GetEdid (record { scanout_id = scanout_id })) display.old.session result display.new.session }
{
    let request = VhostUserGpuEdidRequest { scanout_id };
    asked(alloc, display, GpuCall::GetEdid(request))
}

/// Sets a screen's size.
#[unsafe(no_mangle)]
pub extern "C" fn covretin_display_ask_set_scanout(
    alloc: Global,
    display: &mut DisplayHolder,
    scanout: &Scanout,
) -> u32
    ensures { AsksBy (SetScanout (scanout_in scanout.now)) display.old.session result display.new.session }
{
    asked(alloc, display, GpuCall::SetScanout(scanout.data()))
}

/// Shows a rectangle of so many bytes of pixels, which the caller sends behind what is then to be sent.
#[unsafe(no_mangle)]
pub extern "C" fn covretin_display_ask_update_scanout(
    alloc: Global,
    display: &mut DisplayHolder,
    update: &Update,
    pixels_len: usize,
) -> u32
    ensures { (pixels : List ℕ) → length pixels ≡ pixels_len → AsksBy (UpdateScanout (update_in update.now) pixels) display.old.session result display.new.session }
{
    let call = GpuCall::UpdateScanout(update.data(), pixels_len);
    asked(alloc, display, call)
}

/// Shows a rectangle of a buffer, by its file descriptor, if that is not negative.
#[unsafe(no_mangle)]
pub extern "C" fn covretin_display_ask_set_dmabuf_scanout(
    alloc: Global,
    display: &mut DisplayHolder,
    scanout: &DmabufScanout,
    fd: i32,
) -> u32
    ensures { AsksBy (SetDmabufScanout (dmabuf_in scanout.now) (handle_in fd)) display.old.session result display.new.session }
{
    let call = GpuCall::SetDmabufScanout(scanout.data(), handle_of(fd));
    asked(alloc, display, call)
}

/// The same with how the buffer's pixels are laid out.
#[unsafe(no_mangle)]
pub extern "C" fn covretin_display_ask_set_dmabuf_scanout2(
    alloc: Global,
    display: &mut DisplayHolder,
    scanout: &DmabufScanout2,
    fd: i32,
) -> u32
    ensures { AsksBy (SetDmabufScanout2 (dmabuf2_in scanout.now) (handle_in fd)) display.old.session result display.new.session }
{
    let call = GpuCall::SetDmabufScanout2(scanout.data(), handle_of(fd));
    asked(alloc, display, call)
}

/// Reports that a rectangle of the buffer has changed.
#[unsafe(no_mangle)]
pub extern "C" fn covretin_display_ask_update_dmabuf_scanout(
    alloc: Global,
    display: &mut DisplayHolder,
    update: &Update,
) -> u32
    ensures { AsksBy (UpdateDmabufScanout (update_in update.now)) display.old.session result display.new.session }
{
    asked(alloc, display, GpuCall::UpdateDmabufScanout(update.data()))
}

/// Moves the cursor.
#[unsafe(no_mangle)]
pub extern "C" fn covretin_display_ask_cursor_pos(
    alloc: Global,
    display: &mut DisplayHolder,
    cursor: &CursorPos,
) -> u32
    ensures { AsksBy (MoveCursor (cursor_pos_in cursor.now)) display.old.session result display.new.session }
{
    asked(alloc, display, GpuCall::CursorPos(cursor.data()))
}

/// Hides the cursor.
#[unsafe(no_mangle)]
pub extern "C" fn covretin_display_ask_cursor_pos_hide(
    alloc: Global,
    display: &mut DisplayHolder,
    cursor: &CursorPos,
) -> u32
    ensures { AsksBy (HideCursor (cursor_pos_in cursor.now)) display.old.session result display.new.session }
{
    asked(alloc, display, GpuCall::CursorPosHide(cursor.data()))
}

/// Gives the cursor an image of 16384 bytes, which the caller sends behind what is then to be sent.
#[unsafe(no_mangle)]
pub extern "C" fn covretin_display_ask_cursor_update(
    alloc: Global,
    display: &mut DisplayHolder,
    update: &CursorUpdate,
) -> u32
    ensures { (pixels : List ℕ) → length pixels ≡ 16384 → AsksBy (UpdateCursor (cursor_update_in update.now) pixels) display.old.session result display.new.session }
{
    asked(alloc, display, GpuCall::CursorUpdate(update.data()))
}
