//! Any program in C, as its calls of a session with a display: values, one after another, in any order.

ghost use Rattle.std.specs.Prelude.{◌≡◌, ◌<◌, ◌+◌, true, All, None, IfOk, IfErr, length, vec_len, vec_capacity};
ghost use Rattle.vhost_gpu_message.specs.Replies.{display_info_of, display_info_text, edid_of, edid_text};
ghost use Rattle.vhost_protocol.specs.Gpu.{TheDisplayInfo, TheEdid};
ghost use Rattle.vhost_c_common.specs.ByNumber.{By};
ghost use Rattle.vhost_c_channel.specs.Display.{LettingGo, Sending, TakesTo};
ghost use Rattle.vhost_c.specs.Calls.{Appends, IsMade, Runs};
ghost use Rattle.vhost_c.specs.Display.{TakesNumber, missing_at};
ghost use Rattle.vhost_c.specs.ProgramDisplay.{AsksTo, Does, IsCalled, IsSound, is_harmless};

use crate::display_asks::{
    covretin_display_ask_cursor_pos, covretin_display_ask_cursor_pos_hide,
    covretin_display_ask_cursor_update, covretin_display_ask_get_display_info,
    covretin_display_ask_get_edid, covretin_display_ask_get_protocol_features,
    covretin_display_ask_set_dmabuf_scanout, covretin_display_ask_set_dmabuf_scanout2,
    covretin_display_ask_set_protocol_features, covretin_display_ask_set_scanout,
    covretin_display_ask_update_dmabuf_scanout, covretin_display_ask_update_scanout,
};
use crate::display_holder::DisplayHolder;
use crate::display_moving::{
    covretin_display_missing, covretin_display_receive, covretin_display_to_send,
    covretin_display_unclaimed,
};
use crate::display_opening::{covretin_display_close, covretin_display_open};
use crate::display_replies::{
    covretin_display_take, covretin_display_take_display_info, covretin_display_take_edid,
    covretin_display_take_number,
};
use crate::places::{Places, ProgramAnswer, bare};
use std::alloc::{AllocError, Global};
use vhost_c_channel::{CursorPos, CursorUpdate, DmabufScanout, DmabufScanout2, Scanout, Update};

/// What a device asks of a display, with each export's arguments.
#[derive(Clone, Copy)]
pub enum DisplayAsk {
    GetProtocolFeatures,
    SetProtocolFeatures(u64),
    GetDisplayInfo,
    /// Of the screen with this number.
    GetEdid(u32),
    SetScanout(Scanout),
    /// With so many bytes of pixels.
    UpdateScanout(Update, usize),
    SetDmabufScanout(DmabufScanout, i32),
    SetDmabufScanout2(DmabufScanout2, i32),
    UpdateDmabufScanout(Update),
    MoveCursor(CursorPos),
    HideCursor(CursorPos),
    UpdateCursor(CursorUpdate),
}

/// A call of a session with a display that a program makes, with its arguments: each export's.
#[derive(Drop)]
pub enum DisplayCall {
    Open,
    /// `covretin_display_ask_..`.
    Ask(DisplayAsk),
    ToSend(Places),
    Missing(Places),
    /// With bytes and descriptors.
    Receive(Vec<u8>, Vec<i32>),
    Take,
    TakeNumber(Places),
    TakeDisplayInfo(Places),
    TakeEdid(Places),
    Unclaimed(Places),
    Close,
}

/// Makes calls, one after another, whatever each answers, and appends their answers to `answers`.
///
/// AllocError: `answers` could not grow, and no call was made.
pub fn run(
    alloc: Global,
    display: &mut DisplayHolder,
    calls: Vec<DisplayCall>,
    answers: &mut Vec<ProgramAnswer>,
) -> Result<(), AllocError>
    ensures runs { IfOk result (λ _. Appends Does calls.items answers.old.items answers.new.items display.old.session display.new.session) }
    ensures called { IfOk result (λ _. IsMade Does display.old.session → Appends IsCalled calls.items answers.old.items answers.new.items display.old.session display.new.session) }
    ensures memory { IfErr result (λ _. (display.new.session ≡ display.old.session) × (answers.new.items ≡ answers.old.items)) }
    ensures room { IfErr result (λ _. vec_capacity answers.old < vec_len answers.old + length calls.items) }
{
    answers.reserve(calls.len())?;
    for call in calls {
        let answer = make(alloc, display, call);
        answers.push_reserved(answer);
    }
    Ok(())
}

/// Makes a call.
fn make(alloc: Global, display: &mut DisplayHolder, call: DisplayCall) -> ProgramAnswer
    ensures { Does call result display.old.session display.new.session }
{
    match call {
        DisplayCall::Open => bare(alloc, covretin_display_open(alloc, display)),
        DisplayCall::Ask(what) => bare(alloc, asked(alloc, display, what)),
        DisplayCall::ToSend(places) => to_send(alloc, display, places),
        DisplayCall::Missing(places) => missing(alloc, display, places),
        DisplayCall::Receive(bytes, fds) => {
            let number = covretin_display_receive(alloc, display, &bytes, &fds);
            bare(alloc, number)
        }
        DisplayCall::Take => bare(alloc, covretin_display_take(alloc, display)),
        DisplayCall::TakeNumber(places) => take_number(alloc, display, places),
        DisplayCall::TakeDisplayInfo(places) => take_display_info(alloc, display, places),
        DisplayCall::TakeEdid(places) => take_edid(alloc, display, places),
        DisplayCall::Unclaimed(places) => unclaimed(alloc, display, places),
        DisplayCall::Close => {
            covretin_display_close(alloc, display);
            bare(alloc, 0)
        }
    }
}

/// Asks.
fn asked(alloc: Global, display: &mut DisplayHolder, what: DisplayAsk) -> u32
    ensures { AsksTo what display.old.session result display.new.session }
{
    match what {
        DisplayAsk::GetProtocolFeatures => {
            covretin_display_ask_get_protocol_features(alloc, display)
        }
        DisplayAsk::SetProtocolFeatures(features) => {
            covretin_display_ask_set_protocol_features(alloc, display, features)
        }
        DisplayAsk::GetDisplayInfo => covretin_display_ask_get_display_info(alloc, display),
        DisplayAsk::GetEdid(id) => covretin_display_ask_get_edid(alloc, display, id),
        DisplayAsk::SetScanout(scanout) => {
            covretin_display_ask_set_scanout(alloc, display, &scanout)
        }
        DisplayAsk::UpdateScanout(update, len) => {
            covretin_display_ask_update_scanout(alloc, display, &update, len)
        }
        DisplayAsk::SetDmabufScanout(scanout, fd) => {
            covretin_display_ask_set_dmabuf_scanout(alloc, display, &scanout, fd)
        }
        DisplayAsk::SetDmabufScanout2(scanout, fd) => {
            covretin_display_ask_set_dmabuf_scanout2(alloc, display, &scanout, fd)
        }
        DisplayAsk::UpdateDmabufScanout(update) => {
            covretin_display_ask_update_dmabuf_scanout(alloc, display, &update)
        }
        DisplayAsk::MoveCursor(cursor) => {
            covretin_display_ask_cursor_pos(alloc, display, &cursor)
        }
        DisplayAsk::HideCursor(cursor) => {
            covretin_display_ask_cursor_pos_hide(alloc, display, &cursor)
        }
        DisplayAsk::UpdateCursor(update) => {
            covretin_display_ask_cursor_update(alloc, display, &update)
        }
    }
}

/// Hands out a piece of what is to be sent.
fn to_send(alloc: Global, display: &mut DisplayHolder, mut places: Places) -> ProgramAnswer
    ensures sent { By (Sending result.places.bytes.items result.places.fds.items (result.places.byte_count, result.places.fd_count)) display.old.session result.number display.new.session }
    ensures held { By (λ s o s'. s'.held ≡ s.held) display.old.session result.number display.new.session }
{
    let number = covretin_display_to_send(
        alloc,
        display,
        &mut places.bytes,
        &mut places.fds,
        &mut places.byte_count,
        &mut places.fd_count,
    );
    ProgramAnswer { number, places }
}

/// Tells how many bytes are missing.
fn missing(alloc: Global, display: &mut DisplayHolder, mut places: Places) -> ProgramAnswer
    ensures number { result.number ≡ 0 }
    ensures missing { result.places.count ≡ missing_at display.old.session }
    ensures same { display.new.session ≡ display.old.session }
{
    places.count = covretin_display_missing(alloc, display);
    ProgramAnswer { number: 0, places }
}

/// Takes the display's features.
fn take_number(alloc: Global, display: &mut DisplayHolder, mut places: Places) -> ProgramAnswer
    ensures { By (TakesNumber places.number result.places.number) display.old.session result.number display.new.session }
{
    let number = covretin_display_take_number(alloc, display, &mut places.number);
    ProgramAnswer { number, places }
}

/// Takes the display's screens.
fn take_display_info(
    alloc: Global,
    display: &mut DisplayHolder,
    mut places: Places,
) -> ProgramAnswer
    ensures { By (λ s o s'. TakesTo TheDisplayInfo display_info_of display_info_text places.bytes.items result.places.bytes.items s s' o) display.old.session result.number display.new.session }
{
    let number = covretin_display_take_display_info(alloc, display, &mut places.bytes);
    ProgramAnswer { number, places }
}

/// Takes a screen's EDID.
fn take_edid(alloc: Global, display: &mut DisplayHolder, mut places: Places) -> ProgramAnswer
    ensures { By (λ s o s'. TakesTo TheEdid edid_of edid_text places.bytes.items result.places.bytes.items s s' o) display.old.session result.number display.new.session }
{
    let number = covretin_display_take_edid(alloc, display, &mut places.bytes);
    ProgramAnswer { number, places }
}

/// Hands out descriptors that came.
fn unclaimed(alloc: Global, display: &mut DisplayHolder, mut places: Places) -> ProgramAnswer
    ensures { By (LettingGo places.fds.items result.places.count result.places.fds.items) display.old.session result.number display.new.session }
{
    let number = covretin_display_unclaimed(alloc, display, &mut places.fds, &mut places.count);
    ProgramAnswer { number, places }
}

/// A program makes any calls, where there is no session before. Each is answered by 0 or one of its refusals; and where each answer
/// is harmless, the session is sound in the end, if there is one.
pub fn runs_from_none(
    alloc: Global,
    display: &mut DisplayHolder,
    calls: Vec<DisplayCall>,
) -> Result<Vec<ProgramAnswer>, AllocError>
    ensures as_many { IfOk result (λ answers. length answers.items ≡ length calls.items) }
    ensures called { display.old.session ≡ None → IfOk result (λ answers. Runs IsCalled calls.items answers.items display.old.session display.new.session) }
    ensures sound { display.old.session ≡ None → IfOk result (λ answers. All (λ a. is_harmless a.number ≡ true) answers.items → IsSound display.new.session) }
{
    let mut answers = Vec::new(alloc);
    run(alloc, display, calls, &mut answers)?;
    Ok(answers)
}
