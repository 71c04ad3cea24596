//! The reply of a display is taken, by its form.

ghost use Rattle.std.specs.Prelude.{◌≡◌, ◌≢◌};
ghost use Rattle.vhost_gpu_message.specs.Replies.{display_info_of, display_info_text, edid_of, edid_text};
ghost use Rattle.vhost_protocol.specs.Gpu.{TheDisplayInfo, TheEdid};
ghost use Rattle.vhost_c_common.specs.ByNumber.{By};
ghost use Rattle.vhost_c_channel.specs.Display.{Takes, TakesTo};
ghost use Rattle.vhost_c.specs.Display.{TakesNumber};

use crate::display_holder::DisplayHolder;
use std::alloc::Global;
use vhost_c_common::{Refusal, number_of};

/// Takes the reply of a call that has no value, where one is awaited.
#[unsafe(no_mangle)]
pub extern "C" fn covretin_display_take(alloc: Global, display: &mut DisplayHolder) -> u32
    ensures { By (λ s o s'. Takes s s' o) display.old.session result display.new.session }
{
    match display.take(alloc) {
        None => number_of(Err(Refusal::NoSession)),
        Some(mut held) => {
            let outcome = held.take();
            display.put(held);
            number_of(outcome)
        }
    }
}

/// Takes the display's features.
#[unsafe(no_mangle)]
pub extern "C" fn covretin_display_take_number(
    alloc: Global,
    display: &mut DisplayHolder,
    number: &mut u64,
) -> u32
    ensures does { By (TakesNumber number.old number.new) display.old.session result display.new.session }
    ensures untouched { result ≢ 0 → number.new ≡ number.old }
{
    match display.take(alloc) {
        None => number_of(Err(Refusal::NoSession)),
        Some(mut held) => {
            let outcome = held.take_number();
            display.put(held);
            match outcome {
                Ok(features) => {
                    *number = features;
                    number_of(Ok(()))
                }
                Err(refusal) => number_of(Err(refusal)),
            }
        }
    }
}

/// Takes the display's screens, as the wire bytes of their record.
#[unsafe(no_mangle)]
pub extern "C" fn covretin_display_take_display_info(
    alloc: Global,
    display: &mut DisplayHolder,
    place: &mut [u8],
) -> u32
    ensures does { By (λ s o s'. TakesTo TheDisplayInfo display_info_of display_info_text place.old place.new s s' o) display.old.session result display.new.session }
    ensures untouched { result ≢ 0 → place.new ≡ place.old }
{
    match display.take(alloc) {
        None => number_of(Err(Refusal::NoSession)),
        Some(mut held) => {
            let outcome = held.take_display_info(place);
            display.put(held);
            number_of(outcome)
        }
    }
}

/// Takes a screen's EDID, as the wire bytes of its record.
#[unsafe(no_mangle)]
pub extern "C" fn covretin_display_take_edid(
    alloc: Global,
    display: &mut DisplayHolder,
    place: &mut [u8],
) -> u32
    ensures does { By (λ s o s'. TakesTo TheEdid edid_of edid_text place.old place.new s s' o) display.old.session result display.new.session }
    ensures untouched { result ≢ 0 → place.new ≡ place.old }
{
    match display.take(alloc) {
        None => number_of(Err(Refusal::NoSession)),
        Some(mut held) => {
            let outcome = held.take_edid(place);
            display.put(held);
            number_of(outcome)
        }
    }
}
