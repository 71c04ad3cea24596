//! Worked consequences of the exports of a session with a display: what follows of their contracts alone.

ghost use Rattle.std.specs.Prelude.{◌≡◌, ◌∷◌, ◌++◌, ℕ, List, [], None, length};
ghost use Rattle.std.specs.Option.{IsSomeAnd};
ghost use Rattle.vhost_protocol.specs.Stream.{bytes};
ghost use Rattle.vhost_c_channel.specs.Display.{queued};
ghost use Rattle.vhost_c.specs.Display.{sized_and_shown};

use crate::display_asks::{
    covretin_display_ask_get_protocol_features, covretin_display_ask_set_scanout,
    covretin_display_ask_update_scanout,
};
use crate::display_holder::DisplayHolder;
use crate::display_moving::covretin_display_receive;
use crate::display_opening::covretin_display_open;
use crate::display_replies::{covretin_display_take, covretin_display_take_number};
use std::alloc::Global;
use vhost_c_channel::{Scanout, Update};

/// A session is opened, gives a screen a size of 2 by 2 pixels, and shows these. Where all is answered 0, what is to be sent and then
/// any 16 bytes of pixels are exactly both messages.
pub fn shows_a_rectangle(alloc: Global, display: &mut DisplayHolder) -> [u32; 4]
    ensures { display.old.session ≡ None → result ≡ 0 ∷ 0 ∷ 0 ∷ 0 ∷ []
        → IsSomeAnd display.new.session (λ s. (pixels : List ℕ) → length pixels ≡ 16 → bytes (queued s) ++ pixels ≡ sized_and_shown pixels) }
{
    let scanout = Scanout {
        scanout_id: 0,
        width: 2,
        height: 2,
    };
    let update = Update {
        scanout_id: 0,
        x: 0,
        y: 0,
        width: 2,
        height: 2,
    };
    let opened = covretin_display_open(alloc, display);
    let sized = covretin_display_ask_set_scanout(alloc, display, &scanout);
    let taken = covretin_display_take(alloc, display);
    let shown = covretin_display_ask_update_scanout(alloc, display, &update, 16);
    [opened, sized, taken, shown]
}

/// A session is opened and asks which features the display has, whose reply comes: a header, and the number 3. Where all is answered
/// 0, this number was read, and exactly the bytes of the request are to be sent.
pub fn learns_the_features(
    alloc: Global,
    display: &mut DisplayHolder,
    features: &mut u64,
) -> [u32; 5]
    ensures { display.old.session ≡ None → result ≡ 0 ∷ 0 ∷ 0 ∷ 0 ∷ 0 ∷ []
        → (features.new ≡ 3) × IsSomeAnd display.new.session (λ s. bytes (queued s) ≡ 1 ∷ 0 ∷ 0 ∷ 0 ∷ 0 ∷ 0 ∷ 0 ∷ 0 ∷ 0 ∷ 0 ∷ 0 ∷ 0 ∷ []) }
{
    let opened = covretin_display_open(alloc, display);
    let asked = covretin_display_ask_get_protocol_features(alloc, display);
    let header = covretin_display_receive(
        alloc,
        display,
        &[1, 0, 0, 0, 4, 0, 0, 0, 8, 0, 0, 0],
        &[],
    );
    let record = covretin_display_receive(alloc, display, &[3, 0, 0, 0, 0, 0, 0, 0], &[]);
    let taken = covretin_display_take_number(alloc, display, features);
    [opened, asked, header, record, taken]
}
