//! Worked consequences of the exports of the backend channel: what follows of their contracts alone.

ghost use Rattle.std.specs.Prelude.{◌≡◌, ◌∷◌, [], None};
ghost use Rattle.std.specs.Option.{IsSomeAnd};
ghost use Rattle.vhost_protocol.specs.Stream.{bytes, plain};
ghost use Rattle.vhost_c_channel.specs.Asking.{queued};
ghost use Rattle.vhost_c_channel.specs.Serving as serving;

use crate::channel_asks::covretin_channel_ask_config_change;
use crate::channel_holder::ChannelHolder;
use crate::channel_opening::{covretin_channel_open, covretin_channel_set_config_change};
use crate::channel_replies::covretin_channel_reply_number;
use crate::channel_server_holder::ChannelServerHolder;
use crate::channel_server_moving::{covretin_channel_server_next, covretin_channel_server_receive};
use crate::channel_server_opening::{
    covretin_channel_server_open, covretin_channel_server_set_reply_ack,
};
use std::alloc::Global;

/// A session is opened, and reports that the configuration space changed, which was agreed on. Where all is answered 0, exactly
/// the bytes of this request are to be sent.
pub fn reports_a_change(alloc: Global, channel: &mut ChannelHolder) -> [u32; 3]
    ensures { channel.old.session ≡ None → result ≡ 0 ∷ 0 ∷ 0 ∷ [] → IsSomeAnd channel.new.session (λ s. bytes (queued s) ≡ 2 ∷ 0 ∷ 0 ∷ 0 ∷ 1 ∷ 0 ∷ 0 ∷ 0 ∷ 0 ∷ 0 ∷ 0 ∷ 0 ∷ []) }
{
    let opened = covretin_channel_open(alloc, channel);
    let agreed = covretin_channel_set_config_change(alloc, channel, true);
    let asked = covretin_channel_ask_config_change(alloc, channel);
    [opened, agreed, asked]
}

/// A frontend's session is opened, which replies to requests, and the bytes come by which a device reports that the configuration space
/// changed. Where all is answered 0, exactly this was asked, and exactly the bytes of a reply that says 0 are to be sent.
pub fn hears_a_change(alloc: Global, server: &mut ChannelServerHolder, call: &mut u32) -> [u32; 5]
    ensures { server.old.session ≡ None → result ≡ 0 ∷ 0 ∷ 0 ∷ 0 ∷ 0 ∷ []
        → (call.new ≡ 2) × IsSomeAnd server.new.session (λ s. serving.queued s ≡ plain (2 ∷ 0 ∷ 0 ∷ 0 ∷ 5 ∷ 0 ∷ 0 ∷ 0 ∷ 8 ∷ 0 ∷ 0 ∷ 0 ∷ 0 ∷ 0 ∷ 0 ∷ 0 ∷ 0 ∷ 0 ∷ 0 ∷ 0 ∷ [])) }
{
    let opened = covretin_channel_server_open(alloc, server);
    let agreed = covretin_channel_server_set_reply_ack(alloc, server, true);
    let report = [2, 0, 0, 0, 9, 0, 0, 0, 0, 0, 0, 0];
    let received = covretin_channel_server_receive(alloc, server, &report, &[]);
    let asked = covretin_channel_server_next(alloc, server, call);
    let replied = covretin_channel_reply_number(alloc, server, 0);
    [opened, agreed, received, asked, replied]
}
