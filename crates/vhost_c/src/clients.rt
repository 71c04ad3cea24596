//! Worked consequences of the exports: what follows of their contracts alone.

ghost use Rattle.std.specs.Prelude.{◌≡◌, ◌≢◌, ◌⊎◌, ◌∷◌, [], None, negsuc};
ghost use Rattle.std.specs.Option.{IsSomeAnd};
ghost use Rattle.vhost_protocol.specs.Stream.{bytes};
ghost use Rattle.vhost_c_common.specs.Number.{number};
ghost use Rattle.vhost_c_frontend.specs.Session.{queued};
ghost use Rattle.vhost_c_common.specs.declared.refusal.Refusal.TheVariants.{NotYet};

use crate::answers::covretin_answer_fd;
use crate::asks::{
    covretin_ask_get_config, covretin_ask_get_features, covretin_ask_postcopy_advise,
};
use crate::holder::Holder;
use crate::moving::{covretin_inactive, covretin_receive, covretin_take};
use crate::opening::covretin_open;
use std::alloc::Global;

/// A session is opened, and asked for the backend's features. Where both are answered 0, exactly the bytes of this request
/// are to be sent.
pub fn opens_and_asks(alloc: Global, session: &mut Holder) -> (u32, u32)
    ensures { session.old.session ≡ None → result ≡ (0, 0) → IsSomeAnd session.new.session (λ s. bytes (queued s) ≡ 1 ∷ 0 ∷ 0 ∷ 0 ∷ 1 ∷ 0 ∷ 0 ∷ 0 ∷ 0 ∷ 0 ∷ 0 ∷ 0 ∷ []) }
{
    let opened = covretin_open(alloc, session, 2);
    let asked = covretin_ask_get_features(alloc, session);
    (opened, asked)
}

/// The same, and its answer is to be decoded before anything came: that is too early.
pub fn takes_too_early(alloc: Global, session: &mut Holder) -> (u32, u32, u32)
    ensures { session.old.session ≡ None → result.0 ≡ 0 → result.1 ≡ 0 → result.2 ≡ number NotYet }
{
    let opened = covretin_open(alloc, session, 2);
    let asked = covretin_ask_get_features(alloc, session);
    let taken = covretin_take(alloc, session);
    (opened, asked, taken)
}

/// A part of the configuration space is asked for. Unless that is refused for a feature, none is told, whatever was refused before.
pub fn lacks_none(
    alloc: Global,
    session: &mut Holder,
    offset: u32,
    size: u32,
    flags: u32,
) -> (u32, u64)
    ensures { result.0 ≢ 3 → result.0 ≢ 4 → result.1 ≡ 0 }
{
    let asked = covretin_ask_get_config(alloc, session, offset, size, flags);
    let inactive = covretin_inactive(alloc, session);
    (asked, inactive)
}

/// A file descriptor is asked for, and an answer comes with these. Where all is answered 0, they are one, which the answer
/// names, or it names none, whatever came to the session before.
pub fn names_what_came(
    alloc: Global,
    session: &mut Holder,
    text: &[u8],
    fds: &[i32],
    named: &mut i32,
) -> (u32, u32, u32, u32)
    ensures { result.0 ≡ 0 → result.1 ≡ 0 → result.2 ≡ 0 → result.3 ≡ 0 → (fds.now ≡ named.new ∷ []) ⊎ (named.new ≡ negsuc 0) }
{
    let asked = covretin_ask_postcopy_advise(alloc, session);
    let received = covretin_receive(alloc, session, text, fds);
    let taken = covretin_take(alloc, session);
    let read = covretin_answer_fd(alloc, session, named);
    (asked, received, taken, read)
}
