//! Worked consequences of the exports of a backend: what follows of their contracts alone.

ghost use Rattle.std.specs.Prelude.{◌≡◌, ◌∷◌, [], None};
ghost use Rattle.std.specs.Option.{IsSomeAnd};
ghost use Rattle.vhost_protocol.specs.Stream.{plain};
ghost use Rattle.vhost_c_backend.specs.Served.{queued};
ghost use Rattle.vhost_c_backend.specs.Waiting.{Comes, features_reply};

use crate::backend_holder::BackendHolder;
use crate::backend_moving::{covretin_backend_next, covretin_backend_receive};
use crate::backend_opening::covretin_backend_open;
use crate::backend_replies::{covretin_reply_done, covretin_reply_number};
use std::alloc::Global;

/// Bytes come without a file descriptor, and are read as a request. Where both are answered 0, and they are one message, the
/// number of the call is that of the message's row.
pub fn comes(alloc: Global, backend: &mut BackendHolder, text: &[u8], call: &mut u32) -> (u32, u32)
    ensures { Comes text.now backend.old.session result call.new backend.new.session }
{
    let received = covretin_backend_receive(alloc, backend, text, &[]);
    let read = covretin_backend_next(alloc, backend, call);
    (received, read)
}

/// A session is opened, and three requests come to it, one after another: GET_FEATURES, which is replied to by these
/// features, SET_OWNER and RESET_OWNER, which the device does. Where each call is answered 0, these three calls were asked
/// of the device, and exactly the bytes of the one reply are to be sent.
pub fn serves_three(
    alloc: Global,
    backend: &mut BackendHolder,
    features: u64,
    first: &mut u32,
    second: &mut u32,
    third: &mut u32,
) -> [u32; 10]
    ensures { backend.old.session ≡ None → result ≡ 0 ∷ 0 ∷ 0 ∷ 0 ∷ 0 ∷ 0 ∷ 0 ∷ 0 ∷ 0 ∷ 0 ∷ []
        → (first.new ≡ 1) × (second.new ≡ 3) × (third.new ≡ 4) × IsSomeAnd backend.new.session (λ s. queued s ≡ plain (features_reply features)) }
{
    let opened = covretin_backend_open(alloc, backend);
    let one = comes(alloc, backend, &[1, 0, 0, 0, 1, 0, 0, 0, 0, 0, 0, 0], first);
    let offered = covretin_reply_number(alloc, backend, features);
    let two = comes(
        alloc,
        backend,
        &[3, 0, 0, 0, 1, 0, 0, 0, 0, 0, 0, 0],
        second,
    );
    let owned = covretin_reply_done(alloc, backend);
    let three = comes(alloc, backend, &[4, 0, 0, 0, 1, 0, 0, 0, 0, 0, 0, 0], third);
    let given_up = covretin_reply_done(alloc, backend);
    [
        opened, one.0, one.1, offered, two.0, two.1, owned, three.0, three.1, given_up,
    ]
}
