//! Which descriptors of a backend's session are whose.

ghost use Rattle.std.specs.Prelude.{◌≡◌, ◌≢◌};
ghost use Rattle.vhost_c_common.specs.ByNumber.{By};
ghost use Rattle.vhost_c_backend.specs.Served.{Abandoning, Claiming, LettingGo};

use crate::backend_holder::BackendHolder;
use std::alloc::Global;
use vhost_c_common::{Refusal, number_of};

/// Claims a descriptor of the call that is to be replied to.
#[unsafe(no_mangle)]
pub extern "C" fn covretin_backend_claim(alloc: Global, backend: &mut BackendHolder, fd: i32) -> u32
    ensures { By (Claiming fd) backend.old.session result backend.new.session }
{
    match backend.take(alloc) {
        None => number_of(Err(Refusal::NoSession)),
        Some(mut held) => {
            let outcome = held.claim(fd);
            backend.put(held);
            number_of(outcome)
        }
    }
}

/// Hands out descriptors that nobody will claim.
#[unsafe(no_mangle)]
pub extern "C" fn covretin_backend_unclaimed(
    alloc: Global,
    backend: &mut BackendHolder,
    fds: &mut [i32],
    count: &mut usize,
) -> u32
    ensures does { By (LettingGo fds.old count.new fds.new) backend.old.session result backend.new.session }
    ensures untouched { result ≢ 0 → (fds.new ≡ fds.old) × (count.new ≡ count.old) }
{
    match backend.take(alloc) {
        None => number_of(Err(Refusal::NoSession)),
        Some(mut held) => {
            *count = held.unclaimed(fds);
            backend.put(held);
            number_of(Ok(()))
        }
    }
}

/// The rest of the request that is received will never come.
#[unsafe(no_mangle)]
pub extern "C" fn covretin_backend_abandon(alloc: Global, backend: &mut BackendHolder) -> u32
    ensures { By Abandoning backend.old.session result backend.new.session }
{
    match backend.take(alloc) {
        None => number_of(Err(Refusal::NoSession)),
        Some(mut held) => {
            held.abandon();
            backend.put(held);
            number_of(Ok(()))
        }
    }
}
