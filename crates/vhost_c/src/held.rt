//! Which descriptors of a session are whose.

ghost use Rattle.std.specs.Prelude.{◌≡◌, ◌≢◌};
ghost use Rattle.vhost_c_common.specs.ByNumber.{By};
ghost use Rattle.vhost_c_frontend.specs.Session.{Abandoning, Claiming, LettingGo};

use crate::holder::Holder;
use std::alloc::Global;
use vhost_c_common::{Refusal, number_of};

/// Claims a descriptor of the answer that was decoded last.
#[unsafe(no_mangle)]
pub extern "C" fn covretin_claim(alloc: Global, session: &mut Holder, fd: i32) -> u32
    ensures { By (Claiming fd) session.old.session result session.new.session }
{
    match session.take(alloc) {
        None => number_of(Err(Refusal::NoSession)),
        Some(mut held) => {
            let outcome = held.claim(fd);
            session.put(held);
            number_of(outcome)
        }
    }
}

/// Hands out descriptors that nobody will claim.
#[unsafe(no_mangle)]
pub extern "C" fn covretin_unclaimed(
    alloc: Global,
    session: &mut Holder,
    fds: &mut [i32],
    count: &mut usize,
) -> u32
    ensures does { By (LettingGo fds.old count.new fds.new) session.old.session result session.new.session }
    ensures untouched { result ≢ 0 → (fds.new ≡ fds.old) × (count.new ≡ count.old) }
{
    match session.take(alloc) {
        None => number_of(Err(Refusal::NoSession)),
        Some(mut held) => {
            *count = held.unclaimed(fds);
            session.put(held);
            number_of(Ok(()))
        }
    }
}

/// Nobody will claim what came.
#[unsafe(no_mangle)]
pub extern "C" fn covretin_abandon(alloc: Global, session: &mut Holder) -> u32
    ensures { By Abandoning session.old.session result session.new.session }
{
    match session.take(alloc) {
        None => number_of(Err(Refusal::NoSession)),
        Some(mut held) => {
            held.abandon();
            session.put(held);
            number_of(Ok(()))
        }
    }
}
