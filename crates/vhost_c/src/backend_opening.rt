//! Sessions of a backend are opened and closed.

ghost use Rattle.std.specs.Prelude.{◌≡◌, None, IfOk};
ghost use Rattle.vhost_c_backend.specs.Served.{Choosing, IsNew};
ghost use Rattle.vhost_c_common.specs.ByNumber.{By};
ghost use Rattle.vhost_c_common.specs.Profile.{profile_at};
ghost use Rattle.vhost_c.specs.Backend.{OpensBackend};

use crate::backend_holder::BackendHolder;
use std::alloc::Global;
use vhost_c_backend::Served;
use vhost_c_common::{Refusal, number_of, profile_of};
use vhost_message::Error;

/// Opens a session.
#[unsafe(no_mangle)]
pub extern "C" fn covretin_backend_open(alloc: Global, backend: &mut BackendHolder) -> u32
    ensures { OpensBackend backend.old.session result backend.new.session }
{
    match backend.take(alloc) {
        Some(held) => {
            backend.put(held);
            number_of(Err(Refusal::SessionOpen))
        }
        None => match boxed(alloc) {
            Ok(made) => {
                backend.put(made);
                number_of(Ok(()))
            }
            Err(_) => number_of(Err(Refusal::Protocol(Error::OutOfMemory))),
        },
    }
}

/// A new session in a box.
fn boxed(alloc: Global) -> Result<Box<Served>, Error>
    ensures { IfOk result (λ b. IsNew b.value) }
{
    match Served::new(alloc) {
        Ok(session) => match Box::new(alloc, session) {
            Ok(made) => Ok(made),
            Err(_) => Err(Error::OutOfMemory),
        },
        Err(error) => Err(error),
    }
}

/// Whose behaviour a session has from now on: 0, that of the specification and of real frontends, as at first; 1, that of the crate
/// `vhost`.
#[unsafe(no_mangle)]
pub extern "C" fn covretin_backend_set_profile(
    alloc: Global,
    backend: &mut BackendHolder,
    profile: u32,
) -> u32
    ensures { By (Choosing (profile_at profile)) backend.old.session result backend.new.session }
{
    match backend.take(alloc) {
        None => number_of(Err(Refusal::NoSession)),
        Some(mut held) => {
            let outcome = held.choose(profile_of(profile));
            backend.put(held);
            number_of(outcome)
        }
    }
}

/// Closes a session, if there is one, and frees what it held.
#[unsafe(no_mangle)]
pub extern "C" fn covretin_backend_close(alloc: Global, backend: &mut BackendHolder)
    ensures { backend.new.session ≡ None }
{
    let _closed = backend.take(alloc);
}
