//! Sessions with a display are opened and closed.

ghost use Rattle.std.specs.Prelude.{◌≡◌, None, IfOk};
ghost use Rattle.vhost_c_channel.specs.Display.{IsNew};
ghost use Rattle.vhost_c.specs.Display.{OpensDisplay};

use crate::display_holder::DisplayHolder;
use std::alloc::Global;
use vhost_c_channel::Display;
use vhost_c_common::{Refusal, number_of};
use vhost_message::Error;

/// Opens a session.
#[unsafe(no_mangle)]
pub extern "C" fn covretin_display_open(alloc: Global, display: &mut DisplayHolder) -> u32
    ensures { OpensDisplay display.old.session result display.new.session }
{
    match display.take(alloc) {
        Some(held) => {
            display.put(held);
            number_of(Err(Refusal::SessionOpen))
        }
        None => match boxed(alloc) {
            Ok(made) => {
                display.put(made);
                number_of(Ok(()))
            }
            Err(_) => number_of(Err(Refusal::Protocol(Error::OutOfMemory))),
        },
    }
}

/// A new session in a box.
fn boxed(alloc: Global) -> Result<Box<Display>, Error>
    ensures { IfOk result (λ b. IsNew b.value) }
{
    match Display::new(alloc) {
        Ok(session) => match Box::new(alloc, session) {
            Ok(made) => Ok(made),
            Err(_) => Err(Error::OutOfMemory),
        },
        Err(error) => Err(error),
    }
}

/// Closes a session, if there is one, and frees what it held.
#[unsafe(no_mangle)]
pub extern "C" fn covretin_display_close(alloc: Global, display: &mut DisplayHolder)
    ensures { display.new.session ≡ None }
{
    let _closed = display.take(alloc);
}
