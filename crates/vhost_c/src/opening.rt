//! Sessions are opened and closed.

ghost use Rattle.std.specs.Prelude.{◌≡◌, None, IfOk};
ghost use Rattle.vhost_c_frontend.specs.Session.{IsNew, Opens};

use crate::holder::Holder;
use std::alloc::Global;
use vhost_c_common::{Refusal, number_of};
use vhost_c_frontend::Session;
use vhost_message::Error;

/// Opens a session with a backend of at most so many queues.
#[unsafe(no_mangle)]
pub extern "C" fn covretin_open(alloc: Global, session: &mut Holder, max_queue_num: u64) -> u32
    ensures { Opens max_queue_num session.old.session result session.new.session }
{
    match session.take(alloc) {
        Some(held) => {
            session.put(held);
            number_of(Err(Refusal::SessionOpen))
        }
        None => match boxed(alloc, max_queue_num) {
            Ok(made) => {
                session.put(made);
                number_of(Ok(()))
            }
            Err(_) => number_of(Err(Refusal::Protocol(Error::OutOfMemory))),
        },
    }
}

/// A new session in a box.
fn boxed(alloc: Global, max_queue_num: u64) -> Result<Box<Session>, Error>
    ensures { IfOk result (λ b. IsNew max_queue_num b.value) }
{
    match Session::new(alloc, max_queue_num) {
        Ok(session) => match Box::new(alloc, session) {
            Ok(made) => Ok(made),
            Err(_) => Err(Error::OutOfMemory),
        },
        Err(error) => Err(error),
    }
}

/// Closes a session, if there is one, and frees what it held.
#[unsafe(no_mangle)]
pub extern "C" fn covretin_close(alloc: Global, session: &mut Holder)
    ensures { session.new.session ≡ None }
{
    let _closed = session.take(alloc);
}
