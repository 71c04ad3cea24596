//! Sessions of the backend channel for a frontend are opened and closed, and told whether they reply.

ghost use Rattle.std.specs.Prelude.{◌≡◌, None, IfOk};
ghost use Rattle.vhost_c_common.specs.ByNumber.{By};
ghost use Rattle.vhost_c_channel.specs.Serving.{IsNew};
ghost use Rattle.vhost_c.specs.Channel.{OpensServer, Acknowledging};

use crate::channel_server_holder::ChannelServerHolder;
use std::alloc::Global;
use vhost_c_channel::ChannelServer;
use vhost_c_common::{Refusal, number_of};
use vhost_message::Error;

/// Opens a session.
#[unsafe(no_mangle)]
pub extern "C" fn covretin_channel_server_open(
    alloc: Global,
    server: &mut ChannelServerHolder,
) -> u32
    ensures { OpensServer server.old.session result server.new.session }
{
    match server.take(alloc) {
        Some(held) => {
            server.put(held);
            number_of(Err(Refusal::SessionOpen))
        }
        None => match boxed(alloc) {
            Ok(made) => {
                server.put(made);
                number_of(Ok(()))
            }
            Err(_) => number_of(Err(Refusal::Protocol(Error::OutOfMemory))),
        },
    }
}

/// A new session in a box.
fn boxed(alloc: Global) -> Result<Box<ChannelServer>, Error>
    ensures { IfOk result (λ b. IsNew b.value) }
{
    match ChannelServer::new(alloc) {
        Ok(session) => match Box::new(alloc, session) {
            Ok(made) => Ok(made),
            Err(_) => Err(Error::OutOfMemory),
        },
        Err(error) => Err(error),
    }
}

/// Closes a session, if there is one, and frees what it held.
#[unsafe(no_mangle)]
pub extern "C" fn covretin_channel_server_close(alloc: Global, server: &mut ChannelServerHolder)
    ensures { server.new.session ≡ None }
{
    let _closed = server.take(alloc);
}

/// Whether requests that ask for it are replied to.
#[unsafe(no_mangle)]
pub extern "C" fn covretin_channel_server_set_reply_ack(
    alloc: Global,
    server: &mut ChannelServerHolder,
    on: bool,
) -> u32
    ensures { By (Acknowledging on) server.old.session result server.new.session }
{
    match server.take(alloc) {
        None => number_of(Err(Refusal::NoSession)),
        Some(mut held) => {
            held.acknowledge(on);
            server.put(held);
            number_of(Ok(()))
        }
    }
}
