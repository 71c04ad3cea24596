//! Worked consequences of the calls of a frontend's session: what follows of their contracts alone.

ghost use Rattle.std.specs.Prelude.{◌≡◌, ◌++◌, List, IfOk, IfErr};
ghost use Rattle.vhost_protocol.specs.Stream.{Cell};
ghost use Rattle.vhost_link.specs.declared.plain.PlainHandle.{PlainHandle};
ghost use Rattle.vhost_c_common.specs.Memory.{WantsMemory};
ghost use Rattle.vhost_c_channel_joined.specs.Clients.{acknowledgement, acknowledgements, IsHearing, Hears};

use std::alloc::Global;
use vhost_c_channel::ChannelServer;
use vhost_c_common::Refusal;
use vhost_connection::talks_law;

type Outcome<T> = std::result::Result<T, Refusal>;

/// The number of the call that a report of a changed configuration space becomes.
const CHANGED: u32 = 2;

/// A session is opened, which acknowledges requests, and so many reports of a changed configuration space come, each of which is read
/// and replied to. Each becomes that call, and exactly the bytes of so many acknowledgements are to be sent, unless memory is
/// refused: nothing else is an error, and none breaks the session before that.
pub fn hears_changes(alloc: Global, count: u32) -> Outcome<ChannelServer>
    ensures acknowledged { IfOk result (λ s. IsHearing (acknowledgements count) s) }
    ensures memory { IfErr result WantsMemory }
{
    match ChannelServer::new(alloc) {
        Ok(mut server) => {
            server.acknowledge(true);
            match hear_all(&mut server, count) {
                Ok(()) => Ok(server),
                Err(refusal) => Err(refusal),
            }
        }
        Err(error) => Err(Refusal::Protocol(error)),
    }
}

/// Hears of so many changes.
fn hear_all(server: &mut ChannelServer, count: u32) -> Outcome<()>
    ensures { (cells : List (Cell PlainHandle)) → IsHearing cells server.old → Hears (cells ++ acknowledgements count) result server.new }
{
    'changes: for _ in 0..count {
        match hear_one(server) {
            Ok(()) => {}
            Err(refusal) => return Err(refusal),
        }
    }
    Ok(())
}

/// Hears of a change.
fn hear_one(server: &mut ChannelServer) -> Outcome<()>
    ensures { (cells : List (Cell PlainHandle)) → IsHearing cells server.old → Hears (cells ++ acknowledgement) result server.new }
{
    talks_law();
    let report = [2, 0, 0, 0, 9, 0, 0, 0, 0, 0, 0, 0];
    match server.receive(&report, &[]) {
        Ok(()) => match server.next() {
            Ok(CHANGED) => server.reply(Ok(0)),
            Ok(_) => Err(Refusal::OtherCall),
            Err(refusal) => Err(refusal),
        },
        Err(refusal) => Err(refusal),
    }
}
