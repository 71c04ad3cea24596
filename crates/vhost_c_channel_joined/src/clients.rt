//! Worked consequences of the calls of a session: what follows of their contracts alone.

ghost use Rattle.std.specs.Prelude.{◌≡◌, ◌++◌, List, IfOk, IfErr};
ghost use Rattle.vhost_protocol.specs.Stream.{Cell};
ghost use Rattle.vhost_link.specs.declared.plain.PlainHandle.{PlainHandle};
ghost use Rattle.vhost_c_common.specs.Memory.{WantsMemory};
ghost use Rattle.vhost_c_channel_joined.specs.Clients.{report, reports, IsReporting, Reports};

use std::alloc::Global;
use vhost_backend_req::ReverseCall;
use vhost_c_channel::{Channel, Feature};
use vhost_c_common::Refusal;

type Outcome<T> = std::result::Result<T, Refusal>;

/// A session is opened, and reports so many changes of the configuration space, which was agreed on. Exactly the bytes of so many
/// requests are to be sent, unless memory is refused: nothing else is an error, and none breaks the session before that.
pub fn reports_changes(alloc: Global, count: u32) -> Outcome<Channel>
    ensures sent { IfOk result (λ s. IsReporting (reports count) s) }
    ensures memory { IfErr result WantsMemory }
{
    match Channel::new(alloc) {
        Ok(mut channel) => {
            channel.agree(Feature::ConfigChange, true);
            match report_all(&mut channel, count) {
                Ok(()) => Ok(channel),
                Err(refusal) => Err(refusal),
            }
        }
        Err(error) => Err(Refusal::Protocol(error)),
    }
}

/// Reports so many changes.
fn report_all(channel: &mut Channel, count: u32) -> Outcome<()>
    ensures { (cells : List (Cell PlainHandle)) → IsReporting cells channel.old → Reports (cells ++ reports count) result channel.new }
{
    'reports: for _ in 0..count {
        match report_one(channel) {
            Ok(()) => {}
            Err(refusal) => return Err(refusal),
        }
    }
    Ok(())
}

/// Reports a change.
fn report_one(channel: &mut Channel) -> Outcome<()>
    ensures { (cells : List (Cell PlainHandle)) → IsReporting cells channel.old → Reports (cells ++ report) result channel.new }
{
    match channel.ask(&ReverseCall::HandleConfigChange) {
        Ok(()) => channel.take(),
        Err(refusal) => Err(refusal),
    }
}
