//! Calls that are kept: each is sent, and its answer received, as the call that it lends.

ghost use Rattle.std.specs.Prelude.{◌≡◌, IfOk, IfSome};
ghost use Rattle.vhost_link.specs.Mem.{event};
ghost use Rattle.vhost_frontend_core.specs.Frontend.{MayAsk, IsAwaited, awaits};
ghost use Rattle.vhost_frontend_core.specs.ValueHalves.{IsProper, AsksCall, TakesValue, TakesWell, WantsFor, awaited_after};
ghost use Rattle.vhost_frontend_core.specs.Kept.{IsKeptFor};
ghost use Rattle.vhost_frontend_core.specs.Values.{call_of};

use crate::answer::{Answer, done};
use crate::asked::Sent;
use crate::internal::FrontendInternal;
use crate::regions::Regions;
use crate::values::answer::FrontendAnswer;
use crate::values::call::FrontendCall;
use bitflags::Flags;
use vhost_backend::{VhostUserDirtyLogRegion, VhostUserMemoryRegionInfo};
use vhost_link::{MemLink, PlainHandle};
use vhost_message::{Result, VhostUserHeaderFlag};

/// Sends the request of a call. None: nothing is sent for the call, and it was done.
///
/// Errors are those of the call that it lends.
pub fn ask(frontend: &mut FrontendInternal<MemLink>, call: &FrontendCall) -> Result<Option<Sent>>
    requires { MayAsk frontend.old }
    ensures asked { AsksCall (call_of call.now) frontend.old result frontend.new }
    ensures awaited { awaits frontend.new ≡ awaited_after result (awaits frontend.old) }
    ensures kept { IfOk result (λ asked. IfSome asked (λ sent. IsKeptFor (call_of call.now) sent.awaited sent.kept)) }
    ensures proper { IfOk result (λ asked. IfSome asked (λ sent. IsProper (call_of call.now))) }
    ensures memory { WantsFor (call_of call.now) frontend.old result frontend.new }
{
    names_regions(None, None, None);
    match call {
        FrontendCall::SetHdrFlags(flags) => {
            frontend.set_hdr_flags(VhostUserHeaderFlag::from_bits_retain(flags.bits()));
            Ok(None)
        }
        _ => match frontend.ask(&call.lent()) {
            Ok(sent) => Ok(Some(sent)),
            Err(error) => Err(error),
        },
    }
}

/// Receives the answer, of what [`ask`](crate::ask) answered for the same call; of a call that is only acknowledged, its
/// acknowledgement.
///
/// Errors are those of the call that it lends.
pub fn take(
    frontend: &mut FrontendInternal<MemLink>,
    call: &FrontendCall,
    sent: Sent,
) -> FrontendAnswer
    requires { IsAwaited sent frontend.old }
    ensures { TakesWell (call_of call.now) sent frontend.old result frontend.new }
{
    let answer = take_value(frontend, call, sent);
    FrontendAnswer::of(answer)
}

/// The same, before the answer is kept.
fn take_value(
    frontend: &mut FrontendInternal<MemLink>,
    call: &FrontendCall,
    sent: Sent,
) -> Answer<PlainHandle>
    requires { IsAwaited sent frontend.old }
    ensures { TakesValue event (call_of call.now) sent frontend.old result frontend.new }
{
    names_regions(None, None, None);
    match call {
        FrontendCall::SetHdrFlags(_) => done(frontend.take_done(sent)),
        _ => frontend.take(&call.lent(), sent),
    }
}

/// Names the types with a descriptor that a call holds: where one is lent over links in memory, the checker has to find them named.
fn names_regions(
    _table: Option<Regions<'_, PlainHandle>>,
    _region: Option<VhostUserMemoryRegionInfo<'_, PlainHandle>>,
    _log: Option<VhostUserDirtyLogRegion<'_, PlainHandle>>,
) {}
