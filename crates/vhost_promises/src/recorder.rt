//! Callers that share both sides joined, with the log of their calls.

ghost use Rattle.std.specs.Prelude.{◌≡◌, ◌≢◌, [], IfOk, IfSome, None, Some, Ok, true, length};
ghost use Rattle.vhost_frontend_core.specs.Values.{call_of, answer_of};
ghost use Rattle.vhost_joined.specs.declared.halt.Stop.TheVariants.{Premise};
ghost use Rattle.vhost_promises.specs.Recorder.{RecordsTwo, Begins};
ghost use Rattle.vhost_recorder.specs.Share.{parts_of, count_of};
ghost use Rattle.vhost_protocol.specs.FrontendCall.{GetFeatures, SetOwner, Number};

use crate::example::Device;
use std::alloc::Global;
use std::marker::Brand;
use std::sync::Wait;
use std::sync::ledger::{Blank, Ledger};
use vhost_device::VhostUserBackendReqHandlerMut;
use vhost_dummy_backend::DummyBackendReqHandler;
use vhost_frontend_core::{FrontendAnswer, FrontendCall};
use vhost_link::MemLink;
use vhost_recorder::{Halt, Log, Receipt, Recorded, Recorder, Share};

/// Does two calls for a caller, over any device. The log has two entries more, and the receipts are those: this caller's next two
/// serials, with these calls.
pub fn records_two<D: VhostUserBackendReqHandlerMut<Link = MemLink>>(
    recorded: &mut Recorded<D>,
    caller: u32,
    first: &FrontendCall,
    second: &FrontendCall,
) -> Result<(Receipt, Receipt), Halt>
    ensures { IfOk result (λ receipts. RecordsTwo caller (call_of first.now) (call_of second.now) recorded.old.entries receipts.0 receipts.1 recorded.new.entries) }
{
    let one = recorded.step(caller, first)?;
    let two = recorded.step(caller, second)?;
    Ok((one, two))
}

/// Does a call for a caller, and looks for its receipt in the log: it is there.
pub fn finds_own<D: VhostUserBackendReqHandlerMut<Link = MemLink>>(
    recorded: &mut Recorded<D>,
    caller: u32,
    call: &FrontendCall,
) -> Result<bool, Halt>
    ensures { IfOk result (λ found. found ≡ true) }
{
    let receipt = recorded.step(caller, call)?;
    Ok(recorded.has(&receipt))
}

/// The answer of a log's first entry. Where that asked the example device for its features, it is exactly 0x40000003, however many callers
/// there were and whoever came first; unless the run stopped because an assumption failed.
pub fn first_answer(log: &Log<Device>) -> Option<&FrontendAnswer>
    ensures answer { IfSome result (λ answer. Begins log.now.entries GetFeatures → log.now.joined.stopped ≢ Some Premise → answer_of answer.now ≡ Ok (Number 0x40000003)) }
    ensures none { result ≡ None → log.now.entries ≡ [] }
{
    match log.entries().first() {
        Some(entry) => Some(entry.answer()),
        None => None,
    }
}

/// Caller 1 makes a call of a new recorder, and then caller 2, over any device. They leave a log of two entries.
fn calls_of_two<D: VhostUserBackendReqHandlerMut<Link = MemLink>, L: Ledger, R: Wait>(
    rt: &R,
    recorder: Recorder<D, L>,
    mut all: Share<L>,
    first: &FrontendCall,
    second: &FrontendCall,
) -> Result<(Log<D>, Receipt, Receipt), Halt>
    requires whole { (parts_of all ≡ L.parts) × (L.parts ≡ 3) }
    requires none { count_of all ≡ 0 }
    ensures counted { IfOk result (λ done. length done.0.entries ≡ 2) }
    ensures first { IfOk result (λ done. (done.1.caller ≡ 1) × (done.1.call ≡ call_of first.now)) }
    ensures second { IfOk result (λ done. (done.2.caller ≡ 2) × (done.2.call ≡ call_of second.now)) }
{
    let mut one = all.split(1);
    let mut two = all.split(2);
    let asked = recorder.call(rt, &mut one, first)?;
    let claimed = recorder.call(rt, &mut two, second)?;
    all.join(one);
    all.join(two);
    Ok((recorder.close(all), asked, claimed))
}

/// Caller 1 asks for the features of a new example device, and then caller 2 claims it.
fn two_callers_in<L: Ledger, R: Wait>(
    rt: &R,
    alloc: Global,
    blank: Blank,
) -> Result<(Log<Device>, Receipt, Receipt), Halt>
    requires { (blank.name ≡ L.name) × (blank.parts ≡ L.parts) × (L.parts ≡ 3) }
    ensures counted { IfOk result (λ done. length done.0.entries ≡ 2) }
    ensures first { IfOk result (λ done. (done.1.caller ≡ 1) × (done.1.call ≡ GetFeatures)) }
    ensures second { IfOk result (λ done. (done.2.caller ≡ 2) × (done.2.call ≡ SetOwner)) }
{
    let device = DummyBackendReqHandler::new(alloc, Vec::new(alloc));
    let scripts = (Vec::new(alloc), Vec::new(alloc));
    match Recorder::<Device, L>::open(blank, alloc, device, 2, 3, scripts) {
        Ok((recorder, all)) => calls_of_two(
            rt,
            recorder,
            all,
            &FrontendCall::GetFeatures,
            &FrontendCall::SetOwner,
        ),
        Err(halt) => Err(halt),
    }
}

/// Caller 1 asks for the features of a new example device, and then caller 2 claims it: a log of two entries, and the receipt of each
/// caller.
///
/// Errors are those of the calls.
pub fn two_callers<R: Wait>(rt: &R, alloc: Global) -> Result<(Log<Device>, Receipt, Receipt), Halt>
    ensures counted { IfOk result (λ done. length done.0.entries ≡ 2) }
    ensures first { IfOk result (λ done. (done.1.caller ≡ 1) × (done.1.call ≡ GetFeatures)) }
    ensures second { IfOk result (λ done. (done.2.caller ≡ 2) × (done.2.call ≡ SetOwner)) }
{
    two_callers_in::<Brand, R>(rt, alloc, Blank::new(3))
}
