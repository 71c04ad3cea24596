//! Both sides joined over the example device, with exact answers.

ghost use Rattle.std.specs.Prelude.{◌≡◌, ◌≢◌, ◌++◌, [], ◌∷◌, Some, IfOk, List};
ghost use Rattle.vhost_dummy_backend.specs.Dummy.{fresh};
ghost use Rattle.vhost_frontend_core.specs.Values.{answer_of};
ghost use Rattle.vhost_frontend_core.specs.declared.values.answer.FrontendAnswer.{FrontendAnswer};
ghost use Rattle.vhost_joined.specs.declared.halt.Stop.TheVariants.{Premise};
ghost use Rattle.vhost_promises.specs.Example.{Claims, RefusesAgain};

use std::alloc::Global;
use vhost_dummy_backend::DummyBackendReqHandler;
use vhost_frontend_core::{FrontendAnswer, FrontendCall};
use vhost_joined::{Halt, Joined};
use vhost_link::{MemLink, PlainHandle};

/// The example device, over links in memory.
pub type Device = DummyBackendReqHandler<MemLink>;

/// Joins two new sides over a new example device, asks for its features, and claims it. The frontend reads features 0x40000003 and
/// owns the device, and the last request is that of `set_owner`, byte by byte.
pub fn claims_device(
    alloc: Global,
    spare: Vec<PlainHandle>,
    answers: &mut Vec<FrontendAnswer>,
) -> Result<Joined<Device>, Halt>
    ensures { IfOk result (λ joined. joined.stopped ≢ Some Premise
        → (done : List FrontendAnswer) × (answers.new.items ≡ answers.old.items ++ done) × Claims (fresh alloc spare.items) done joined) }
{
    let device = DummyBackendReqHandler::new(alloc, spare);
    let scripts = (Vec::new(alloc), Vec::new(alloc));
    let mut joined = Joined::new(alloc, device, 2, 3, scripts)?;
    let calls = [FrontendCall::GetFeatures, FrontendCall::SetOwner];
    joined.run(&calls, answers)?;
    Ok(joined)
}

/// Claims it once more. The device refuses that without a reply, so the frontend can't know: its call succeeds, nothing came back, and
/// the run has stopped there.
pub fn claims_twice(
    alloc: Global,
    spare: Vec<PlainHandle>,
    answers: &mut Vec<FrontendAnswer>,
) -> Result<Joined<Device>, Halt>
    ensures { IfOk result (λ joined. joined.stopped ≢ Some Premise → (done : List FrontendAnswer) × (last : FrontendAnswer)
        × (answers.new.items ≡ (answers.old.items ++ done) ++ last ∷ []) × RefusesAgain last joined) }
{
    let mut joined = claims_device(alloc, spare, answers)?;
    let answer = joined.step(&FrontendCall::SetOwner)?;
    match answers.push(answer) {
        Ok(()) => Ok(joined),
        Err(_) => Err(Halt::OutOfMemory),
    }
}
