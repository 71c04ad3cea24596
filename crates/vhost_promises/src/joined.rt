//! Both sides joined.

ghost use Rattle.std.specs.Prelude.{◌≡◌, ◌≢◌, ◌++◌, [], None, Some, Err, IfOk, Bool, List, true};
ghost use Rattle.vhost_joined.specs.declared.halt.Stop.TheVariants.{Premise};
ghost use Rattle.vhost_joined.specs.Joined.{IsReady, Offers};
ghost use Rattle.vhost_joined.specs.Lockstep.{ArePlain, AreOffered, Lockstep};
ghost use Rattle.vhost_frontend_core.specs.Values.{answer_of, call_of};
ghost use Rattle.vhost_joined.specs.Text.{no_text};
ghost use Rattle.vhost_promises.specs.Joined.{AnswersFresh, AnswersFreshBack, FailsAtOnce, WantsMemory};
ghost use Rattle.vhost_protocol.specs.Ask.{Refuses, ask};
ghost use Rattle.vhost_protocol.specs.Error.{Error};
ghost use Rattle.vhost_device.specs.Reached.{by_trait};

use std::alloc::Global;
use vhost_device::VhostUserBackendReqHandlerMut;
use vhost_frontend_core::{FrontendAnswer, FrontendCall};
use vhost_frontend_req_handler::VhostUserFrontendReqHandlerMut;
use vhost_joined::{Halt, Joined};
use vhost_joined_reverse::{JoinedReverse, ReverseCall};
use vhost_link::{Cut, MemLink, PlainHandle};
use vhost_message::HandlerResult;

/// Joins two new sides over a device, and does these calls. Unless the run stopped because an assumption failed, the calls that were
/// answered are a joined run of the protocol from two fresh sessions to those of now, and the device moved by its own relation.
///
/// This is so where all features that the device offers agree on protocol features (`bit`), and no request is sent as a reply; the links'
/// calls go as the scripts say. Where both scripts are empty, what failed is an allocation: of a link, or behind the handler. The run is
/// kept where it halts, with the halt: what was answered until then stands.
pub fn runs_in_lockstep<D: VhostUserBackendReqHandlerMut<Link = MemLink>>(
    alloc: Global,
    device: D,
    max_queue_num: u64,
    budget: u32,
    scripts: (Vec<Cut>, Vec<Cut>),
    calls: &[FrontendCall],
    answers: &mut Vec<FrontendAnswer>,
) -> Result<(Joined<D>, Result<(), Halt>), Halt>
    ensures run { IfOk result (λ kept. (bit : Bool) → Offers (by_trait D.gives) bit → ArePlain calls.now → kept.0.stopped ≢ Some Premise
        → AnswersFresh (by_trait D.gives) max_queue_num device calls.now answers.old.items answers.new.items kept.0) }
    ensures memory { IfOk result (λ kept. (bit : Bool) → Offers (by_trait D.gives) bit → ArePlain calls.now → scripts.0.items ≡ [] → scripts.1.items ≡ [] → kept.0.stopped ≡ Some Premise
        → WantsMemory (by_trait D.gives) kept.0) }
{
    let mut joined = Joined::new(alloc, device, max_queue_num, budget, scripts)?;
    let ended = joined.run(calls, answers);
    Ok((joined, ended))
}

/// Does these calls of sides that are in step: they are in lockstep, or they were up to the last answered call, which violated an
/// assumption. Of the device it is enough that all features which it answered here agree on protocol features. The answers are kept where
/// the run halts, with the halt.
pub fn stays_in_step<D: VhostUserBackendReqHandlerMut<Link = MemLink>>(
    alloc: Global,
    joined: &mut Joined<D>,
    calls: &[FrontendCall],
) -> (Vec<FrontendAnswer>, Result<(), Halt>)
    ensures { (bit : Bool) → AreOffered bit calls.now result.0.items → IsReady bit joined.old → joined.old.stopped ≡ None → ArePlain calls.now
        → Lockstep (by_trait D.gives) bit joined.old calls.now result.0.items joined.new }
{
    let mut answers = Vec::new(alloc);
    let ended = joined.run(calls, &mut answers);
    (answers, ended)
}

/// Does one call which its tests refuse: whatever was before, and however requests are sent, the answer is that refusal, and nothing
/// else changed but that no message was written last, and that both sides have their descriptor buffers.
pub fn refuses_whatever_was<D: VhostUserBackendReqHandlerMut<Link = MemLink>>(
    joined: &mut Joined<D>,
    call: &FrontendCall,
) -> Result<FrontendAnswer, Halt>
    ensures { (e : Error) → ask joined.old.frontend (call_of call.now) ≡ Refuses e
        → IfOk result (λ answer. (answer_of answer ≡ Err e) × (joined.new ≡ record joined.old { lists = true; request = no_text; reply = no_text })) }
{
    joined.step(call)
}

/// Does one call where the handler's link fails at once for good, and nothing is on the way: no reply is recorded, for none was written.
pub fn shows_no_reply<D: VhostUserBackendReqHandlerMut<Link = MemLink>>(
    joined: &mut Joined<D>,
    call: &FrontendCall,
) -> Result<FrontendAnswer, Halt>
    ensures { FailsAtOnce joined.old.serving → joined.old.to_handler ≡ [] → IfOk result (λ _. joined.new.reply ≡ no_text) }
{
    joined.step(call)
}

/// The same of both sides of the backend channel, over every device and every list of calls and flags.
pub fn runs_back_in_lockstep<D: VhostUserFrontendReqHandlerMut<Handle = PlainHandle>>(
    alloc: Global,
    device: D,
    budget: u32,
    scripts: (Vec<Cut>, Vec<Cut>),
    calls: &[ReverseCall],
    answers: &mut Vec<HandlerResult<u64>>,
) -> Result<(JoinedReverse<D>, Result<(), Halt>), Halt>
    ensures { IfOk result (λ kept. kept.0.stopped ≢ Some Premise → AnswersFreshBack D.gives device calls.now answers.old.items answers.new.items kept.0) }
{
    let mut joined = JoinedReverse::new(alloc, device, budget, scripts)?;
    let ended = joined.run(calls, answers);
    Ok((joined, ended))
}
