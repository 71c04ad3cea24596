//! Both sides joined, for whole lists of calls.

use crate::example::Example;
use bitflags::Flags;
use std::alloc::Global;
use vhost_joined::{Halt, Joined, Stop};
use vhost_link::{Cut, MemLink};
use vhost_message::{Error, VhostUserHeaderFlag, VhostUserProtocolFeatures};
use vhost_promises::{
    claims_twice, refuses_whatever_was, runs_in_lockstep, shows_no_reply, stays_in_step,
};
use vhost_recorder::{FrontendAnswer, FrontendCall};

/// SET_OWNER, which wants an acknowledgement.
static OWN: [u8; 12] = [3, 0, 0, 0, 9, 0, 0, 0, 0, 0, 0, 0];

/// The acknowledgement that it failed.
static FAILED: [u8; 20] = [3, 0, 0, 0, 5, 0, 0, 0, 8, 0, 0, 0, 1, 0, 0, 0, 0, 0, 0, 0];

/// Agrees on acknowledgements, and claims the device twice.
fn twice_claimed() -> [FrontendCall; 7] {
    [
        FrontendCall::GetFeatures,
        FrontendCall::SetOwner,
        FrontendCall::SetFeatures(0x4000_0001),
        FrontendCall::GetProtocolFeatures,
        FrontendCall::SetProtocolFeatures(VhostUserProtocolFeatures::REPLY_ACK),
        FrontendCall::SetHdrFlags(VhostUserHeaderFlag::NEED_REPLY),
        FrontendCall::SetOwner,
    ]
}

/// Whether these are as many answers as that has, the features first and the refusal last.
fn are_told(answers: &[FrontendAnswer]) -> bool {
    let is_first = matches!(answers.first(), Some(FrontendAnswer::Number(0x4000_0003)));
    let last = answers.last();
    let is_last = matches!(
        last,
        Some(FrontendAnswer::Failed(Error::BackendInternalError))
    );
    answers.len() == 7 && is_first && is_last
}

/// Whether the last claim was acknowledged as failed, and both sides are in step.
fn are_in_step<D: Example>(joined: &Joined<D>) -> [bool; 3] {
    [
        joined.last_request().0 == OWN.as_slice(),
        joined.last_reply().0 == FAILED.as_slice(),
        joined.stopped().is_none(),
    ]
}

/// Whether a ring that is not there is refused, and nothing is written.
fn no_ring<D: Example>(joined: &mut Joined<D>) -> Option<[bool; 2]> {
    let answer = refuses_whatever_was(joined, &FrontendCall::SetVringNum(2, 1)).ok()?;
    let is_refused = matches!(answer, FrontendAnswer::Failed(Error::InvalidParam));
    Some([is_refused, joined.last_request().0.is_empty()])
}

/// Whether a claim without an acknowledgement seems to succeed, and nothing is done after it.
fn silent_claim<D: Example>(alloc: Global, joined: &mut Joined<D>) -> [bool; 3] {
    let calls = [
        FrontendCall::SetHdrFlags(VhostUserHeaderFlag::empty()),
        FrontendCall::SetOwner,
        FrontendCall::GetFeatures,
    ];
    let (answers, ended) = stays_in_step(alloc, joined, &calls);
    [
        matches!(
            answers.as_slice(),
            [FrontendAnswer::Done, FrontendAnswer::Done]
        ),
        matches!(ended, Err(Halt::Stopped)),
        matches!(joined.stopped(), Some(Stop::Table)),
    ]
}

/// What a list of calls was answered, and then more of the same sides.
#[derive(Clone, Copy, Debug, PartialEq, Eq)]
struct Seen {
    told: bool,
    in_step: [bool; 3],
    no_ring: [bool; 2],
    silent: [bool; 3],
}

/// More of the same sides, where this is whether the list was answered.
fn see<D: Example>(alloc: Global, joined: &mut Joined<D>, told: bool) -> Option<Seen> {
    let in_step = are_in_step(joined);
    let no_ring = no_ring(joined)?;
    Some(Seen {
        told,
        in_step,
        no_ring,
        silent: silent_claim(alloc, joined),
    })
}

fn seen_over<D: Example>(alloc: Global) -> Option<Seen> {
    let scripts = (Vec::new(alloc), Vec::new(alloc));
    let (device, calls) = (D::fresh(alloc), twice_claimed());
    let mut answers = Vec::new(alloc);
    match runs_in_lockstep(alloc, device, 2, 3, scripts, &calls, &mut answers) {
        Ok((mut joined, ended)) => {
            let told = ended.is_ok() && are_told(&answers);
            see(alloc, &mut joined, told)
        }
        Err(_) => None,
    }
}

/// Whether a call fails for which no reply came.
fn fails_in_silence<D: Example>(joined: &mut Joined<D>) -> Option<bool> {
    let answer = shows_no_reply(joined, &FrontendCall::GetFeatures).ok()?;
    let is_failure = matches!(answer, FrontendAnswer::Failed(_));
    Some(is_failure && joined.last_reply().0.is_empty())
}

/// Whether no reply is shown where the handler's link goes by this script.
fn is_silent<D: Example>(alloc: Global, script: Vec<Cut>) -> Option<bool> {
    let scripts = (Vec::new(alloc), script);
    match Joined::new(alloc, D::fresh(alloc), 2, 3, scripts) {
        Ok(mut joined) => fails_in_silence(&mut joined),
        Err(_) => None,
    }
}

/// The same of a link that fails at once.
fn silent_at_once<D: Example>(alloc: Global) -> Option<bool> {
    let script = vec![in alloc; Cut::Fault(5)].ok()?;
    is_silent::<D>(alloc, script)
}

/// How many calls were answered, and whether the run stopped by the table.
fn claimed(alloc: Global) -> Option<(usize, bool)> {
    let mut answers = Vec::new(alloc);
    match claims_twice(alloc, Vec::new(alloc), &mut answers) {
        Ok(joined) => Some((answers.len(), matches!(joined.stopped(), Some(Stop::Table)))),
        Err(_) => None,
    }
}

pub(crate) fn hold<D: Example>(alloc: Global) -> [bool; 3] {
    let all = Seen {
        told: true,
        in_step: [true; 3],
        no_ring: [true; 2],
        silent: [true; 3],
    };
    [
        seen_over::<D>(alloc) == Some(all),
        silent_at_once::<D>(alloc) == Some(true),
        claimed(alloc) == Some((3, true)),
    ]
}
