//! Any program in C, as its calls of a frontend's session: values, one after another, in any order.

ghost use Rattle.std.specs.Prelude.{◌≡◌, ◌≢◌, ◌<◌, ◌+◌, true, All, None, IfOk, IfErr, length, vec_len, vec_capacity};
ghost use Rattle.vhost_c_common.specs.ByNumber.{By};
ghost use Rattle.vhost_c.specs.Calls.{Appends, AtBoth};
ghost use Rattle.vhost_c.specs.Program.{Does, IsCalled, ReadsTo, IsSound, is_harmless, ends_none};
ghost use Rattle.vhost_c_frontend.specs.Session.{LettingGo, Sending, Stays};

use crate::answers::{
    covretin_answer_bases, covretin_answer_config, covretin_answer_fd, covretin_answer_inflight,
    covretin_answer_number, covretin_answer_shmem,
};
use crate::asks::{asked, rejected};
use crate::held::{covretin_abandon, covretin_claim, covretin_unclaimed};
use crate::holder::Holder;
use crate::moving::{
    covretin_inactive, covretin_missing, covretin_receive, covretin_take, covretin_to_send,
};
use crate::opening::{covretin_close, covretin_open};
use crate::places::{Places, ProgramAnswer, bare};
use crate::profile::covretin_set_profile;
use std::alloc::{AllocError, Global};
use vhost_frontend_core::FrontendCall;
use vhost_message::Error;

/// What a call reads, and tells at the program's places.
#[derive(Clone, Copy)]
pub enum ProgramRead {
    Missing,
    Inactive,
    Number,
    Bases,
    Config,
    Fd,
    Inflight,
    Shmem,
}

/// A call of a frontend's session that a program makes, with its arguments: each export's.
#[derive(Drop)]
pub enum ProgramCall {
    /// With a backend of at most so many queues.
    Open(u64),
    /// With the number of a profile.
    SetProfile(u32),
    /// `covretin_ask_..` or `covretin_set_hdr_flags`, whose arguments make this call.
    Ask(FrontendCall),
    /// The same, with an argument that makes no call.
    AskInvalid,
    /// The same, where there is no memory for the arguments.
    AskWithoutMemory,
    ToSend(Places),
    /// With bytes and descriptors.
    Receive(Vec<u8>, Vec<i32>),
    Take,
    /// `covretin_missing`, `covretin_inactive` or `covretin_answer_..`.
    Read(ProgramRead, Places),
    /// A descriptor.
    Claim(i32),
    Unclaimed(Places),
    Abandon,
    Close,
}

/// Makes calls, one after another, whatever each answers, and appends their answers to `answers`.
///
/// AllocError: `answers` could not grow, and no call was made.
pub fn run(
    alloc: Global,
    session: &mut Holder,
    calls: Vec<ProgramCall>,
    answers: &mut Vec<ProgramAnswer>,
) -> Result<(), AllocError>
    ensures runs { IfOk result (λ _. Appends IsCalled calls.items answers.old.items answers.new.items session.old.session session.new.session) }
    ensures memory { IfErr result (λ _. (session.new.session ≡ session.old.session) × (answers.new.items ≡ answers.old.items)) }
    ensures room { IfErr result (λ _. vec_capacity answers.old < vec_len answers.old + length calls.items) }
{
    answers.reserve(calls.len())?;
    for call in calls {
        let answer = make(alloc, session, call);
        answers.push_reserved(answer);
    }
    Ok(())
}

/// Makes a call.
fn make(alloc: Global, session: &mut Holder, call: ProgramCall) -> ProgramAnswer
    ensures { Does call result session.old.session session.new.session }
{
    match call {
        ProgramCall::Open(queues) => bare(alloc, covretin_open(alloc, session, queues)),
        ProgramCall::SetProfile(number) => bare(
            alloc,
            covretin_set_profile(alloc, session, number),
        ),
        ProgramCall::Ask(call) => bare(alloc, asked(alloc, session, call)),
        ProgramCall::AskInvalid => bare(alloc, rejected(alloc, session, Error::InvalidParam)),
        ProgramCall::AskWithoutMemory => bare(alloc, rejected(alloc, session, Error::OutOfMemory)),
        ProgramCall::ToSend(places) => to_send(alloc, session, places),
        ProgramCall::Receive(bytes, fds) => {
            let number = covretin_receive(alloc, session, &bytes, &fds);
            bare(alloc, number)
        }
        ProgramCall::Take => bare(alloc, covretin_take(alloc, session)),
        ProgramCall::Read(what, places) => read(alloc, session, what, places),
        ProgramCall::Claim(fd) => bare(alloc, covretin_claim(alloc, session, fd)),
        ProgramCall::Unclaimed(places) => unclaimed(alloc, session, places),
        ProgramCall::Abandon => bare(alloc, covretin_abandon(alloc, session)),
        ProgramCall::Close => {
            covretin_close(alloc, session);
            bare(alloc, 0)
        }
    }
}

/// Hands out a piece of what is to be sent.
fn to_send(alloc: Global, session: &mut Holder, mut places: Places) -> ProgramAnswer
    ensures sent { By (Sending result.places.bytes.items result.places.fds.items (result.places.byte_count, result.places.fd_count)) session.old.session result.number session.new.session }
    ensures held { By (λ s o s'. s'.held ≡ s.held) session.old.session result.number session.new.session }
{
    let number = covretin_to_send(
        alloc,
        session,
        &mut places.bytes,
        &mut places.fds,
        &mut places.byte_count,
        &mut places.fd_count,
    );
    ProgramAnswer { number, places }
}

/// Reads, and tells it at these places.
fn read(alloc: Global, session: &mut Holder, what: ProgramRead, mut places: Places) -> ProgramAnswer
    ensures { ReadsTo what places result.places session.old.session result.number session.new.session }
{
    let number = read_to(alloc, session, what, &mut places);
    ProgramAnswer { number, places }
}

/// The same, and answers its number.
fn read_to(alloc: Global, session: &mut Holder, what: ProgramRead, at: &mut Places) -> u32
    ensures { ReadsTo what at.old at.new session.old.session result session.new.session }
{
    match what {
        ProgramRead::Missing => {
            at.count = covretin_missing(alloc, session);
            0
        }
        ProgramRead::Inactive => {
            at.number = covretin_inactive(alloc, session);
            0
        }
        ProgramRead::Number => covretin_answer_number(alloc, session, &mut at.number),
        ProgramRead::Bases => {
            covretin_answer_bases(alloc, session, &mut at.numbers, &mut at.count)
        }
        ProgramRead::Config => {
            covretin_answer_config(alloc, session, &mut at.config, &mut at.bytes, &mut at.count)
        }
        ProgramRead::Fd => covretin_answer_fd(alloc, session, &mut at.fd),
        ProgramRead::Inflight => {
            covretin_answer_inflight(alloc, session, &mut at.inflight, &mut at.fd)
        }
        ProgramRead::Shmem => {
            covretin_answer_shmem(alloc, session, &mut at.numbers, &mut at.count)
        }
    }
}

/// Hands out descriptors that nobody will claim.
fn unclaimed(alloc: Global, session: &mut Holder, mut places: Places) -> ProgramAnswer
    ensures { By (LettingGo places.fds.items result.places.count result.places.fds.items) session.old.session result.number session.new.session }
{
    let number = covretin_unclaimed(alloc, session, &mut places.fds, &mut places.count);
    ProgramAnswer { number, places }
}

/// A session is opened, and a program makes any calls. Each is answered; and where there was no session before, and each
/// answer is harmless, the session is sound in the end, if there is one.
pub fn opens_and_runs(
    alloc: Global,
    session: &mut Holder,
    max_queue_num: u64,
    calls: Vec<ProgramCall>,
) -> Result<Vec<ProgramAnswer>, AllocError>
    ensures as_many { IfOk result (λ answers. length answers.items ≡ length calls.items) }
    ensures sound { session.old.session ≡ None → IfOk result (λ answers. All (λ a. is_harmless a.number ≡ true) answers.items → IsSound session.new.session) }
{
    let mut answers = Vec::new(alloc);
    let _opened = covretin_open(alloc, session, max_queue_num);
    run(alloc, session, calls, &mut answers)?;
    Ok(answers)
}

/// A program makes any calls, but takes nothing and doesn't close. Where each is refused, what is to be sent and remembered, what
/// is asked, what came of its answer, and the last answer are as before.
pub fn runs_in_vain(
    alloc: Global,
    session: &mut Holder,
    calls: Vec<ProgramCall>,
) -> Result<Vec<ProgramAnswer>, AllocError>
    ensures { IfOk result (λ answers. All (λ c. ends_none c ≡ true) calls.items → All (λ a. a.number ≢ 0) answers.items → AtBoth Stays session.old.session session.new.session) }
{
    let mut answers = Vec::new(alloc);
    run(alloc, session, calls, &mut answers)?;
    Ok(answers)
}
