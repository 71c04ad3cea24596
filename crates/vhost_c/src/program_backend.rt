//! Any program in C, as its calls of a backend's session: values, one after another, in any order.

ghost use Rattle.std.specs.Prelude.{◌≡◌, ◌≢◌, ◌<◌, ◌+◌, true, All, None, IfOk, IfErr, length, vec_len, vec_capacity};
ghost use Rattle.vhost_c_common.specs.ByNumber.{By};
ghost use Rattle.vhost_c_backend.specs.Served.{LettingGo, Sending};
ghost use Rattle.vhost_c_backend.specs.Serving.{Beginning};
ghost use Rattle.vhost_c.specs.Calls.{Appends, IsMade, Runs};
ghost use Rattle.vhost_c.specs.ProgramBackend.{Does, IsCalled, IsSound, ReadsTo, RepliesBy, is_harmless};

use crate::backend_arguments::{
    covretin_call_config, covretin_call_fd, covretin_call_fds, covretin_call_inflight,
    covretin_call_log, covretin_call_name, covretin_call_number, covretin_call_other,
    covretin_call_regions, covretin_call_ring, covretin_call_ring_fd, covretin_call_transfer,
    covretin_call_vring,
};
use crate::backend_held::{
    covretin_backend_abandon, covretin_backend_claim, covretin_backend_unclaimed,
};
use crate::backend_holder::BackendHolder;
use crate::backend_moving::{
    covretin_backend_end, covretin_backend_ended, covretin_backend_inactive,
    covretin_backend_missing, covretin_backend_next, covretin_backend_receive,
    covretin_backend_to_send,
};
use crate::backend_opening::{
    covretin_backend_close, covretin_backend_open, covretin_backend_set_profile,
};
use crate::backend_replies::{
    covretin_reply_bases, covretin_reply_config, covretin_reply_done, covretin_reply_fd,
    covretin_reply_inflight, covretin_reply_number, covretin_reply_refused, covretin_reply_ring,
    covretin_reply_shmem,
};
use crate::places::{Places, ProgramAnswer, bare};
use std::alloc::{AllocError, Global};
use vhost_c_common::Inflight;
use vhost_connection::talks_law;

/// What a call reads, and tells at the program's places: of the session, or an argument of the call that is to be replied to.
#[derive(Clone, Copy)]
pub enum BackendRead {
    Missing,
    Inactive,
    Ended,
    Number,
    Ring,
    Vring,
    RingFd,
    Regions,
    Config,
    Fd,
    Name,
    Inflight,
    Transfer,
    Log,
    Other,
    Fds,
}

/// What a device replies, with each export's arguments.
#[derive(Drop)]
pub enum BackendReply {
    Done,
    Refused,
    Number(u64),
    Ring(u32, u32),
    Bases(Vec<u64>),
    Config(Vec<u8>),
    Fd(i32),
    Inflight(Inflight, i32),
    /// The sizes of the regions of shared memory, and how many there are.
    Shmem(Vec<u64>, u32),
}

/// A call of a backend's session that a program makes, with its arguments: each export's.
#[derive(Drop)]
pub enum BackendCall {
    Open,
    /// With the number of a profile.
    SetProfile(u32),
    /// With bytes and descriptors.
    Receive(Vec<u8>, Vec<i32>),
    End,
    ToSend(Places),
    Next(Places),
    /// `covretin_backend_missing`, `.._inactive`, `.._ended` or `covretin_call_..`.
    Read(BackendRead, Places),
    /// `covretin_reply_..`.
    Reply(BackendReply),
    /// A descriptor.
    Claim(i32),
    Unclaimed(Places),
    Abandon,
    Close,
}

/// Makes calls, one after another, whatever each answers, and appends their answers to `answers`.
///
/// AllocError: `answers` could not grow, and no call was made.
pub fn run(
    alloc: Global,
    backend: &mut BackendHolder,
    calls: Vec<BackendCall>,
    answers: &mut Vec<ProgramAnswer>,
) -> Result<(), AllocError>
    ensures runs { IfOk result (λ _. Appends Does calls.items answers.old.items answers.new.items backend.old.session backend.new.session) }
    ensures called { IfOk result (λ _. IsMade Does backend.old.session → Appends IsCalled calls.items answers.old.items answers.new.items backend.old.session backend.new.session) }
    ensures memory { IfErr result (λ _. (backend.new.session ≡ backend.old.session) × (answers.new.items ≡ answers.old.items)) }
    ensures room { IfErr result (λ _. vec_capacity answers.old < vec_len answers.old + length calls.items) }
{
    answers.reserve(calls.len())?;
    talks_law();
    for call in calls {
        let answer = make(alloc, backend, call);
        answers.push_reserved(answer);
    }
    Ok(())
}

/// Makes a call.
fn make(alloc: Global, backend: &mut BackendHolder, call: BackendCall) -> ProgramAnswer
    ensures { Does call result backend.old.session backend.new.session }
{
    match call {
        BackendCall::Open => bare(alloc, covretin_backend_open(alloc, backend)),
        BackendCall::SetProfile(number) => bare(
            alloc,
            covretin_backend_set_profile(alloc, backend, number),
        ),
        BackendCall::Receive(bytes, fds) => {
            let number = covretin_backend_receive(alloc, backend, &bytes, &fds);
            bare(alloc, number)
        }
        BackendCall::End => bare(alloc, covretin_backend_end(alloc, backend)),
        BackendCall::ToSend(places) => to_send(alloc, backend, places),
        BackendCall::Next(places) => next(alloc, backend, places),
        BackendCall::Read(what, places) => read(alloc, backend, what, places),
        BackendCall::Reply(reply) => bare(alloc, replied(alloc, backend, reply)),
        BackendCall::Claim(fd) => bare(alloc, covretin_backend_claim(alloc, backend, fd)),
        BackendCall::Unclaimed(places) => unclaimed(alloc, backend, places),
        BackendCall::Abandon => bare(alloc, covretin_backend_abandon(alloc, backend)),
        BackendCall::Close => {
            covretin_backend_close(alloc, backend);
            bare(alloc, 0)
        }
    }
}

/// Hands out a piece of what is to be sent.
fn to_send(alloc: Global, backend: &mut BackendHolder, mut places: Places) -> ProgramAnswer
    ensures sent { By (Sending result.places.bytes.items result.places.fds.items (result.places.byte_count, result.places.fd_count)) backend.old.session result.number backend.new.session }
    ensures held { By (λ s o s'. s'.held ≡ s.held) backend.old.session result.number backend.new.session }
{
    let number = covretin_backend_to_send(
        alloc,
        backend,
        &mut places.bytes,
        &mut places.fds,
        &mut places.byte_count,
        &mut places.fd_count,
    );
    ProgramAnswer { number, places }
}

/// Reads the next request, and tells the number of its call.
fn next(alloc: Global, backend: &mut BackendHolder, mut places: Places) -> ProgramAnswer
    ensures { By (Beginning result.places.code) backend.old.session result.number backend.new.session }
{
    let number = covretin_backend_next(alloc, backend, &mut places.code);
    ProgramAnswer { number, places }
}

/// Reads, and tells it at these places.
fn read(
    alloc: Global,
    backend: &mut BackendHolder,
    what: BackendRead,
    mut places: Places,
) -> ProgramAnswer
    ensures { ReadsTo what places result.places backend.old.session result.number backend.new.session }
{
    let number = read_to(alloc, backend, what, &mut places);
    ProgramAnswer { number, places }
}

/// The same, and answers its number.
fn read_to(alloc: Global, backend: &mut BackendHolder, what: BackendRead, at: &mut Places) -> u32
    ensures { ReadsTo what at.old at.new backend.old.session result backend.new.session }
{
    match what {
        BackendRead::Missing => {
            at.count = covretin_backend_missing(alloc, backend);
            0
        }
        BackendRead::Inactive => {
            at.number = covretin_backend_inactive(alloc, backend);
            0
        }
        BackendRead::Ended => {
            at.value = covretin_backend_ended(alloc, backend);
            0
        }
        BackendRead::Number => covretin_call_number(alloc, backend, &mut at.number),
        BackendRead::Ring => { covretin_call_ring(alloc, backend, &mut at.index, &mut at.value) }
        BackendRead::Vring => { covretin_call_vring(alloc, backend, &mut at.index, &mut at.ring) }
        BackendRead::RingFd => { covretin_call_ring_fd(alloc, backend, &mut at.index, &mut at.fd) }
        BackendRead::Regions => {
            covretin_call_regions(
                alloc,
                backend,
                &mut at.regions,
                &mut at.count,
                &mut at.listening,
            )
        }
        BackendRead::Config => {
            covretin_call_config(alloc, backend, &mut at.config, &mut at.bytes, &mut at.count)
        }
        BackendRead::Fd => covretin_call_fd(alloc, backend, &mut at.fd),
        BackendRead::Name => covretin_call_name(alloc, backend, &mut at.bytes),
        BackendRead::Inflight => {
            covretin_call_inflight(alloc, backend, &mut at.inflight, &mut at.fd)
        }
        BackendRead::Transfer => {
            covretin_call_transfer(alloc, backend, &mut at.direction, &mut at.phase, &mut at.fd)
        }
        BackendRead::Log => covretin_call_log(alloc, backend, &mut at.region),
        BackendRead::Other => {
            covretin_call_other(alloc, backend, &mut at.code, &mut at.bytes, &mut at.count)
        }
        BackendRead::Fds => { covretin_call_fds(alloc, backend, &mut at.fds, &mut at.count) }
    }
}

/// Replies, and answers its number.
fn replied(alloc: Global, backend: &mut BackendHolder, reply: BackendReply) -> u32
    ensures { RepliesBy reply backend.old.session result backend.new.session }
{
    match reply {
        BackendReply::Done => covretin_reply_done(alloc, backend),
        BackendReply::Refused => covretin_reply_refused(alloc, backend),
        BackendReply::Number(number) => covretin_reply_number(alloc, backend, number),
        BackendReply::Ring(index, number) => covretin_reply_ring(alloc, backend, index, number),
        BackendReply::Bases(bases) => covretin_reply_bases(alloc, backend, &bases),
        BackendReply::Config(bytes) => covretin_reply_config(alloc, backend, &bytes),
        BackendReply::Fd(fd) => covretin_reply_fd(alloc, backend, fd),
        BackendReply::Inflight(area, fd) => covretin_reply_inflight(alloc, backend, &area, fd),
        BackendReply::Shmem(sizes, count) => covretin_reply_shmem(alloc, backend, &sizes, count),
    }
}

/// Hands out descriptors that nobody will claim.
fn unclaimed(alloc: Global, backend: &mut BackendHolder, mut places: Places) -> ProgramAnswer
    ensures { By (LettingGo places.fds.items result.places.count result.places.fds.items) backend.old.session result.number backend.new.session }
{
    let number = covretin_backend_unclaimed(alloc, backend, &mut places.fds, &mut places.count);
    ProgramAnswer { number, places }
}

/// A program makes any calls, where there is no session before. Each is answered by 0 or one of its refusals; and where each answer
/// is harmless, the session is sound in the end, if there is one.
pub fn runs_from_none(
    alloc: Global,
    backend: &mut BackendHolder,
    calls: Vec<BackendCall>,
) -> Result<Vec<ProgramAnswer>, AllocError>
    ensures as_many { IfOk result (λ answers. length answers.items ≡ length calls.items) }
    ensures called { backend.old.session ≡ None → IfOk result (λ answers. Runs IsCalled calls.items answers.items backend.old.session backend.new.session) }
    ensures sound { backend.old.session ≡ None → IfOk result (λ answers. All (λ a. is_harmless a.number ≡ true) answers.items → IsSound backend.new.session) }
{
    let mut answers = Vec::new(alloc);
    run(alloc, backend, calls, &mut answers)?;
    Ok(answers)
}
