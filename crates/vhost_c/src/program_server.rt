//! Any program in C, as its calls of a frontend's session of the backend channel: values, one after another, in any order.

ghost use Rattle.std.specs.Prelude.{◌≡◌, ◌<◌, ◌+◌, true, All, None, IfOk, IfErr, length, vec_len, vec_capacity};
ghost use Rattle.vhost_c_common.specs.ByNumber.{By};
ghost use Rattle.vhost_c_channel.specs.Serving.{Beginning, LettingGo, Sending};
ghost use Rattle.vhost_c.specs.Calls.{Appends, IsMade, Runs};
ghost use Rattle.vhost_c.specs.ProgramServer.{Does, IsCalled, IsSound, ReadsTo, is_harmless};

use crate::channel_arguments::{
    covretin_channel_call_fd, covretin_channel_call_mmap, covretin_channel_call_name,
};
use crate::channel_replies::{covretin_channel_reply_errno, covretin_channel_reply_number};
use crate::channel_server_held::{
    covretin_channel_server_abandon, covretin_channel_server_claim,
    covretin_channel_server_unclaimed,
};
use crate::channel_server_holder::ChannelServerHolder;
use crate::channel_server_moving::{
    covretin_channel_server_end, covretin_channel_server_missing, covretin_channel_server_next,
    covretin_channel_server_receive, covretin_channel_server_to_send,
};
use crate::channel_server_opening::{
    covretin_channel_server_close, covretin_channel_server_open,
    covretin_channel_server_set_reply_ack,
};
use crate::places::{Places, ProgramAnswer, bare};
use std::alloc::{AllocError, Global};
use vhost_connection::talks_law;

/// What a call reads, and tells at the program's places: of the session, or an argument of the call that is to be replied to.
#[derive(Clone, Copy)]
pub enum ServerRead {
    Missing,
    Name,
    Mmap,
    Fd,
}

/// A call of a frontend's session of the channel that a program makes, with its arguments: each export's.
#[derive(Drop)]
pub enum ServerCall {
    Open,
    SetReplyAck(bool),
    /// With bytes and descriptors.
    Receive(Vec<u8>, Vec<i32>),
    End,
    ToSend(Places),
    Next(Places),
    /// `covretin_channel_server_missing` or `covretin_channel_call_..`.
    Read(ServerRead, Places),
    ReplyNumber(u64),
    ReplyErrno(i32),
    /// A descriptor.
    Claim(i32),
    Unclaimed(Places),
    Abandon,
    Close,
}

/// Makes calls, one after another, whatever each answers, and appends their answers to `answers`.
///
/// AllocError: `answers` could not grow, and no call was made.
pub fn run(
    alloc: Global,
    server: &mut ChannelServerHolder,
    calls: Vec<ServerCall>,
    answers: &mut Vec<ProgramAnswer>,
) -> Result<(), AllocError>
    ensures runs { IfOk result (λ _. Appends Does calls.items answers.old.items answers.new.items server.old.session server.new.session) }
    ensures called { IfOk result (λ _. IsMade Does server.old.session → Appends IsCalled calls.items answers.old.items answers.new.items server.old.session server.new.session) }
    ensures memory { IfErr result (λ _. (server.new.session ≡ server.old.session) × (answers.new.items ≡ answers.old.items)) }
    ensures room { IfErr result (λ _. vec_capacity answers.old < vec_len answers.old + length calls.items) }
{
    answers.reserve(calls.len())?;
    talks_law();
    for call in calls {
        let answer = make(alloc, server, call);
        answers.push_reserved(answer);
    }
    Ok(())
}

/// Makes a call.
fn make(alloc: Global, server: &mut ChannelServerHolder, call: ServerCall) -> ProgramAnswer
    ensures { Does call result server.old.session server.new.session }
{
    match call {
        ServerCall::Open => bare(alloc, covretin_channel_server_open(alloc, server)),
        ServerCall::SetReplyAck(on) => bare(
            alloc,
            covretin_channel_server_set_reply_ack(alloc, server, on),
        ),
        ServerCall::Receive(bytes, fds) => {
            let number = covretin_channel_server_receive(alloc, server, &bytes, &fds);
            bare(alloc, number)
        }
        ServerCall::End => bare(alloc, covretin_channel_server_end(alloc, server)),
        ServerCall::ToSend(places) => to_send(alloc, server, places),
        ServerCall::Next(places) => next(alloc, server, places),
        ServerCall::Read(what, places) => read(alloc, server, what, places),
        ServerCall::ReplyNumber(number) => bare(
            alloc,
            covretin_channel_reply_number(alloc, server, number),
        ),
        ServerCall::ReplyErrno(number) => bare(
            alloc,
            covretin_channel_reply_errno(alloc, server, number),
        ),
        ServerCall::Claim(fd) => bare(alloc, covretin_channel_server_claim(alloc, server, fd)),
        ServerCall::Unclaimed(places) => unclaimed(alloc, server, places),
        ServerCall::Abandon => bare(alloc, covretin_channel_server_abandon(alloc, server)),
        ServerCall::Close => {
            covretin_channel_server_close(alloc, server);
            bare(alloc, 0)
        }
    }
}

/// Hands out a piece of what is to be sent.
fn to_send(alloc: Global, server: &mut ChannelServerHolder, mut places: Places) -> ProgramAnswer
    ensures sent { By (Sending result.places.bytes.items result.places.fds.items (result.places.byte_count, result.places.fd_count)) server.old.session result.number server.new.session }
    ensures held { By (λ s o s'. s'.held ≡ s.held) server.old.session result.number server.new.session }
{
    let number = covretin_channel_server_to_send(
        alloc,
        server,
        &mut places.bytes,
        &mut places.fds,
        &mut places.byte_count,
        &mut places.fd_count,
    );
    ProgramAnswer { number, places }
}

/// Reads the next request, and tells the number of its call.
fn next(alloc: Global, server: &mut ChannelServerHolder, mut places: Places) -> ProgramAnswer
    ensures { By (Beginning result.places.code) server.old.session result.number server.new.session }
{
    let number = covretin_channel_server_next(alloc, server, &mut places.code);
    ProgramAnswer { number, places }
}

/// Reads, and tells it at these places.
fn read(
    alloc: Global,
    server: &mut ChannelServerHolder,
    what: ServerRead,
    mut places: Places,
) -> ProgramAnswer
    ensures { ReadsTo what places result.places server.old.session result.number server.new.session }
{
    let number = read_to(alloc, server, what, &mut places);
    ProgramAnswer { number, places }
}

/// The same, and answers its number.
fn read_to(
    alloc: Global,
    server: &mut ChannelServerHolder,
    what: ServerRead,
    at: &mut Places,
) -> u32
    ensures { ReadsTo what at.old at.new server.old.session result server.new.session }
{
    match what {
        ServerRead::Missing => {
            at.count = covretin_channel_server_missing(alloc, server);
            0
        }
        ServerRead::Name => covretin_channel_call_name(alloc, server, &mut at.bytes),
        ServerRead::Mmap => covretin_channel_call_mmap(alloc, server, &mut at.mmap),
        ServerRead::Fd => covretin_channel_call_fd(alloc, server, &mut at.fd),
    }
}

/// Hands out descriptors that nobody will claim.
fn unclaimed(alloc: Global, server: &mut ChannelServerHolder, mut places: Places) -> ProgramAnswer
    ensures { By (LettingGo places.fds.items result.places.count result.places.fds.items) server.old.session result.number server.new.session }
{
    let number = covretin_channel_server_unclaimed(
        alloc,
        server,
        &mut places.fds,
        &mut places.count,
    );
    ProgramAnswer { number, places }
}

/// A program makes any calls, where there is no session before. Each is answered by 0 or one of its refusals; and where each answer
/// is harmless, the session is sound in the end, if there is one.
pub fn runs_from_none(
    alloc: Global,
    server: &mut ChannelServerHolder,
    calls: Vec<ServerCall>,
) -> Result<Vec<ProgramAnswer>, AllocError>
    ensures as_many { IfOk result (λ answers. length answers.items ≡ length calls.items) }
    ensures called { server.old.session ≡ None → IfOk result (λ answers. Runs IsCalled calls.items answers.items server.old.session server.new.session) }
    ensures sound { server.old.session ≡ None → IfOk result (λ answers. All (λ a. is_harmless a.number ≡ true) answers.items → IsSound server.new.session) }
{
    let mut answers = Vec::new(alloc);
    run(alloc, server, calls, &mut answers)?;
    Ok(answers)
}
