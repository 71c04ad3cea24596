//! The calls of each session that neither bring descriptors nor hand any out.

ghost use Rattle.std.specs.Prelude.{◌≡◌};
ghost use Rattle.vhost_c_books.specs.Books.{HoldsAsOften, IsServing, Serves};

use std::collections::VecDeque;
use vhost_backend_req::ReverseCall;
use vhost_c_channel::{Channel, ChannelServer, Display, Feature};
use vhost_c_frontend::Session;
use vhost_frontend_core::{FrontendCall, Profile};
use vhost_gpu_backend_req::GpuCall;
use vhost_link::PlainHandle;
use vhost_message::{Error, IoError, MAX_ATTACHED_FD_ENTRIES};

/// A call that neither brings descriptors nor hands any out. A session does nothing for one that only other sessions have.
#[derive(Drop, Clone, Copy)]
pub enum Call<'a> {
    /// Hands out a piece of what is to be sent.
    Send,
    /// A frontend has this profile.
    SetProfile(Profile),
    /// A frontend asks the next of its calls.
    Ask,
    /// A frontend was to ask with an argument that makes no call.
    AskInvalid,
    /// A device asks its frontend, or has a flag of the channel.
    AskFrontend(&'a ReverseCall<PlainHandle>),
    /// A device asks its display.
    AskDisplay(&'a GpuCall<PlainHandle>),
    /// Takes an answer, or a reply without a value.
    Take,
    TakeNumber,
    TakeDisplayInfo,
    TakeEdid,
    /// Whether requests that ask for it are replied to.
    Acknowledge(bool),
    /// Reads the next request.
    Next,
    ReplyNumber(u64),
    /// Replies by the number of the system's error.
    ReplyErrno(i32),
}

/// A call of a frontend's session.
pub(crate) fn call_frontend(
    session: &mut Session,
    call: &Call<'_>,
    asks: &mut VecDeque<FrontendCall>,
)
    ensures { HoldsAsOften session.old.held session.new.held }
{
    match call {
        Call::Send => {
            let (mut bytes, mut fds) = ([0; 64], [0; MAX_ATTACHED_FD_ENTRIES]);
            let _ = session.hand_out(&mut bytes, &mut fds);
        }
        Call::SetProfile(profile) => session.set_profile(*profile),
        Call::Ask => ask_next(session, asks),
        Call::AskInvalid => {
            let _ = session.reject(Error::InvalidParam);
        }
        Call::Take => {
            let _ = session.take();
        }
        _ => {}
    }
}

/// A frontend asks the next of its calls, if there is one.
fn ask_next(session: &mut Session, asks: &mut VecDeque<FrontendCall>)
    ensures { HoldsAsOften session.old.held session.new.held }
{
    match asks.pop_front() {
        Some(call) => {
            let _ = session.ask(call);
        }
        None => {}
    }
}

/// A call of a device's session of the backend channel.
pub(crate) fn call_channel(session: &mut Channel, call: &Call<'_>)
    ensures { session.new.held ≡ session.old.held }
{
    match call {
        Call::Send => {
            let (mut bytes, mut fds) = ([0; 64], [0; MAX_ATTACHED_FD_ENTRIES]);
            let _ = session.hand_out(&mut bytes, &mut fds);
        }
        Call::AskFrontend(call) => ask_frontend(session, call),
        Call::Take => {
            let _ = session.take();
        }
        _ => {}
    }
}

/// A device asks its frontend, or has a flag.
fn ask_frontend(session: &mut Channel, call: &ReverseCall<PlainHandle>)
    ensures { session.new.held ≡ session.old.held }
{
    match call {
        ReverseCall::SetReplyAck(on) => session.agree(Feature::ReplyAck, *on),
        ReverseCall::SetConfigChange(on) => session.agree(Feature::ConfigChange, *on),
        ReverseCall::SetSharedObject(on) => session.agree(Feature::SharedObject, *on),
        ReverseCall::SetShmem(on) => session.agree(Feature::Shmem, *on),
        _ => {
            let _ = session.ask(call);
        }
    }
}

/// A call of a frontend's session of the backend channel.
pub(crate) fn call_server(session: &mut ChannelServer, call: &Call<'_>)
    ensures { IsServing session.old → Serves session.old session.new }
{
    match call {
        Call::Send => {
            let (mut bytes, mut fds) = ([0; 64], [0; MAX_ATTACHED_FD_ENTRIES]);
            let _ = session.hand_out(&mut bytes, &mut fds);
        }
        Call::Acknowledge(on) => session.acknowledge(*on),
        Call::Next => {
            let _ = session.next();
        }
        Call::ReplyNumber(number) => {
            let _ = session.reply(Ok(*number));
        }
        Call::ReplyErrno(number) => {
            let _ = session.reply(Err(IoError::Raw(*number)));
        }
        _ => {}
    }
}

/// A call of a device's session with a display.
pub(crate) fn call_display(session: &mut Display, call: &Call<'_>)
    ensures { session.new.held ≡ session.old.held }
{
    match call {
        Call::Send => {
            let (mut bytes, mut fds) = ([0; 64], [0; MAX_ATTACHED_FD_ENTRIES]);
            let _ = session.hand_out(&mut bytes, &mut fds);
        }
        Call::AskDisplay(call) => {
            let _ = session.ask(call);
        }
        Call::Take => {
            let _ = session.take();
        }
        Call::TakeNumber => {
            let _ = session.take_number();
        }
        Call::TakeDisplayInfo => {
            let _ = session.take_display_info(&mut [0; 408]);
        }
        Call::TakeEdid => {
            let _ = session.take_edid(&mut [0; 1056]);
        }
        _ => {}
    }
}
