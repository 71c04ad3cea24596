//! What a device replies, by the form of its call.

ghost use Rattle.std.specs.Prelude.{◌≡◌};
ghost use Rattle.vhost_c_backend.specs.Replies.{form_in, AnswersBy};
ghost use Rattle.vhost_c_backend.specs.declared.replies.Form.TheVariants as form;
ghost use Rattle.vhost_c_backend.specs.declared.replies.Reply.TheVariants as reply_;

use std::alloc::Global;
use vhost_backend_req_handler_core::{DeviceAnswer, DeviceCall};
use vhost_c_common::{Inflight, Refusal, handle_of};
use vhost_link::PlainHandle;
use vhost_message::{Error, MAX_MSG_SIZE, VhostUserVringState};

type Outcome<T> = std::result::Result<T, Refusal>;

/// The greatest number of bytes of the configuration space in a message, behind their record.
const MAX_CONFIG: usize = MAX_MSG_SIZE - 12;

/// What a device replies to a call. Lists are lent. The sizes of shared memory are not here, for they are many.
#[derive(Drop, Clone, Copy)]
pub enum Reply<'a> {
    /// The call succeeded, and has no value.
    Done,
    /// The device refused the call.
    Refused,
    Number(u64),
    /// The index of a ring, and a number.
    Ring(u32, u32),
    /// Where each region is mapped.
    Bases(&'a [u64]),
    /// Bytes of the configuration space.
    Config(&'a [u8]),
    /// A file descriptor.
    Fd(i32),
    /// The inflight region, and its file descriptor.
    Inflight(Inflight, i32),
}

/// In which form a call is replied to.
#[derive(Drop, Clone, Copy)]
pub(crate) enum Form {
    Done,
    Number,
    Ring,
    /// The regions of a table, and one: while postcopy listens by bases, else by none.
    Table(bool),
    Region(bool),
    Config,
    Fd,
    /// Or none.
    StateFd,
    Inflight,
    Shmem,
}

/// The form of a call.
pub(crate) fn form_of(call: &DeviceCall) -> Form
    ensures { result ≡ form_in call.now }
{
    match call {
        DeviceCall::GetFeatures
        | DeviceCall::GetProtocolFeatures
        | DeviceCall::GetQueueNum
        | DeviceCall::GetMaxMemSlots => Form::Number,
        DeviceCall::SetMemTable(_, listens) => Form::Table(*listens),
        DeviceCall::AddMemRegion(_, listens) => Form::Region(*listens),
        DeviceCall::GetVringBase(_) => Form::Ring,
        DeviceCall::GetConfig(_) => Form::Config,
        DeviceCall::GetSharedObject(_) | DeviceCall::PostcopyAdvice => Form::Fd,
        DeviceCall::SetDeviceStateFd(_, _) => Form::StateFd,
        DeviceCall::GetInflightFd(_) => Form::Inflight,
        DeviceCall::GetShmemConfig => Form::Shmem,
        _ => Form::Done,
    }
}

impl Form {
    /// The answer of a device to a call of this form.
    ///
    /// OtherCall: the reply has another form. InvalidParam: an argument is not allowed. OutOfMemory: an allocation failed.
    pub(crate) fn answer(
        self,
        alloc: Global,
        reply: Reply<'_>,
    ) -> Outcome<DeviceAnswer<PlainHandle>>
        ensures { AnswersBy self reply.entry result }
    {
        match reply {
            Reply::Refused => Ok(DeviceAnswer::Done(Err(Error::BackendInternalError))),
            Reply::Done => self.done(),
            Reply::Number(number) => match self {
                Form::Number => Ok(DeviceAnswer::Number(Ok(number))),
                _ => Err(Refusal::OtherCall),
            },
            Reply::Ring(index, num) => match self {
                Form::Ring => Ok(DeviceAnswer::RingState(Ok(VhostUserVringState { index, num }))),
                _ => Err(Refusal::OtherCall),
            },
            Reply::Bases(bases) => self.bases(alloc, bases),
            Reply::Config(bytes) => match self {
                Form::Config => config(alloc, bytes),
                _ => Err(Refusal::OtherCall),
            },
            Reply::Fd(fd) => self.fd(fd),
            Reply::Inflight(inflight, fd) => match self {
                Form::Inflight => inflight_with(&inflight, fd),
                _ => Err(Refusal::OtherCall),
            },
        }
    }

    /// The answer without a value.
    fn done(self) -> Outcome<DeviceAnswer<PlainHandle>>
        ensures { AnswersBy self reply_.Done result }
    {
        match self {
            Form::Done => Ok(DeviceAnswer::Done(Ok(()))),
            Form::Table(false) => Ok(DeviceAnswer::Bases(Ok(None))),
            Form::Region(false) => Ok(DeviceAnswer::Base(Ok(None))),
            _ => Err(Refusal::OtherCall),
        }
    }

    /// The answer by bases. For one region there is one: else it is answered as with none.
    fn bases(self, alloc: Global, bases: &[u64]) -> Outcome<DeviceAnswer<PlainHandle>>
        ensures { AnswersBy self (reply_.Bases bases.entry) result }
    {
        match self {
            Form::Table(true) => match Vec::from_slice(alloc, bases) {
                Ok(bases) => Ok(DeviceAnswer::Bases(Ok(Some(bases)))),
                Err(_) => Err(Refusal::Protocol(Error::OutOfMemory)),
            },
            Form::Region(true) => {
                let base = if bases.len() == 1 {
                    Some(bases[0])
                } else {
                    None
                };
                Ok(DeviceAnswer::Base(Ok(base)))
            }
            _ => Err(Refusal::OtherCall),
        }
    }

    /// The answer by a file descriptor, or by none.
    fn fd(self, fd: i32) -> Outcome<DeviceAnswer<PlainHandle>>
        ensures { AnswersBy self (reply_.Fd fd) result }
    {
        match self {
            Form::StateFd if fd == -1 => Ok(DeviceAnswer::StateHandle(Ok(None))),
            Form::StateFd => match handle_of(fd) {
                Some(handle) => Ok(DeviceAnswer::StateHandle(Ok(Some(handle)))),
                None => Err(Refusal::Protocol(Error::InvalidParam)),
            },
            Form::Fd => match handle_of(fd) {
                Some(handle) => Ok(DeviceAnswer::Handle(Ok(handle))),
                None => Err(Refusal::Protocol(Error::InvalidParam)),
            },
            _ => Err(Refusal::OtherCall),
        }
    }
}

/// The answer by bytes of the configuration space.
fn config(alloc: Global, bytes: &[u8]) -> Outcome<DeviceAnswer<PlainHandle>>
    ensures { AnswersBy form.Config (reply_.Config bytes.entry) result }
{
    if bytes.len() > MAX_CONFIG {
        return Err(Refusal::Protocol(Error::InvalidParam));
    }
    match Vec::from_slice(alloc, bytes) {
        Ok(bytes) => Ok(DeviceAnswer::Bytes(Ok(bytes))),
        Err(_) => Err(Refusal::Protocol(Error::OutOfMemory)),
    }
}

/// The answer by the inflight region.
fn inflight_with(inflight: &Inflight, fd: i32) -> Outcome<DeviceAnswer<PlainHandle>>
    ensures { AnswersBy form.Inflight (reply_.Inflight inflight.now fd) result }
{
    match handle_of(fd) {
        Some(handle) => Ok(DeviceAnswer::Inflight(Ok((inflight.data(), handle)))),
        None => Err(Refusal::Protocol(Error::InvalidParam)),
    }
}
