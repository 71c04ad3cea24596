//! Both sides of the backend channel joined, for whole lists of calls.

ghost use Rattle.std.specs.Prelude.{⊤};

use std::alloc::Global;
use uuid::Uuid;
use vhost_frontend_req_handler::VhostUserFrontendReqHandlerMut;
use vhost_joined::Halt;
use vhost_joined_reverse::{JoinedReverse, ReverseCall};
use vhost_link::PlainHandle;
use vhost_message::{
    ByteValued, Error, HandlerResult, IoError, VhostUserMMap, VhostUserSharedMsg, VhostUserU64,
};
use vhost_promises::runs_back_in_lockstep;

/// Fails each call with this number of the system.
#[derive(Drop)]
struct Fails {
    number: i32,
}

impl VhostUserFrontendReqHandlerMut for Fails {
    type Handle = PlainHandle;

    ghost gives = { λ _ _ _ _. ⊤ };

    fn handle_config_change(&mut self) -> HandlerResult<u64> {
        Err(IoError::Raw(self.number))
    }

    fn shared_object_add(&mut self, _uuid: &VhostUserSharedMsg) -> HandlerResult<u64> {
        Err(IoError::Raw(self.number))
    }

    fn shared_object_remove(&mut self, _uuid: &VhostUserSharedMsg) -> HandlerResult<u64> {
        Err(IoError::Raw(self.number))
    }

    fn shared_object_lookup(
        &mut self,
        _uuid: &VhostUserSharedMsg,
        _fd: &PlainHandle,
    ) -> HandlerResult<u64> {
        Err(IoError::Raw(self.number))
    }

    fn shmem_map(&mut self, _req: &VhostUserMMap, _fd: &PlainHandle) -> HandlerResult<u64> {
        Err(IoError::Raw(self.number))
    }

    fn shmem_unmap(&mut self, _req: &VhostUserMMap) -> HandlerResult<u64> {
        Err(IoError::Raw(self.number))
    }
}

/// A name of sixteen times the same byte; of 0 it is none.
fn name(byte: u8) -> VhostUserSharedMsg {
    VhostUserSharedMsg {
        uuid: Uuid::from_bytes([byte; 16]),
    }
}

/// What a list of calls left, as plain values.
#[derive(Clone, Copy, Debug, PartialEq, Eq)]
struct Seen {
    /// How many calls were answered.
    answers: usize,
    /// The last answer.
    last: Result<u64, &'static str>,
    /// Whether the run had stopped before the last call.
    halted: bool,
    /// The number of the last reply.
    reply: Option<u64>,
}

/// An answer as its number, or why there is none.
fn shown(answer: Option<&HandlerResult<u64>>) -> Result<u64, &'static str> {
    match answer {
        Some(Ok(number)) => Ok(*number),
        Some(Err(IoError::Of(Error::FrontendInternalError))) => Err("refused"),
        Some(Err(IoError::Of(Error::PartialMessage))) => Err("no reply"),
        _ => Err("other"),
    }
}

/// The number of a reply, where there is one.
fn number_in(reply: &[u8]) -> Option<u64> {
    if reply.len() == 20 {
        Some(VhostUserU64::decode(&reply[12..20]).value)
    } else {
        None
    }
}

/// What both sides did over a frontend.
fn seen_over<D: VhostUserFrontendReqHandlerMut<Handle = PlainHandle>>(
    alloc: Global,
    frontend: D,
    calls: &[ReverseCall],
) -> Option<Seen> {
    let scripts = (Vec::new(alloc), Vec::new(alloc));
    let mut answers = Vec::new(alloc);
    let ran = runs_back_in_lockstep(alloc, frontend, 0, scripts, calls, &mut answers);
    let (joined, ended) = ran.ok()?;
    Some(Seen {
        answers: answers.len(),
        last: shown(answers.as_slice().last()),
        halted: matches!(ended, Err(Halt::Stopped)),
        reply: number_in(last_reply(&joined)),
    })
}

/// The last reply's bytes.
fn last_reply<D: VhostUserFrontendReqHandlerMut<Handle = PlainHandle>>(
    joined: &JoinedReverse<D>,
) -> &[u8] {
    joined.last_reply().0
}

/// What they did where an object of sixteen such bytes is added, and then one of ones, over a frontend that fails with this number.
fn added(alloc: Global, byte: u8, is_awaited: bool, number: i32) -> Option<Seen> {
    let calls = [
        ReverseCall::SetSharedObject(true),
        ReverseCall::SetReplyAck(is_awaited),
        ReverseCall::SharedObjectAdd(name(byte)),
        ReverseCall::SharedObjectAdd(name(1)),
    ];
    seen_over(alloc, Fails { number }, &calls)
}

/// The end of a run at a name without bits, which is refused without a reply.
fn ended(last: Result<u64, &'static str>) -> Option<Seen> {
    Some(Seen {
        answers: 3,
        last,
        halted: true,
        reply: None,
    })
}

/// A run whose last call is acknowledged with this number.
fn acknowledged(last: Result<u64, &'static str>, number: u64) -> Option<Seen> {
    Some(Seen {
        answers: 4,
        last,
        halted: false,
        reply: Some(number),
    })
}

pub(crate) fn hold(alloc: Global) -> [bool; 5] {
    let refused = Err("refused");
    [
        added(alloc, 0, false, 38) == ended(Ok(0)),
        added(alloc, 0, true, 38) == ended(Err("no reply")),
        added(alloc, 1, true, 38) == acknowledged(refused, 0xffff_ffff_ffff_ffda),
        added(alloc, 1, true, i32::MIN) == acknowledged(refused, 0xffff_ffff_ffff_ffea),
        added(alloc, 1, true, 0) == acknowledged(Ok(0), 0),
    ]
}
