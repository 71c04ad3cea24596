//! Both sides of the backend channel joined over a frontend that accepts one object, with exact answers.

ghost use Rattle.std.specs.Prelude.{◌≡◌, ◌≢◌, ◌++◌, [], ◌∷◌, Some, IfOk, List, Result, ℕ};
ghost use Rattle.vhost_message.specs.declared.io_error.IoError as declared;
ghost use Rattle.vhost_joined.specs.declared.halt.Stop.TheVariants.{Premise};
ghost use Rattle.vhost_promises.specs.ExampleBack.{Shares, SharesAgain, name};

use std::alloc::Global;
use vhost_frontend_req_handler::VhostUserFrontendReqHandlerMut;
use vhost_joined::Halt;
use vhost_joined_reverse::{JoinedReverse, ReverseCall};
use vhost_link::PlainHandle;
use vhost_message::{ByteValued, HandlerResult, IoError, VhostUserMMap, VhostUserSharedMsg};

/// The system's error for a call that is not there (ENOSYS).
const ENOSYS: i32 = 38;

/// A frontend that accepts one object, and fails every other call with the system's error 38.
#[derive(Drop)]
pub struct OneObject {
    /// Whether it has one.
    taken: bool,
}

impl VhostUserFrontendReqHandlerMut for OneObject {
    ghost use Rattle.vhost_promises.specs.ExampleBack.{OneObjectGives};

    type Handle = PlainHandle;

    ghost gives = { OneObjectGives };

    fn handle_config_change(&mut self) -> HandlerResult<u64> {
        Err(IoError::Raw(ENOSYS))
    }

    fn shared_object_add(&mut self, _uuid: &VhostUserSharedMsg) -> HandlerResult<u64> {
        if self.taken {
            return Err(IoError::Raw(ENOSYS));
        }
        self.taken = true;
        Ok(0)
    }

    fn shared_object_remove(&mut self, _uuid: &VhostUserSharedMsg) -> HandlerResult<u64> {
        Err(IoError::Raw(ENOSYS))
    }

    fn shared_object_lookup(
        &mut self,
        _uuid: &VhostUserSharedMsg,
        _fd: &PlainHandle,
    ) -> HandlerResult<u64> {
        Err(IoError::Raw(ENOSYS))
    }

    fn shmem_map(&mut self, _req: &VhostUserMMap, _fd: &PlainHandle) -> HandlerResult<u64> {
        Err(IoError::Raw(ENOSYS))
    }

    fn shmem_unmap(&mut self, _req: &VhostUserMMap) -> HandlerResult<u64> {
        Err(IoError::Raw(ENOSYS))
    }
}

/// Joins two new sides over a frontend without an object; they agree on acknowledgements and on objects, and the device shares one. It
/// is answered 0, and the last request and its reply are these, byte by byte.
pub fn shares_object(
    alloc: Global,
    answers: &mut Vec<HandlerResult<u64>>,
) -> Result<JoinedReverse<OneObject>, Halt>
    ensures { IfOk result (λ joined. joined.stopped ≢ Some Premise
        → (done : List (Result ℕ declared.IoError)) × (answers.new.items ≡ answers.old.items ++ done) × Shares done joined) }
{
    let scripts = (Vec::new(alloc), Vec::new(alloc));
    let mut joined = JoinedReverse::new(alloc, OneObject { taken: false }, 3, scripts)?;
    let calls = [
        ReverseCall::SetReplyAck(true),
        ReverseCall::SetSharedObject(true),
        ReverseCall::SharedObjectAdd(some_name()),
    ];
    joined.run(&calls, answers)?;
    Ok(joined)
}

/// Shares it once more. The frontend fails with the number 38, its negative goes back, and the device's call reports that failure.
pub fn shares_twice(
    alloc: Global,
    answers: &mut Vec<HandlerResult<u64>>,
) -> Result<JoinedReverse<OneObject>, Halt>
    ensures { IfOk result (λ joined. joined.stopped ≢ Some Premise → (done : List (Result ℕ declared.IoError)) × (last : Result ℕ declared.IoError)
        × (answers.new.items ≡ (answers.old.items ++ done) ++ last ∷ []) × SharesAgain last joined) }
{
    let mut joined = shares_object(alloc, answers)?;
    let answer = joined.step(&ReverseCall::SharedObjectAdd(some_name()))?;
    match answers.push(answer) {
        Ok(()) => Ok(joined),
        Err(_) => Err(Halt::OutOfMemory),
    }
}

/// The name of an object.
fn some_name() -> VhostUserSharedMsg
    ensures { result ≡ name }
{
    VhostUserSharedMsg::decode(&[1, 2, 3, 4, 5, 6, 7, 8, 9, 10, 11, 12, 13, 14, 15, 16])
}
