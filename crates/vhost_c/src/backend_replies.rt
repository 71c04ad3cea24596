//! What a device replies to the call that is to be replied to, by its form.

ghost use Rattle.vhost_c_common.specs.ByNumber.{By};
ghost use Rattle.vhost_c_backend.specs.Serving.{Answering, AnsweringShmem};
ghost use Rattle.vhost_c_backend.specs.declared.replies.Reply.TheVariants as reply_;

use crate::backend_holder::BackendHolder;
use std::alloc::Global;
use vhost_c_backend::Reply;
use vhost_c_common::{Inflight, Refusal, number_of};

/// Replies, if there is a session.
fn replied(alloc: Global, backend: &mut BackendHolder, reply: Reply<'_>) -> u32
    ensures { By (Answering reply.entry) backend.old.session result backend.new.session }
{
    match backend.take(alloc) {
        None => number_of(Err(Refusal::NoSession)),
        Some(mut held) => {
            let outcome = held.reply(reply);
            backend.put(held);
            number_of(outcome)
        }
    }
}

/// The call succeeded, and has no value.
#[unsafe(no_mangle)]
pub extern "C" fn covretin_reply_done(alloc: Global, backend: &mut BackendHolder) -> u32
    ensures { By (Answering reply_.Done) backend.old.session result backend.new.session }
{
    replied(alloc, backend, Reply::Done)
}

/// The device refused the call.
#[unsafe(no_mangle)]
pub extern "C" fn covretin_reply_refused(alloc: Global, backend: &mut BackendHolder) -> u32
    ensures { By (Answering reply_.Refused) backend.old.session result backend.new.session }
{
    replied(alloc, backend, Reply::Refused)
}

/// Replies by a number, or features.
#[unsafe(no_mangle)]
pub extern "C" fn covretin_reply_number(
    alloc: Global,
    backend: &mut BackendHolder,
    number: u64,
) -> u32
    ensures { By (Answering (reply_.Number number)) backend.old.session result backend.new.session }
{
    replied(alloc, backend, Reply::Number(number))
}

/// Replies by the index of a ring, and at which descriptor it goes on.
#[unsafe(no_mangle)]
pub extern "C" fn covretin_reply_ring(
    alloc: Global,
    backend: &mut BackendHolder,
    index: u32,
    number: u32,
) -> u32
    ensures { By (Answering (reply_.Ring index number)) backend.old.session result backend.new.session }
{
    replied(alloc, backend, Reply::Ring(index, number))
}

/// Replies by where each region is mapped.
#[unsafe(no_mangle)]
pub extern "C" fn covretin_reply_bases(
    alloc: Global,
    backend: &mut BackendHolder,
    bases: &[u64],
) -> u32
    ensures { By (Answering (reply_.Bases bases.entry)) backend.old.session result backend.new.session }
{
    replied(alloc, backend, Reply::Bases(bases))
}

/// Replies by bytes of the configuration space.
#[unsafe(no_mangle)]
pub extern "C" fn covretin_reply_config(
    alloc: Global,
    backend: &mut BackendHolder,
    bytes: &[u8],
) -> u32
    ensures { By (Answering (reply_.Config bytes.entry)) backend.old.session result backend.new.session }
{
    replied(alloc, backend, Reply::Config(bytes))
}

/// Replies by a file descriptor.
#[unsafe(no_mangle)]
pub extern "C" fn covretin_reply_fd(alloc: Global, backend: &mut BackendHolder, fd: i32) -> u32
    ensures { By (Answering (reply_.Fd fd)) backend.old.session result backend.new.session }
{
    replied(alloc, backend, Reply::Fd(fd))
}

/// Replies by the inflight region, and the file descriptor that maps it.
#[unsafe(no_mangle)]
pub extern "C" fn covretin_reply_inflight(
    alloc: Global,
    backend: &mut BackendHolder,
    inflight: &Inflight,
    fd: i32,
) -> u32
    ensures { By (Answering (reply_.Inflight inflight.now fd)) backend.old.session result backend.new.session }
{
    replied(alloc, backend, Reply::Inflight(*inflight, fd))
}

/// Replies by the sizes of the regions of shared memory, and how many there are.
#[unsafe(no_mangle)]
pub extern "C" fn covretin_reply_shmem(
    alloc: Global,
    backend: &mut BackendHolder,
    sizes: &[u64],
    count: u32,
) -> u32
    ensures { By (AnsweringShmem count sizes.now) backend.old.session result backend.new.session }
{
    match backend.take(alloc) {
        None => number_of(Err(Refusal::NoSession)),
        Some(mut held) => {
            let outcome = held.reply_shmem(count, sizes);
            backend.put(held);
            number_of(outcome)
        }
    }
}
