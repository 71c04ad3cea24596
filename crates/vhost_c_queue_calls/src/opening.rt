//! Queues are opened and closed.

ghost use Rattle.std.specs.Prelude.{◌≡◌, None};
ghost use Rattle.vhost_c_queue_calls.specs.Opening.{Opens};

use crate::holder::QueueHolder;
use std::alloc::Global;
use vhost_c_queue::{DeviceQueue, Refusal, number_of};
use vhost_queue::Error;

/// Opens a queue, which sees no memory and has no rings.
#[unsafe(no_mangle)]
pub extern "C" fn covretin_queue_open(alloc: Global, queue: &mut QueueHolder) -> u32
    ensures { Opens queue.old.session result queue.new.session }
{
    match queue.take(alloc) {
        Some(held) => {
            queue.put(held);
            number_of(Err(Refusal::QueueOpen))
        }
        None => match Box::new(alloc, DeviceQueue::new(alloc)) {
            Ok(made) => {
                queue.put(made);
                number_of(Ok(()))
            }
            Err(_) => number_of(Err(Refusal::Queue(Error::OutOfMemory))),
        },
    }
}

/// Closes a queue, if there is one, and frees what it held.
#[unsafe(no_mangle)]
pub extern "C" fn covretin_queue_close(alloc: Global, queue: &mut QueueHolder)
    ensures { queue.new.session ≡ None }
{
    let _closed = queue.take(alloc);
}
