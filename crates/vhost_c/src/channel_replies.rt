//! What a frontend replies to the call of a device that is to be replied to.

ghost use Rattle.std.specs.Prelude.{Ok, Err};
ghost use Rattle.vhost_protocol.specs.Error.{Raw};
ghost use Rattle.vhost_protocol.specs.IoError.{Because, seen_io_result};
ghost use Rattle.vhost_c_common.specs.ByNumber.{By};
ghost use Rattle.vhost_c_channel.specs.Serving.{Answering};

use crate::channel_server_holder::ChannelServerHolder;
use std::alloc::Global;
use vhost_c_common::{Refusal, number_of};
use vhost_message::{HandlerResult, IoError};

/// Replies, if there is a session.
fn replied(alloc: Global, server: &mut ChannelServerHolder, answer: HandlerResult<u64>) -> u32
    ensures { By (Answering (seen_io_result answer)) server.old.session result server.new.session }
{
    match server.take(alloc) {
        None => number_of(Err(Refusal::NoSession)),
        Some(mut held) => {
            let outcome = held.reply(answer);
            server.put(held);
            number_of(outcome)
        }
    }
}

/// Replies by a number: 0 is success.
#[unsafe(no_mangle)]
pub extern "C" fn covretin_channel_reply_number(
    alloc: Global,
    server: &mut ChannelServerHolder,
    number: u64,
) -> u32
    ensures { By (Answering (Ok number)) server.old.session result server.new.session }
{
    replied(alloc, server, Ok(number))
}

/// Replies by the number of a system's error.
#[unsafe(no_mangle)]
pub extern "C" fn covretin_channel_reply_errno(
    alloc: Global,
    server: &mut ChannelServerHolder,
    number: i32,
) -> u32
    ensures { By (Answering (Err (Because (Raw number)))) server.old.session result server.new.session }
{
    replied(alloc, server, Err(IoError::Raw(number)))
}
