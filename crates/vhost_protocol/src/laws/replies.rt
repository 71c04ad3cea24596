//! How a reply is read, and what a frontend answers by it.

ghost use Rattle.vhost_protocol.specs.Laws.{ReplyIsRead, TakesAck, TakesNumber, TakesEmpty, TakesReply, TakesNothing};

use vhost_message::Req;

/// A reply that was written is read by its record and the payload behind it, whatever follows it.
pub fn read_as_written<R: Req, H>()
    ensures read { ReplyIsRead R H R.number }
{}

/// What a handler served is read by the frontend as the answer table says, and what follows it on the stream is left.
pub fn taken_as_served<H>()
    ensures acknowledgement { TakesAck H }
    ensures number { TakesNumber H }
    ensures empty { TakesEmpty H }
    ensures reply { TakesReply H }
    ensures nothing { TakesNothing H }
{}
