//! How a stream splits into messages.

ghost use Rattle.vhost_protocol.specs.Laws.{CutsFront, EndIsNeeded, FirstIsFront, SentIsRead};

use vhost_message::Req;

/// A stream splits at the end of its first message: what follows makes no difference, an outcome at the end of the
/// stream needed that end, and a message that was sent is the first one of the stream, whatever follows it.
pub fn cut_in_order<R: Req, H>()
    ensures cut { CutsFront R H R.code }
    ensures end { EndIsNeeded R H R.code }
    ensures front { FirstIsFront R H R.code }
    ensures read { SentIsRead R H R.code R.number }
{}
