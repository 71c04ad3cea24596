//! What the frontend receives from its handler.

ghost use Rattle.vhost_protocol.specs.Heard.{RepliesWell, AwaitsItsShape, HearsTheAnswer, SendsWhole};

/// What the handler replies to a call is a reply that the call may have, where the device's answers have the bits of
/// their types; the frontend awaits that shape; and from the bytes that the handler served the frontend reads the answer
/// of the answer table, and leaves none.
pub fn heard_as_served<H, B, G>()
    ensures replies { RepliesWell H B G }
    ensures awaits { AwaitsItsShape H }
    ensures hears { HearsTheAnswer H }
{}

/// What each call sends can be sent: its descriptors are wanted, and there is room for its body.
pub fn sent_whole<H>()
    ensures { SendsWhole H }
{}
