//! The handling rules, and both sides of a connection.

ghost use Rattle.vhost_protocol.specs.Agreement.{AnswersNegotiate, AsksNegotiate, RowsKeepMark, SilentIsLast, KeepsStep};
ghost use Rattle.vhost_protocol.specs.Answering.{WhoeverWaitsIsAnswered, VhostIsTheTable, NoSilentStop, RefusalsAreHeard};

/// No handling rule changes the failure mark of a session.
pub fn rows_keep_mark<H, B, G>()
    ensures { RowsKeepMark H B G }
{}

/// An error of a handler without a reply is the last outcome of a run.
pub fn silent_is_last<H>()
    ensures { SilentIsLast H }
{}

/// For each call of a frontend that agrees with its handler: the answer table has an answer for whatever the handler
/// replies, and both agree after it, unless it was the last outcome.
pub fn stays_in_step<H, B, G>()
    ensures { KeepsStep H B G }
{}

/// At the frontend acknowledgements are on only where protocol features were offered: each call keeps that, and each
/// answer, where all features that the device answers have their bit, or none has.
pub fn stays_negotiated<H>()
    ensures asks { AsksNegotiate H }
    ensures answers { AnswersNegotiate H }
{}

/// Under `Standard` whoever waits is answered, or the session has ended; nobody else is answered. Under `Vhost` the table says all.
pub fn whoever_waits<H, B, G>()
    ensures standard { WhoeverWaitsIsAnswered H B G }
    ensures vhost { VhostIsTheTable H }
{}

/// Under `Standard` on both sides no silence is the last step: whatever the handler serves, the answer table knows it and both sides
/// agree after it, unless the session has ended.
pub fn no_silent_stop<H, B, G>()
    ensures { NoSilentStop H B G }
{}

/// Under `Standard` no refusal ends its frontend's session: each form in which a reply refuses is taken as an error of the backend.
pub fn refusals_are_heard<H>()
    ensures { RefusalsAreHeard H }
{}
