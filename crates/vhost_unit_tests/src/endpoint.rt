//! Calls of an endpoint: as they should go, and where the link ends, fails or wants retries.

use std::alloc::Global;
use vhost_connection::Endpoint;
use vhost_link::{Cut, Kind, Link, MemLink, PlainHandle};
use vhost_message::{
    Error, FrontendReq, IoCause, Result as Outcome, VhostUserMsgHeader, VhostUserU64,
};

type Header = VhostUserMsgHeader<FrontendReq>;

type End = Endpoint<Header, MemLink>;

/// The reply to GET_FEATURES: 9.
static REPLY: [u8; 20] = [1, 0, 0, 0, 5, 0, 0, 0, 8, 0, 0, 0, 9, 0, 0, 0, 0, 0, 0, 0];

const FILE: PlainHandle = PlainHandle {
    id: 7,
    kind: Kind::NoSocket,
};

/// How a call ended: as it should, with a part of a message, at the stream's end, refused, or by the link.
#[derive(Clone, Copy, PartialEq, Eq)]
enum Ended {
    Done,
    Partial,
    Over,
    Refused,
    Retried,
    Faulted,
    Broken,
    Otherwise,
}

fn end_of<T>(outcome: &Outcome<T>) -> Ended {
    match outcome {
        Ok(_) => Ended::Done,
        Err(Error::PartialMessage) => Ended::Partial,
        Err(Error::Disconnected) => Ended::Over,
        Err(Error::IncorrectFds) => Ended::Refused,
        Err(Error::SocketRetry(IoCause::Raw(11))) => Ended::Retried,
        Err(Error::SocketError(IoCause::Raw(5))) => Ended::Faulted,
        Err(Error::SocketBroken(IoCause::Raw(_))) => Ended::Broken,
        Err(_) => Ended::Otherwise,
    }
}

/// An endpoint whose messages may take two retries, and to which these bytes came with a descriptor, over a link with this script.
fn new_end(alloc: Global, bytes: &[u8], cuts: &[Cut]) -> Option<End> {
    let mut link = MemLink::new(alloc, Vec::from_slice(alloc, cuts).ok()?);
    link.push(bytes, &[FILE]).ok()?;
    Endpoint::from_stream(alloc, link, 2).ok()
}

/// How two headers are received.
fn two_of(end: &mut End) -> [Ended; 2] {
    let first = end_of(&end.recv_header());
    [first, end_of(&end.recv_header())]
}

/// The same of these bytes, over a link with this script.
fn two_headers(alloc: Global, bytes: &[u8], cuts: &[Cut]) -> Option<[Ended; 2]> {
    let mut end = new_end(alloc, bytes, cuts)?;
    Some(two_of(&mut end))
}

#[test]
fn receives_headers(rt: HostRuntime) {
    let torn = [Cut::Give(5), Cut::Fault(5)];
    let enough = [Cut::Give(5), Cut::Retry, Cut::Retry];
    let before = [Cut::Retry, Cut::Retry, Cut::Retry];
    let amid = [Cut::Give(5), Cut::Retry, Cut::Retry, Cut::Retry];
    let alloc = rt.alloc();
    let short = two_headers(alloc, &REPLY[..5], &[]);
    assert!(rt; short == Some([Ended::Partial, Ended::Over]));
    assert!(rt; two_headers(alloc, &REPLY, &torn) == Some([Ended::Faulted, Ended::Broken]));
    assert!(rt; two_headers(alloc, &REPLY, &enough) == Some([Ended::Done, Ended::Partial]));
    assert!(rt; two_headers(alloc, &REPLY, &before) == Some([Ended::Retried, Ended::Done]));
    assert!(rt; two_headers(alloc, &REPLY, &amid) == Some([Ended::Retried, Ended::Broken]));
}

/// How a header and a record are received.
fn body(alloc: Global, bytes: &[u8]) -> Option<Ended> {
    let mut end = new_end(alloc, bytes, &[])?;
    Some(end_of(&end.recv_body::<VhostUserU64>()))
}

#[test]
fn receives_a_record(rt: HostRuntime) {
    assert!(rt; body(rt.alloc(), &REPLY) == Some(Ended::Done));
    assert!(rt; body(rt.alloc(), &REPLY[..15]) == Some(Ended::Partial));
}

/// What one call of the link brings is two messages, and then the link fails.
#[test]
fn receives_ahead(rt: HostRuntime) {
    let both = [
        3, 0, 0, 0, 1, 0, 0, 0, 0, 0, 0, 0, 4, 0, 0, 0, 1, 0, 0, 0, 0, 0, 0, 0,
    ];
    let cuts = [Cut::Give(8192), Cut::Fault(5)];
    let first = two_headers(rt.alloc(), &both, &cuts);
    assert!(rt; first == Some([Ended::Done, Ended::Done]));
    let second = two_headers(rt.alloc(), &both[..12], &cuts);
    assert!(rt; second == Some([Ended::Done, Ended::Faulted]));
}

/// How a message is sent with its descriptor, and whether it is what was written.
fn sent(alloc: Global, cuts: &[Cut]) -> Option<(Ended, bool)> {
    let header = Header::new(FrontendReq::GET_FEATURES, 4, 8);
    let mut end = new_end(alloc, &[], cuts)?;
    let ended = end_of(&end.send_message(&header, &VhostUserU64::new(9), &[&FILE]));
    let taken = end.link().taken();
    let is_whole = taken.bytes() == REPLY.as_slice() && taken.handles(0).len() == 1;
    Some((ended, is_whole))
}

/// How a descriptor is sent without a byte.
fn bare(alloc: Global) -> Option<Ended> {
    let mut end = new_end(alloc, &[], &[])?;
    Some(end_of(&end.send_slice(&[], &[&FILE])))
}

#[test]
fn sends_a_message(rt: HostRuntime) {
    let torn = [Cut::Give(5), Cut::Fault(5)];
    assert!(rt; sent(rt.alloc(), &[Cut::Give(5)]) == Some((Ended::Done, true)));
    assert!(rt; sent(rt.alloc(), &torn) == Some((Ended::Faulted, false)));
    assert!(rt; bare(rt.alloc()) == Some(Ended::Refused));
}
