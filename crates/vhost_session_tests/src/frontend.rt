//! Worked consequences of a frontend's calls, each run once.

use std::alloc::Global;
use std::sync::Wait;
use vhost_frontend::{Frontend, Quiet};
use vhost_frontend_core::{FrontendAnswer, FrontendCall, FrontendInternal};
use vhost_link::{Cut, MemLink};
use vhost_message::{Error, IoCause};
use vhost_promises::{
    asks_again, asks_broken, asks_without_memory, finds_sound, meets_fault_asking,
    meets_fault_calling, reads_features_new,
};

/// The reply to GET_FEATURES: 0x40000001.
static FEATURES: [u8; 20] = [
    1, 0, 0, 0, 5, 0, 0, 0, 8, 0, 0, 0, 1, 0, 0, 0x40, 0, 0, 0, 0,
];

/// What a new frontend reads of a reply, which comes in two pieces.
fn read_in_pieces(alloc: Global) -> Option<u64> {
    let cuts = vec![in alloc; Cut::Give(12), Cut::Give(3)].ok()?;
    let (_frontend, answer) = reads_features_new(alloc, cuts, 0).ok()?;
    answer.ok()
}

/// Which number of the system a call failed with, and whether it was the link's error or that the endpoint is poisoned.
fn failure(answer: FrontendAnswer) -> Option<(i32, bool)> {
    match answer {
        FrontendAnswer::Failed(Error::SocketError(IoCause::Raw(number))) => Some((number, false)),
        FrontendAnswer::Failed(Error::SocketBroken(IoCause::Raw(number))) => Some((number, true)),
        _ => None,
    }
}

/// What two calls of a ring's size are answered over a link with this script.
fn sizes_twice(alloc: Global, cuts: Vec<Cut>) -> Option<[Option<(i32, bool)>; 2]> {
    let mut frontend = FrontendInternal::new(alloc, MemLink::new(alloc, cuts), 4, 2).ok()?;
    let call = FrontendCall::SetVringNum(0, 128);
    let first = failure(meets_fault_calling(&mut frontend, &call));
    Some([first, failure(meets_fault_calling(&mut frontend, &call))])
}

/// The same over a link that fails after five bytes.
fn torn(alloc: Global) -> Option<[Option<(i32, bool)>; 2]> {
    let cuts = vec![in alloc; Cut::Give(5), Cut::Fault(5)].ok()?;
    sizes_twice(alloc, cuts)
}

/// Whether two calls failed since the endpoint is poisoned by the link's error 5.
fn are_broken(answers: &[Result<u64, Error>]) -> bool {
    matches!(
        answers,
        [
            Err(Error::SocketBroken(IoCause::Raw(5))),
            Err(Error::SocketBroken(IoCause::Raw(5)))
        ]
    )
}

/// Whether a call that the link's error 5 stops is answered so, and two after it that the endpoint is poisoned.
fn asked_broken(alloc: Global, cuts: Vec<Cut>) -> Option<[bool; 2]> {
    let mut quiet = Quiet::new(alloc, MemLink::new(alloc, cuts), 1, 0).ok()?;
    let is_torn = matches!(
        meets_fault_asking(&mut quiet),
        Err(Error::SocketError(IoCause::Raw(5)))
    );
    match asks_broken(alloc, &mut quiet, 2) {
        Ok(later) => Some([is_torn, are_broken(&later)]),
        Err(_) => None,
    }
}

/// The same over a link that fails after five bytes.
fn asked_where_it_tears(alloc: Global) -> Option<[bool; 2]> {
    let cuts = vec![in alloc; Cut::Give(5), Cut::Fault(5)].ok()?;
    asked_broken(alloc, cuts)
}

/// A link on which so many replies came.
fn replied(alloc: Global, count: usize) -> Option<MemLink> {
    let mut link = MemLink::new(alloc, Vec::new(alloc));
    for _ in 0..count {
        link.push(&FEATURES, &[]).ok()?;
    }
    Some(link)
}

/// What two calls of a shared frontend, one after another, are answered over this link.
fn asked_twice(rt: &impl Wait, alloc: Global, link: MemLink) -> Option<[Option<u64>; 2]> {
    let frontend = Frontend::from_stream(alloc, link, 1, 0).ok()?;
    let first = finds_sound(&frontend, rt).ok();
    Some([first, finds_sound(&frontend, rt).ok()])
}

/// The same over a link that fails once a part of the first request has gone, where both replies lie ready.
fn asked_where_torn(rt: &impl Wait, alloc: Global) -> Option<[Option<u64>; 2]> {
    let cuts = vec![in alloc; Cut::Give(5), Cut::Fault(5)].ok()?;
    let mut link = MemLink::new(alloc, cuts);
    link.push(&FEATURES, &[]).ok()?;
    link.push(&FEATURES, &[]).ok()?;
    asked_twice(rt, alloc, link)
}

/// The same over a link on which both replies came.
fn asked_where_sound(rt: &impl Wait, alloc: Global) -> Option<[Option<u64>; 2]> {
    asked_twice(rt, alloc, replied(alloc, 2)?)
}

/// Whether a new session sends a call by value that makes no room for its answer.
fn sends_without_memory(alloc: Global) -> Option<bool> {
    let link = MemLink::new(alloc, Vec::new(alloc));
    let mut frontend = FrontendInternal::new(alloc, link, 1, 0).ok()?;
    let sent = asks_without_memory(&mut frontend, &FrontendCall::GetFeatures);
    Some(matches!(sent, Ok(Some(_))))
}

/// Whether two calls, one after another, succeed.
fn asks_two(alloc: Global) -> Option<bool> {
    let mut quiet = Quiet::new(alloc, replied(alloc, 2)?, 1, 0).ok()?;
    Some(asks_again(&mut quiet, 2).is_ok())
}

pub(crate) fn hold(rt: &impl Wait, alloc: Global) -> [bool; 7] {
    let features = Some(0x4000_0001);
    [
        read_in_pieces(alloc) == Some(0x4000_0003),
        torn(alloc) == Some([Some((5, false)), Some((5, true))]),
        asked_where_it_tears(alloc) == Some([true; 2]),
        // The second call finds a session that is sound, unless the link has failed.
        asked_where_sound(rt, alloc) == Some([features, features]),
        asked_where_torn(rt, alloc) == Some([None, None]),
        sends_without_memory(alloc) == Some(true),
        asks_two(alloc) == Some(true),
    ]
}
