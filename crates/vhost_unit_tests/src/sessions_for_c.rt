//! Sessions for programs in C, joined, and one that judges: what no program in C can call.

use std::alloc::{AllocError, Global};
use std::collections::VecDeque;
use vhost_c_backend::Reply;
use vhost_c_joined::{Exchange, joined_run, judged_run};
use vhost_frontend_core::{FrontendAnswer, FrontendCall};

/// GET_FEATURES, and a reply to it: the feature 32.
static GET_FEATURES: [u8; 12] = [1, 0, 0, 0, 1, 0, 0, 0, 0, 0, 0, 0];

static FEATURES: [u8; 20] = [1, 0, 0, 0, 5, 0, 0, 0, 8, 0, 0, 0, 0, 0, 0, 0, 1, 0, 0, 0];

/// It owns its backend, and asks for its features.
fn two_calls(alloc: Global) -> Result<VecDeque<FrontendCall>, AllocError> {
    let mut calls = VecDeque::new(alloc);
    calls.push_back(FrontendCall::SetOwner)?;
    calls.push_back(FrontendCall::GetFeatures)?;
    Ok(calls)
}

/// The number that an answer is, unless the session has ended that gave it.
fn number_in(answer: &FrontendAnswer, ended: bool) -> Option<u64> {
    match answer {
        FrontendAnswer::Number(number) if !ended => Some(*number),
        _ => None,
    }
}

/// What a frontend that has owned its backend hears of a device with these features. Each message goes in pieces of one byte, of
/// seven, and of the rest.
fn heard(alloc: Global, features: u64) -> Option<u64> {
    let mut calls = two_calls(alloc).ok()?;
    let replies = [Reply::Done, Reply::Number(features)];
    match joined_run(alloc, 1, &mut calls, &replies, &[1, 7]) {
        Ok((front, back)) => number_in(front.answer(), back.ended()),
        Err(_) => None,
    }
}

/// Whether a session writes this reply to GET_FEATURES, where its device answers as the reply says.
fn is_right(alloc: Global, reply: &[u8]) -> Option<bool> {
    let exchange = Exchange {
        request: &GET_FEATURES,
        request_fds: &[],
        reply,
        reply_fds: &[],
    };
    let (right, _) = judged_run(alloc, &[exchange]).ok()?;
    Some(right)
}

#[test]
fn joined_and_judged(rt: HostRuntime) {
    assert!(rt; heard(rt.alloc(), 1 << 32) == Some(1 << 32));
    assert!(rt; is_right(rt.alloc(), &FEATURES) == Some(true));
    let mut request = FEATURES;
    request[4] = 1;
    assert!(rt; is_right(rt.alloc(), &request) == Some(false));
}
