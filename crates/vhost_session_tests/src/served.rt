//! Streams of requests, served one by one, whose answers and replies are known from outside.

mod hostile;
mod rows;
mod streams;

use crate::example::Example;
use bitflags::Flags;
use std::alloc::Global;
use vhost_backend_req_handler::SessionCore;
use vhost_link::{Cut, Kind, MemLink, PlainHandle};
use vhost_message::{Error, IoCause, MAX_ATTACHED_FD_ENTRIES, Result as Answer};

/// How a request was answered.
#[derive(Clone, Copy, Debug, PartialEq, Eq)]
enum End {
    /// It was served.
    Done,
    /// The session has ended, or its stream.
    Gone,
    Partial,
    /// It was refused for what it says, as a parameter or as a message.
    Param,
    Message,
    /// It was refused for the state of the device, or for a feature that was not agreed on.
    Operation,
    Inactive(u64),
    /// It has not the descriptors that it wants.
    Descriptors,
    /// The link wants to be asked again; failed; or the endpoint is poisoned by that.
    Retry(i32),
    Failed(i32),
    Unconnected(i32),
    Broken(i32),
    Otherwise,
}

/// The number of a cause that has one.
fn number_of(cause: &IoCause) -> i32 {
    match cause {
        IoCause::Raw(number) => *number,
        _ => -1,
    }
}

/// How a link ended a request, if it did.
fn end_of_link(error: &Error) -> End {
    match error {
        Error::SocketRetry(cause) => End::Retry(number_of(cause)),
        Error::SocketError(cause) => End::Failed(number_of(cause)),
        Error::SocketConnect(cause) => End::Unconnected(number_of(cause)),
        Error::SocketBroken(cause) => End::Broken(number_of(cause)),
        _ => End::Otherwise,
    }
}

/// How a request was answered.
fn end_of(answer: &Answer<()>) -> End {
    match answer {
        Ok(()) => End::Done,
        Err(Error::Disconnected) => End::Gone,
        Err(Error::PartialMessage) => End::Partial,
        Err(Error::InvalidParam) => End::Param,
        Err(Error::InvalidMessage) => End::Message,
        Err(Error::InvalidOperation(_)) => End::Operation,
        Err(Error::InactiveOperation(feature)) => End::Inactive(feature.bits()),
        Err(Error::IncorrectFds) => End::Descriptors,
        Err(error) => end_of_link(error),
    }
}

/// Descriptors of this kind, in a list.
fn descriptors(alloc: Global, count: usize, kind: Kind) -> Option<Vec<PlainHandle>> {
    let mut handles = Vec::new(alloc);
    for _ in 0..count {
        handles.push(PlainHandle { id: 7, kind }).ok()?;
    }
    Some(handles)
}

/// What came to a session: the script of its link, bytes that came without descriptors, and bytes that came with some.
#[derive(Drop)]
struct Stream<'a> {
    script: &'a [Cut],
    first: &'a [u8],
    then: &'a [u8],
    count: usize,
    kind: Kind,
}

/// A session to which that came, if a link can bring so many descriptors at once. Three retries a message are what it takes.
fn session_of(alloc: Global, stream: &Stream<'_>) -> Option<SessionCore<MemLink>> {
    let mut link = MemLink::new(alloc, Vec::from_slice(alloc, stream.script).ok()?);
    let handles = descriptors(alloc, stream.count, stream.kind)?;
    if handles.len() > MAX_ATTACHED_FD_ENTRIES {
        return None;
    }
    link.push(stream.first, &[]).ok()?;
    link.push(stream.then, &handles).ok()?;
    SessionCore::new(alloc, link, 3).ok()
}

/// Whether one request after another is answered so.
fn ends<D: Example>(core: &mut SessionCore<MemLink>, device: &mut D, expected: &[End]) -> bool {
    let mut all = true;
    for end in expected {
        let answer = core.handle_request(device);
        if end_of(&answer) != *end {
            all = false;
        }
    }
    all
}

/// Whether a stream is answered so, and these bytes go out, whole or up to where the link failed.
fn serves<D: Example>(alloc: Global, stream: &Stream<'_>, expected: &[End], out: &[u8]) -> bool {
    let Some(mut core) = session_of(alloc, stream) else {
        return false;
    };
    let mut device = D::fresh(alloc);
    ends(&mut core, &mut device, expected) && core.endpoint_mut().link().taken().bytes() == out
}
