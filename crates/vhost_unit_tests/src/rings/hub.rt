//! Ends of links that travel as file descriptors.

use crate::link::no_duplicate;
use crate::rings::part::{Part, handle, new_hub, pair, pair_in, receive, send};
use crate::texts::is_text;
use std::alloc::{AllocError, Global};
use std::sync::{Arc, Wait};
use vhost_link::{Hub, Link, PlainHandle, SharedLink};
use vhost_message::IoCause;

/// Why a file descriptor opens no link, where a name says it.
fn refusal<L: Link>(link: &L, handle: L::Handle) -> &'static str {
    match link.of_handle(handle) {
        Err(IoCause::Named(name)) => name,
        _ => "",
    }
}

/// An end of a new link, and the number of its other end.
fn registered<'a, R: Wait>(
    rt: &'a R,
    alloc: Global,
    hub: &Arc<Hub, Global>,
) -> Result<(SharedLink<&'a R>, u32), AllocError> {
    let (near, other) = pair_in(rt, alloc, hub)?;
    let number = hub.register(rt, other.into_ends())?;
    Ok((near, number))
}

/// What comes over the end of this number, once it is opened.
fn comes<R: Wait>(
    alloc: Global,
    link: &SharedLink<&R>,
    number: u32,
) -> Result<Option<Part>, AllocError> {
    match link.of_handle(handle(number)) {
        Ok(mut opened) => receive(&mut opened, alloc, 64),
        Err(_) => Ok(None),
    }
}

/// Why this number opens no link, and why 2 opens none.
fn refusals<L: Link<Handle = PlainHandle>>(link: &L, number: u32) -> [&'static str; 2] {
    [refusal(link, handle(number)), refusal(link, handle(2))]
}

/// What an end sends, what comes over the end of this number, and why it opens no second time, and 2 not at all.
fn opened<R: Wait>(
    alloc: Global,
    link: &mut SharedLink<&R>,
    number: u32,
) -> Result<String, AllocError> {
    let sent = send(link, &[5], &[]);
    let part = comes(alloc, link, number)?;
    let [again, none] = refusals(link, number);
    format!(in alloc; "{sent:?} {part:?} {again}, {none}")
}

/// The number of a new end, and how it is opened.
fn opens_second<R: Wait>(
    rt: &R,
    alloc: Global,
    hub: &Arc<Hub, Global>,
) -> Result<String, AllocError> {
    let (mut inner, number) = registered(rt, alloc, hub)?;
    let shown = opened(alloc, &mut inner, number)?;
    format!(in alloc; "{number} {shown}")
}

/// The numbers of two ends, and how the second is opened.
fn opens<R: Wait>(rt: &R, alloc: Global, hub: &Arc<Hub, Global>) -> Result<String, AllocError> {
    let (_near, first) = registered(rt, alloc, hub)?;
    let second = opens_second(rt, alloc, hub)?;
    format!(in alloc; "{first} {second}")
}

/// The same in a new hub.
fn opens_in_a_hub<R: Wait>(rt: &R, alloc: Global) -> Result<String, AllocError> {
    let hub = new_hub(alloc)?;
    opens(rt, alloc, &hub)
}

#[test]
fn opens_each_end_once(rt: HostRuntime) {
    let want = "0 1 Ok(1) Some(Part { bytes: [5], handles: [] }) no such end, no such end";
    assert!(rt; is_text(opens_in_a_hub(&rt, rt.alloc()), want));
}

/// Why a link between threads has no duplicate.
fn stays_one<R: Wait>(rt: &R, alloc: Global) -> Result<&'static str, AllocError> {
    let (near, _far) = pair(rt, alloc)?;
    Ok(no_duplicate(&near))
}

#[test]
fn has_no_duplicate(rt: HostRuntime) {
    assert!(rt; stays_one(&rt, rt.alloc()) == Ok("link cannot be duplicated"));
}
