//! Rings between two threads. What they show is the same whatever the schedule.

use crate::rings::part::{pair, send};
use std::alloc::{AllocError, Global};
use std::sync::Wait;
use std::thread::{Threads, join, yield_now};
use vhost_link::{Link, SharedLink};
use vhost_message::MAX_ATTACHED_FD_ENTRIES;

/// Numbers from 0 on, each modulo 251.
fn numbers(alloc: Global, count: usize) -> Result<Vec<u8>, AllocError> {
    let mut all = Vec::new(alloc);
    for i in 0..count {
        all.push((i % 251) as u8)?;
    }
    Ok(all)
}

/// Sends all bytes, as there is room for them.
fn send_all<R: Wait>(rt: &R, link: &mut SharedLink<&R>, bytes: &[u8]) {
    let mut done = 0;
    for _ in rt.forever() {
        if done >= bytes.len() {
            return;
        }
        let sent = send(link, &bytes[done..], &[]).unwrap_or(0);
        done = done.saturating_add(sent);
        yield_now();
    }
}

/// Sends all bytes over a link, which then ends.
fn send_and_end<R: Wait>(rt: &R, mut link: SharedLink<&R>, bytes: &[u8]) {
    send_all(rt, &mut link, bytes);
}

/// Receives once, and puts what came behind all that did; how many bytes it was, and 0 at the end.
fn receive_more<L: Link>(
    link: &mut L,
    alloc: Global,
    all: &mut Vec<u8>,
) -> Result<usize, AllocError> {
    let mut room = [0; 64];
    let mut handles = Vec::with_capacity(alloc, MAX_ATTACHED_FD_ENTRIES)?;
    let count = link.recv(&mut room, &mut handles).unwrap_or(0).min(64);
    all.extend_from_slice(&room[..count])?;
    Ok(count)
}

/// All bytes that come until the end is reported, by receives that wait.
fn receive_all<L: Link>(mut link: L, alloc: Global) -> Result<Vec<u8>, AllocError> {
    let mut all = Vec::new(alloc);
    for _i in 0..100_000u32 {
        if receive_more(&mut link, alloc, &mut all)? == 0 {
            break;
        }
    }
    Ok(all)
}

/// What one thread receives of what another sends.
fn waits<R: Threads + Wait + Sync>(
    rt: &R,
    alloc: Global,
    bytes: &[u8],
) -> Result<Vec<u8>, AllocError> {
    let (near, far) = pair(rt, alloc)?;
    let (_, all) = join(
        rt,
        move || send_and_end(rt, near, bytes),
        move || receive_all(far, alloc),
    );
    all
}

/// Whether a thousand bytes come as they were sent.
fn are_same<R: Threads + Wait + Sync>(rt: &R, alloc: Global) -> Result<bool, AllocError> {
    let bytes = numbers(alloc, 1_000)?;
    Ok(waits(rt, alloc, &bytes)? == bytes)
}

#[test]
fn wakes_and_tells_the_end(rt: HostRuntime) {
    assert!(rt; are_same(&rt, rt.alloc()) == Ok(true));
}
