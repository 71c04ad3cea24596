//! Asks a backend as a VMM does, over a link in memory that holds the backend's replies.

use bitflags::Flags;
use std::alloc::Global;
use vhost_frontend::{Call, Quiet};
use vhost_link::{Link, MemLink};
use vhost_message::{Result, VhostUserConfigFlags, VhostUserHeaderFlag, VhostUserProtocolFeatures};

/// How many rings the frontend has at first, and the retry limit of each message.
const RINGS: u64 = 2;

const BUDGET: u32 = 3;

/// What the backend replies, in order: virtio features (bits 0 and 30), protocol features (CONFIG and REPLY_ACK), two
/// acknowledgements, and four bytes of the configuration space at 0x100.
const ANSWERS: [&[u8]; 5] = [
    &[
        1, 0, 0, 0, 5, 0, 0, 0, 8, 0, 0, 0, 1, 0, 0, 0x40, 0, 0, 0, 0,
    ],
    &[15, 0, 0, 0, 5, 0, 0, 0, 8, 0, 0, 0, 8, 2, 0, 0, 0, 0, 0, 0],
    &[3, 0, 0, 0, 5, 0, 0, 0, 8, 0, 0, 0, 0, 0, 0, 0, 0, 0, 0, 0],
    &[8, 0, 0, 0, 5, 0, 0, 0, 8, 0, 0, 0, 1, 0, 0, 0, 0, 0, 0, 0],
    &[
        24, 0, 0, 0, 5, 0, 0, 0, 16, 0, 0, 0, 0, 1, 0, 0, 4, 0, 0, 0, 0, 0, 0, 0, 1, 2, 3, 4,
    ],
];

/// Negotiates features with the backend, and wants each request acknowledged from then on; the protocol features that were
/// accepted.
fn negotiate<L: Link>(frontend: &mut Quiet<L>) -> Result<VhostUserProtocolFeatures> {
    let features = frontend.number(&Call::GetFeatures)?;
    frontend.done(&Call::SetFeatures(features))?;
    let features = frontend.features(&Call::GetProtocolFeatures)?;
    frontend.done(&Call::SetProtocolFeatures(features))?;
    frontend.set_hdr_flags(VhostUserHeaderFlag::NEED_REPLY);
    Ok(features)
}

/// Prints what a call answered.
fn show<T: Drop>(rt: &HostRuntime, name: &str, answer: Result<T>) -> anyhow::Result<()> {
    match answer {
        Ok(_) => println!(rt; "{name}: ok")?,
        Err(error) => println!(rt; "{name}: {error}")?,
    }
    Ok(())
}

/// Owns the backend, and sets up its rings.
fn set_up<L: Link>(rt: &HostRuntime, frontend: &mut Quiet<L>) -> anyhow::Result<()> {
    show(rt, "set_owner", frontend.done(&Call::SetOwner))?;
    let answer = frontend.done(&Call::SetVringNum(0, 1000));
    show(rt, "set_vring_num of ring 0", answer)?;
    let answer = frontend.done(&Call::SetVringNum(2, 256));
    show(rt, "set_vring_num of ring 2", answer)
}

/// Prints four bytes of the configuration space.
fn show_config<L: Link>(rt: &HostRuntime, frontend: &mut Quiet<L>) -> anyhow::Result<()> {
    let buffer = [0; 4];
    let asked = Call::GetConfig(0x100, 4, VhostUserConfigFlags::empty(), &buffer);
    let (part, bytes) = frontend.config(&asked)?;
    println!(rt; "get_config at {:#x}: {:?}", part.offset, bytes.as_slice())?;
    Ok(())
}

/// Makes a few calls, and prints what each answered.
fn ask<L: Link>(rt: &HostRuntime, frontend: &mut Quiet<L>) -> anyhow::Result<()> {
    let features = negotiate(frontend)?;
    println!(rt; "protocol features: {:#x}", features.bits())?;
    set_up(rt, frontend)?;
    show_config(rt, frontend)?;
    let answer = frontend.ring_index(&Call::GetVringBase(1));
    show(rt, "get_vring_base of ring 1", answer)
}

/// A link that holds the replies.
fn link_of_answers(alloc: Global) -> anyhow::Result<MemLink> {
    let mut link = MemLink::new(alloc, Vec::new(alloc));
    for answer in &ANSWERS {
        link.push(answer, &[])?;
    }
    Ok(link)
}

/// A session over that link.
fn open(alloc: Global) -> anyhow::Result<Quiet<MemLink>> {
    let link = link_of_answers(alloc)?;
    Ok(Quiet::new(alloc, link, RINGS, BUDGET)?)
}

pub(crate) fn run(rt: &HostRuntime) -> anyhow::Result<()> {
    ask(rt, &mut open(rt.alloc())?)
}
