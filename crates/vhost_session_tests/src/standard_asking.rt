//! A frontend whose backend refuses a request by a reply without a body goes on, run once with the premises of that consequence met.

use std::alloc::Global;
use vhost_frontend::{Call, Quiet};
use vhost_link::{Link, MemLink};
use vhost_message::{Error, Result, VhostUserProtocolFeatures};
use vhost_promises::goes_on_without_config;

/// Replies to GET_FEATURES: 0x40000000, then 0, which offers no protocol features any more.
static OFFERS: [u8; 40] = [
    1, 0, 0, 0, 5, 0, 0, 0, 8, 0, 0, 0, 0, 0, 0, 0x40, 0, 0, 0, 0, 1, 0, 0, 0, 5, 0, 0, 0, 8, 0, 0,
    0, 0, 0, 0, 0, 0, 0, 0, 0,
];

/// A reply to GET_CONFIG without a body, and one to GET_FEATURES: 0x40000003.
static REFUSES: [u8; 32] = [
    24, 0, 0, 0, 5, 0, 0, 0, 0, 0, 0, 0, 1, 0, 0, 0, 5, 0, 0, 0, 8, 0, 0, 0, 3, 0, 0, 0x40, 0, 0,
    0, 0,
];

/// A frontend that remembers CONFIG alone, since bit 30 is offered no more.
fn remembers_config<L: Link>(frontend: &mut Quiet<L>) -> Result<()> {
    frontend.number(&Call::GetFeatures)?;
    frontend.done(&Call::SetProtocolFeatures(VhostUserProtocolFeatures::CONFIG))?;
    frontend.number(&Call::GetFeatures)?;
    Ok(())
}

/// The same, with what comes to it next.
fn with_config(alloc: Global) -> Result<Quiet<MemLink>> {
    let mut link = MemLink::new(alloc, Vec::new(alloc));
    if link.push(&OFFERS, &[]).is_err() || link.push(&REFUSES, &[]).is_err() {
        return Err(Error::OutOfMemory);
    }
    let mut frontend = Quiet::new(alloc, link, 1, 0)?;
    remembers_config(&mut frontend)?;
    Ok(frontend)
}

/// What it is answered: whether the configuration is refused, and the features.
fn goes_on(alloc: Global) -> Result<(bool, u64)> {
    let mut frontend = with_config(alloc)?;
    let (config, features) = goes_on_without_config(&mut frontend);
    let refused = matches!(config, Err(Error::BackendInternalError));
    Ok((refused, features?))
}

#[test]
fn a_frontend_goes_on_without_config(rt: HostRuntime) {
    assert!(rt; goes_on(rt.alloc()).ok() == Some((true, 0x4000_0003)));
}
