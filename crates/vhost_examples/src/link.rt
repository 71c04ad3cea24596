//! A link of one's own, and an endpoint that sends whole messages over it.

use crate::loopback::Loopback;
use vhost_connection::Endpoint;
use vhost_link::Link;
use vhost_message::{FrontendReq, VhostUserMsgHeader, VhostUserU64};

type Header = VhostUserMsgHeader<FrontendReq>;

/// The retry limit of each message. This link never asks for a retry.
const BUDGET: u32 = 3;

/// Prints the message that comes next.
fn show_message<L: Link>(
    rt: &HostRuntime,
    endpoint: &mut Endpoint<Header, L>,
) -> anyhow::Result<()> {
    let (header, body, _) = endpoint.recv_body::<VhostUserU64>()?;
    let (code, size) = (header.get_code()?, header.get_size());
    println!(rt; "{code:?} of {size} bytes: {:#x}", body.value)?;
    Ok(())
}

/// Prints that no message comes any more.
fn show_end<L: Link>(rt: &HostRuntime, endpoint: &mut Endpoint<Header, L>) -> anyhow::Result<()> {
    match endpoint.recv_header() {
        Ok(_) => println!(rt; "one more")?,
        Err(error) => println!(rt; "then: {error}")?,
    }
    Ok(())
}

/// Sends SET_FEATURES to itself, reads it again, and finds the end of the stream.
fn talk<L: Link>(rt: &HostRuntime, endpoint: &mut Endpoint<Header, L>) -> anyhow::Result<()> {
    let header = Header::new(FrontendReq::SET_FEATURES, 0, 8);
    endpoint.send_message(&header, &VhostUserU64::new(0x4000_0001), &[])?;
    show_message(rt, endpoint)?;
    show_end(rt, endpoint)
}

pub(crate) fn run(rt: &HostRuntime) -> anyhow::Result<()> {
    let link = Loopback::new(rt.alloc());
    let mut endpoint = Endpoint::from_stream(rt.alloc(), link, BUDGET)?;
    talk(rt, &mut endpoint)
}
