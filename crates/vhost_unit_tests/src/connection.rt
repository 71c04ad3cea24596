//! What a caller knows once it has let go of what an endpoint lent, and where sending goes on.

ghost use Rattle.std.specs.Prelude.{◌≡◌, None, OnOk};
ghost use Rattle.vhost_connection.specs.State.{state};

use std::alloc::Global;
use vhost_connection::{Endpoint, get_sub_iovs_offset};
use vhost_link::{Link, MemLink};
use vhost_message::{FrontendReq, MsgHeader, Result, VhostUserMsgHeader};

/// Receives eight bytes, and sends a header once it has looked at them.
#[tactic(auto, unfolding(vhost_connection::specs::State::ahead_of))]
fn looks_and_sends<M: MsgHeader, L: Link>(end: &mut Endpoint<M, L>, header: &M) -> Result<u8>
    ensures sound { OnOk result ((state end.new).broken ≡ None) }
    ensures budget { OnOk result ((state end.new).budget ≡ (state end.old).budget) }
{
    let (count, bytes) = end.recv_data(8)?;
    let first = if count > 0 { bytes[0] } else { 0 };
    end.send_header(header, &[])?;
    Ok(first)
}

/// Puts another link in the place of the one below.
#[tactic(auto, unfolding(vhost_connection::specs::State::ahead_of))]
fn relink<M: MsgHeader, L: Link>(end: &mut Endpoint<M, L>, link: L)
    ensures { state end.new ≡ record (state end.old) { link = link } }
{
    *end.link() = link;
}

type Header = VhostUserMsgHeader<FrontendReq>;

/// An endpoint whose link has been replaced by one on which three bytes came.
fn relinked(alloc: Global) -> Option<Endpoint<Header, MemLink>> {
    let mut link = MemLink::new(alloc, Vec::new(alloc));
    link.push(&[9, 8, 7], &[]).ok()?;
    let empty = MemLink::new(alloc, Vec::new(alloc));
    let mut end = Endpoint::from_stream(alloc, empty, 0).ok()?;
    relink(&mut end, link);
    Some(end)
}

/// The first byte that came, and how many bytes were then sent.
fn goes_on(end: &mut Endpoint<Header, MemLink>) -> (Option<u8>, usize) {
    let header = VhostUserMsgHeader::new(FrontendReq::SET_OWNER, 0, 0);
    let first = looks_and_sends(end, &header).ok();
    (first, end.link().taken().len())
}

/// The same of a new endpoint.
fn new_one_goes_on(alloc: Global) -> Option<(Option<u8>, usize)> {
    let mut end = relinked(alloc)?;
    Some(goes_on(&mut end))
}

#[test]
fn lends_and_goes_on(rt: HostRuntime) {
    assert!(rt; new_one_goes_on(rt.alloc()) == Some((Some(9), 12)));
}

/// Which of several pieces comes next where so many bytes of them went, and how many bytes of it went.
#[test]
fn goes_on_behind_what_went(rt: HostRuntime) {
    let found = [
        get_sub_iovs_offset(&[4, 4, 5], 6),
        get_sub_iovs_offset(&[4, 4, 5], 8),
        get_sub_iovs_offset(&[4, 4, 5], 13),
        get_sub_iovs_offset(&[4], 9),
    ];
    assert!(rt; found == [(1, 2), (2, 0), (3, 0), (1, 5)]);
}
