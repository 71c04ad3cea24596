//! What a link in memory refuses.

use std::alloc::Global;
use vhost_link::{Link, MemLink};
use vhost_message::IoCause;

/// Why a link has no duplicate, where a name says it.
pub(crate) fn no_duplicate<L: Link>(link: &L) -> &'static str {
    match link.duplicate() {
        Err(IoCause::Named(name)) => name,
        _ => "",
    }
}

/// Why a new link in memory has no duplicate.
fn new_one_has_no_duplicate(alloc: Global) -> &'static str {
    let link = MemLink::new(alloc, Vec::new(alloc));
    no_duplicate(&link)
}

#[test]
fn has_no_duplicate(rt: HostRuntime) {
    assert!(rt; new_one_has_no_duplicate(rt.alloc()) == "link cannot be duplicated");
}
