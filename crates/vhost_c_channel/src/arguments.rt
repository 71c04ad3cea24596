//! Calls of a frontend's side: their numbers, and their arguments by form.

ghost use Rattle.std.specs.Prelude.{◌≡◌};
ghost use Rattle.vhost_c_channel.specs.Arguments.{call_number, mmap_arg, fd_arg, PutsName, PutsNamed};

use crate::records::Mmap;
use vhost_c_common::{Refusal, fd_of};
use vhost_frontend_req_handler::FrontendSideCall;
use vhost_link::PlainHandle;
use vhost_message::VhostUserSharedMsg;

type Outcome<T> = std::result::Result<T, Refusal>;

/// The number of `enum covretin_channel_call`.
pub(crate) fn number_of_call(call: &FrontendSideCall<PlainHandle>) -> u32
    ensures { result ≡ call_number call.now }
{
    match call {
        FrontendSideCall::ConfigChange => 2,
        FrontendSideCall::SharedObjectAdd(_) => 6,
        FrontendSideCall::SharedObjectRemove(_) => 7,
        FrontendSideCall::SharedObjectLookup(_, _) => 8,
        FrontendSideCall::ShmemMap(_, _) => 9,
        FrontendSideCall::ShmemUnmap(_) => 10,
    }
}

/// A mapping.
pub(crate) fn mmap_of(call: &FrontendSideCall<PlainHandle>) -> Option<Mmap>
    ensures { result ≡ mmap_arg call.now }
{
    match call {
        FrontendSideCall::ShmemMap(mapping, _) | FrontendSideCall::ShmemUnmap(mapping) => {
            Some(Mmap::of(mapping))
        }
        _ => None,
    }
}

/// A file descriptor.
pub(crate) fn fd_of_call(call: &FrontendSideCall<PlainHandle>) -> Option<i32>
    ensures { result ≡ fd_arg call.now }
{
    match call {
        FrontendSideCall::SharedObjectLookup(_, handle) | FrontendSideCall::ShmemMap(_, handle) =>
            Some(fd_of(*handle)),
        _ => None,
    }
}

/// Writes the name of a shared object to the start of a place.
///
/// NoRoom: the place is too small. OtherCall: the call has no name. After both, nothing was written.
pub(crate) fn put_name(call: &FrontendSideCall<PlainHandle>, place: &mut [u8]) -> Outcome<()>
    ensures { PutsName call.now place.old place.new result }
{
    match call {
        FrontendSideCall::SharedObjectAdd(name)
        | FrontendSideCall::SharedObjectRemove(name)
        | FrontendSideCall::SharedObjectLookup(name, _) => put(name, place),
        _ => Err(Refusal::OtherCall),
    }
}

/// Writes a name to the start of a place.
fn put(name: &VhostUserSharedMsg, place: &mut [u8]) -> Outcome<()>
    ensures { PutsNamed name.now.uuid place.old place.new result }
{
    if place.len() < 16 {
        return Err(Refusal::NoRoom);
    }
    place[..16].copy_from_slice(name.uuid.as_bytes());
    Ok(())
}
