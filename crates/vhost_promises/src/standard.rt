//! The example device behind a handler under the profile Standard, with exact answers.

ghost use Rattle.std.specs.Prelude.{◌≡◌, false, IfOk};
ghost use Rattle.std.specs.List.{list_any};
ghost use Rattle.vhost_backend_req_handler.specs.Core.{endpoint_of, session_in};
ghost use Rattle.vhost_connection.specs.State.{fresh as new_endpoint};
ghost use Rattle.vhost_dummy_backend.specs.Dummy.{fresh as new_device};
ghost use Rattle.vhost_protocol.specs.Session.{fresh as new_session};
ghost use Rattle.vhost_protocol.specs.Stream.{plain};
ghost use Rattle.vhost_promises.specs.Runs.{answer_of_link};
ghost use Rattle.vhost_promises.specs.Standard.{GoesOn, holding_two, two_requests};
ghost use Rattle.vhost_connection.specs.Memory.{stream};

use crate::runs::serves_whole;
use std::alloc::Global;
use vhost_backend_req_handler::SessionCore;
use vhost_connection::talks_law;
use vhost_dummy_backend::DummyBackendReqHandler;
use vhost_link::{Cut, MemLink, PlainHandle};
use vhost_message::{Error, Result};
use vhost_protocol::Profile;

/// The example device, over links in memory.
type Device = DummyBackendReqHandler<MemLink>;

/// Under Standard, serves two requests of a stream that holds them: one that nobody serves, and one for an owner. However the link splits the
/// stream, the first has an error of its own, nothing is written, and the device has an owner after the second; unless one of the answers is
/// an error that a link or a failed allocation may bring.
pub fn goes_on_unserved(
    alloc: Global,
    core: &mut SessionCore<MemLink>,
    device: &mut Device,
) -> Result<Vec<Result<()>>>
    ensures { IfOk result (λ answers. session_in core.old ≡ new_session → device.old.owned ≡ false → stream (endpoint_of core.old) ≡ plain two_requests
        → list_any answer_of_link answers.items ≡ false → GoesOn device.old (endpoint_of core.old) answers.items (endpoint_of core.new) (session_in core.new) device.new) }
{
    talks_law();
    core.set_profile(Profile::Standard);
    serves_whole(alloc, core, device, 2)
}

/// A new handler over a new example device, whose link in memory holds the two requests and splits them as the script says, serves them.
///
/// OutOfMemory: an allocation failed.
pub fn goes_on_unserved_new(
    alloc: Global,
    spare: Vec<PlainHandle>,
    script: Vec<Cut>,
    budget: u32,
) -> Result<(SessionCore<MemLink>, Device, Vec<Result<()>>)>
    ensures { IfOk result (λ run. list_any answer_of_link run.2.items ≡ false
        → GoesOn (new_device alloc spare.items) (new_endpoint (holding_two script.items) budget) run.2.items (endpoint_of run.0) (session_in run.0) run.1) }
{
    let mut device = DummyBackendReqHandler::new(alloc, spare);
    let mut core = SessionCore::new(alloc, holds_two(alloc, script)?, budget)?;
    let answers = goes_on_unserved(alloc, &mut core, &mut device)?;
    Ok((core, device, answers))
}

/// A link in memory that holds the two requests.
fn holds_two(alloc: Global, script: Vec<Cut>) -> Result<MemLink>
    ensures { IfOk result (λ link. link ≡ holding_two script.items) }
{
    let mut link = MemLink::new(alloc, script);
    let requests = [
        88, 2, 0, 0, 1, 0, 0, 0, 8, 0, 0, 0, 0, 0, 0, 0, 0, 0, 0, 0, 3, 0, 0, 0, 1, 0, 0, 0, 0, 0,
        0, 0,
    ];
    match link.push(&requests, &[]) {
        Ok(()) => Ok(link),
        Err(_) => Err(Error::OutOfMemory),
    }
}
