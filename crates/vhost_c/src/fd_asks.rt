//! Calls that give a file descriptor.

ghost use Rattle.std.specs.Prelude.{◌≡◌, Some, None};
ghost use Rattle.vhost_protocol.specs.FrontendCall as calls;
ghost use Rattle.vhost_frontend_core.specs.Values.{call_of};
ghost use Rattle.vhost_c_common.specs.Records.{handle_in};
ghost use Rattle.vhost_c.specs.Records.{log_in, call_with};
ghost use Rattle.vhost_c_frontend.specs.Session.{AsksBy, AsksWith, AsksNamed};
ghost use Rattle.vhost_message.specs.Transfer.{direction_at, phase_at};
ghost use Rattle.vhost_c.specs.declared.fd_asks.FdAsk.TheVariants.{SetLogFd, SetBackendRequestFd, SetInflightFd, SetDeviceStateFd};

use crate::asks::{asked, rejected};
use crate::holder::Holder;
use crate::regions::log_of;
use std::alloc::Global;
use vhost_c_common::{Inflight, Region, handle_of};
use vhost_frontend_core::FrontendCall;
use vhost_link::PlainHandle;
use vhost_message::{Error, VhostTransferStateDirection, VhostTransferStatePhase};

/// A call that gives a file descriptor, without it.
#[derive(Drop)]
pub(crate) enum FdAsk {
    SetLogFd,
    SetBackendRequestFd,
    SetInflightFd(Inflight),
    SetDeviceStateFd(VhostTransferStateDirection, VhostTransferStatePhase),
}

impl FdAsk {
    /// The call that gives this one.
    fn with(self, handle: PlainHandle) -> FrontendCall
        ensures { call_of result ≡ call_with self handle }
    {
        match self {
            FdAsk::SetLogFd => FrontendCall::SetLogFd(handle),
            FdAsk::SetBackendRequestFd => FrontendCall::SetBackendRequestFd(handle),
            FdAsk::SetInflightFd(inflight) => FrontendCall::SetInflightFd(inflight.data(), handle),
            FdAsk::SetDeviceStateFd(direction, phase) => {
                FrontendCall::SetDeviceStateFd(direction, phase, handle)
            }
        }
    }
}

/// Asks with this file descriptor.
///
/// InvalidParam: it is negative.
fn asked_with(alloc: Global, holder: &mut Holder, ask: FdAsk, fd: i32) -> u32
    ensures { AsksWith (handle_in fd) (call_with ask) holder.old.session result holder.new.session }
{
    match handle_of(fd) {
        Some(handle) => asked(alloc, holder, ask.with(handle)),
        None => rejected(alloc, holder, Error::InvalidParam),
    }
}

/// Gives the descriptor by which the backend signals that it logged.
#[unsafe(no_mangle)]
pub extern "C" fn covretin_ask_set_log_fd(alloc: Global, session: &mut Holder, fd: i32) -> u32
    ensures { AsksWith (handle_in fd) (call_with SetLogFd) session.old.session result session.new.session }
{
    asked_with(alloc, session, FdAsk::SetLogFd, fd)
}

/// Gives the call descriptor, by which the backend signals used buffers; negative: none, and the driver polls.
#[unsafe(no_mangle)]
pub extern "C" fn covretin_ask_set_vring_call(
    alloc: Global,
    session: &mut Holder,
    index: usize,
    fd: i32,
) -> u32
    ensures { AsksBy (calls.SetVringCall index (handle_in fd)) session.old.session result session.new.session }
{
    let call = FrontendCall::SetVringCall(index, handle_of(fd));
    asked(alloc, session, call)
}

/// Gives the kick descriptor, by which the driver signals available buffers; negative: none, and the backend polls.
#[unsafe(no_mangle)]
pub extern "C" fn covretin_ask_set_vring_kick(
    alloc: Global,
    session: &mut Holder,
    index: usize,
    fd: i32,
) -> u32
    ensures { AsksBy (calls.SetVringKick index (handle_in fd)) session.old.session result session.new.session }
{
    let call = FrontendCall::SetVringKick(index, handle_of(fd));
    asked(alloc, session, call)
}

/// Gives the error descriptor, by which the backend signals an error of a ring; negative: none.
#[unsafe(no_mangle)]
pub extern "C" fn covretin_ask_set_vring_err(
    alloc: Global,
    session: &mut Holder,
    index: usize,
    fd: i32,
) -> u32
    ensures { AsksBy (calls.SetVringErr index (handle_in fd)) session.old.session result session.new.session }
{
    let call = FrontendCall::SetVringErr(index, handle_of(fd));
    asked(alloc, session, call)
}

/// Gives the socket of the backend channel, on which the backend may send requests.
#[unsafe(no_mangle)]
pub extern "C" fn covretin_ask_set_backend_request_fd(
    alloc: Global,
    session: &mut Holder,
    fd: i32,
) -> u32
    ensures { AsksWith (handle_in fd) (call_with SetBackendRequestFd) session.old.session result session.new.session }
{
    asked_with(alloc, session, FdAsk::SetBackendRequestFd, fd)
}

/// Gives the inflight region.
#[unsafe(no_mangle)]
pub extern "C" fn covretin_ask_set_inflight_fd(
    alloc: Global,
    session: &mut Holder,
    inflight: &Inflight,
    fd: i32,
) -> u32
    ensures { AsksWith (handle_in fd) (call_with (SetInflightFd inflight.now)) session.old.session result session.new.session }
{
    asked_with(alloc, session, FdAsk::SetInflightFd(*inflight), fd)
}

/// Sets where the log of dirty pages begins, and where it is kept: a part of what the region's descriptor maps.
#[unsafe(no_mangle)]
pub extern "C" fn covretin_ask_set_log_base(
    alloc: Global,
    session: &mut Holder,
    base: u64,
    region: &Region,
) -> u32
    ensures { AsksBy (calls.SetLogBase base (Some (log_in region.now))) session.old.session result session.new.session }
{
    let call = FrontendCall::SetLogBase(base, Some(log_of(region)));
    asked(alloc, session, call)
}

/// Sets where the log of dirty pages begins, and nothing more.
#[unsafe(no_mangle)]
pub extern "C" fn covretin_ask_set_log_base_alone(
    alloc: Global,
    session: &mut Holder,
    base: u64,
) -> u32
    ensures { AsksBy (calls.SetLogBase base None) session.old.session result session.new.session }
{
    asked(alloc, session, FrontendCall::SetLogBase(base, None))
}

/// Begins a transfer of the backend's state over a file descriptor.
#[unsafe(no_mangle)]
pub extern "C" fn covretin_ask_set_device_state_fd(
    alloc: Global,
    session: &mut Holder,
    direction: u32,
    phase: u32,
    fd: i32,
) -> u32
    ensures { AsksNamed (direction_at direction) (λ d. AsksNamed (phase_at phase) (λ p. AsksWith (handle_in fd) (call_with (SetDeviceStateFd d p)))) session.old.session result session.new.session }
{
    let Ok(direction) = VhostTransferStateDirection::try_from(direction) else {
        return rejected(alloc, session, Error::InvalidParam);
    };
    let Ok(phase) = VhostTransferStatePhase::try_from(phase) else {
        return rejected(alloc, session, Error::InvalidParam);
    };
    asked_with(
        alloc,
        session,
        FdAsk::SetDeviceStateFd(direction, phase),
        fd,
    )
}
