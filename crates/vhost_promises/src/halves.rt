//! Serving and asking in two halves.

ghost use Rattle.std.specs.Prelude.{◌≡◌, None, false, is_some};
ghost use Rattle.vhost_backend_req_handler.specs.Core.{endpoint_of, session_in};
ghost use Rattle.vhost_backend_req_handler.specs.Opening.{OpensAsBackend, OpensAsGpu};
ghost use Rattle.vhost_backend_req_handler.specs.Serving.{HandlesOne};
ghost use Rattle.vhost_frontend.specs.Whole.{Whole};
ghost use Rattle.vhost_frontend_core.specs.Frontend.{MayAsk};
ghost use Rattle.vhost_frontend_req_handler.specs.Core.{endpoint_of as channel_of, server_in};
ghost use Rattle.vhost_frontend_req_handler.specs.Handling.{HandlesOne as AnswersOne};
ghost use Rattle.vhost_protocol.specs.FrontendCall as value;
ghost use Rattle.vhost_device.specs.Reached.{by_trait};

use vhost_backend_req_handler::{SessionCore, halves_law};
use vhost_device::VhostUserBackendReqHandlerMut;
use vhost_frontend_core::FrontendInternal;
use vhost_frontend_req_handler::{
    FrontendReqCore, VhostUserFrontendReqHandlerMut, call_device, halves_law as channel_law,
};
use vhost_link::Link;
use vhost_message::{Error, Result};

/// A request is served in two halves, with a device between them: that is one call of a handler with this device.
pub fn serves_by_halves<L: Link, D: VhostUserBackendReqHandlerMut<Link = L>>(
    core: &mut SessionCore<L>,
    device: &mut D,
) -> Result<()>
    requires { is_some core.old.pending ≡ false }
    ensures { (session_in core.old).failed ≡ None
        → HandlesOne L.event (by_trait D.gives) (λ h o. OpensAsBackend L.opens L.Handle.kinds (endpoint_of core.old).budget h o) (λ h o. OpensAsGpu L.opens L.Handle.kinds (endpoint_of core.old).budget h o) (endpoint_of core.old) (session_in core.old) device.old result (endpoint_of core.new) (session_in core.new) device.new }
{
    halves_law::<L, D>();
    match core.begin() {
        Ok(()) => match core.call_device(device) {
            Some(answer) => core.conclude(answer),
            None => Err(Error::InvalidMessage),
        },
        Err(error) => Err(error),
    }
}

/// A request of a backend is served in two halves, with a frontend's side between them: that is one call of a handler with
/// this side.
pub fn answers_by_halves<L: Link, D: VhostUserFrontendReqHandlerMut<Handle = L::Handle>>(
    core: &mut FrontendReqCore<L>,
    device: &mut D,
) -> Result<u64>
    requires { is_some core.old.pending ≡ false }
    ensures { (server_in core.old).failed ≡ None
        → AnswersOne L.event D.gives (channel_of core.old) (server_in core.old) device.old result (channel_of core.new) (server_in core.new) device.new }
{
    channel_law::<L, D>();
    match core.begin() {
        Ok(call) => {
            let answer = call_device(device, call);
            core.conclude(answer)
        }
        Err(error) => Err(error),
    }
}

/// A device's features are asked for in two halves: that is the call as a whole.
pub fn features_by_halves<L: Link>(frontend: &mut FrontendInternal<L>) -> Result<u64>
    requires { MayAsk frontend.old }
    ensures { Whole L.event value.GetFeatures value.Number frontend.old result frontend.new }
{
    match frontend.ask_get_features() {
        Ok(sent) => frontend.take_get_features(sent),
        Err(error) => Err(error),
    }
}

/// A device is claimed in two halves, whether or not an acknowledgement is awaited: that is the call as a whole.
pub fn claims_by_halves<L: Link>(frontend: &mut FrontendInternal<L>) -> Result<()>
    requires { MayAsk frontend.old }
    ensures { Whole L.event value.SetOwner (λ _. value.Nothing) frontend.old result frontend.new }
{
    match frontend.ask_set_owner() {
        Ok(sent) => frontend.take_set_owner(sent),
        Err(error) => Err(error),
    }
}
