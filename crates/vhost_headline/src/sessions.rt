//! The theorem's second and third statement of the other sessions, and of a queue.

ghost use Rattle.std.specs.Prelude.{◌≡◌, ◌≢◌, ℕ, ℤ, List, Some, None, Err, IfOk, IfErr, OnErr, length};
ghost use Rattle.vhost_backend_req.specs.Channel.{channel};
ghost use Rattle.vhost_backend_req.specs.Halves.{AsksValue, TakesHalf, input_of};
ghost use Rattle.vhost_frontend_core.specs.Frontend.{IsAwaited, MayAsk};
ghost use Rattle.vhost_frontend_core.specs.ValueHalves.{AsksWell, TakesValue};
ghost use Rattle.vhost_frontend_core.specs.Values.{call_in};
ghost use Rattle.vhost_frontend_req_handler.specs.Core.{endpoint_of, server_in};
ghost use Rattle.vhost_frontend_req_handler.specs.Handling.{HandlesOne, Runs};
ghost use Rattle.vhost_gpu_backend_req.specs.Channel.{channel as display_channel};
ghost use Rattle.vhost_gpu_backend_req.specs.Halves.{AsksHalf as AsksDisplay, call_in as display_call, pixels_of};
ghost use Rattle.vhost_message.specs.declared.cause.IoCause.TheVariants.{Raw};
ghost use Rattle.vhost_message.specs.declared.error.Error.TheVariants.{SocketBroken};
ghost use Rattle.vhost_queue.specs.Chain.{GoesOn};
ghost use Rattle.vhost_queue.specs.Packed.{refused_step as packed_refused, state as packed_state};
ghost use Rattle.vhost_queue.specs.Queue.{refused_step, state};

use vhost_backend_req::{Asked, BackendInternal, ReverseCall};
use vhost_frontend_core::{Answer, Call, FrontendInternal, Sent};
use vhost_frontend_req_handler::{FrontendReqCore, VhostUserFrontendReqHandlerMut};
use vhost_gpu_backend_req::{Awaited, BackendInternal as Display, GpuCall};
use vhost_link::Link;
use vhost_message::{BackendReq, HandlerResult, Result, VhostUserMsgHeader};
use vhost_queue::{
    Descriptor, GuestMemory, PackedDescriptor, PackedQueue, Queue, Result as QueueResult, Segment,
};

/// 2. A frontend's call: it is refused by its rule and nothing changed, or its message went out whole, or its link failed.
pub fn frontend_asks<L: Link>(
    frontend: &mut FrontendInternal<L>,
    call: &Call<'_, L::Handle>,
) -> Result<Sent>
    requires { MayAsk frontend.old }
    ensures { AsksWell L.event (call_in call.now) frontend.old result frontend.new }
{
    frontend.ask(call)
}

/// 2. The answer to it is the one that the table has for what came.
pub fn frontend_takes<L: Link>(
    frontend: &mut FrontendInternal<L>,
    call: &Call<'_, L::Handle>,
    sent: Sent,
) -> Answer<L::Handle>
    requires { IsAwaited sent frontend.old }
    ensures { TakesValue L.event (call_in call.now) sent frontend.old result frontend.new }
{
    frontend.take(call, sent)
}

/// 2. A request of a backend, as its frontend serves it: one that came whole by its row; of one that did not, nobody is called.
pub fn channel_serves<L: Link, D: VhostUserFrontendReqHandlerMut<Handle = L::Handle>>(
    core: &mut FrontendReqCore<L>,
    device: &mut D,
) -> Result<u64>
    ensures ended { (n : ℤ) → (server_in core.old).failed ≡ Some n
        → (result ≡ Err (SocketBroken (Raw n))) × (endpoint_of core.new ≡ endpoint_of core.old) × (server_in core.new ≡ server_in core.old) × (device.new ≡ device.old) }
    ensures served { (server_in core.old).failed ≡ None
        → HandlesOne L.event D.gives (endpoint_of core.old) (server_in core.old) device.old result (endpoint_of core.new) (server_in core.new) device.new }
{
    core.handle_request(device)
}

/// 3. So many of them, one after another.
pub fn channel_runs<L: Link, D: VhostUserFrontendReqHandlerMut<Handle = L::Handle>>(
    core: &mut FrontendReqCore<L>,
    count: usize,
    device: &mut D,
    out: &mut Vec<Result<u64>>,
) -> Result<()>
    ensures { IfOk result (λ _. Runs L.event D.gives (endpoint_of core.old) (server_in core.old) device.old count out.old.items out.new.items (endpoint_of core.new) (server_in core.new) device.new) }
{
    core.run(count, device, out)
}

/// 2. A backend's call of its frontend: it is refused by its rule and nothing changed, or its message went out whole, or its link failed.
pub fn channel_asks<L: Link>(
    backend: &mut BackendInternal<L>,
    call: &ReverseCall<L::Handle>,
) -> HandlerResult<Asked>
    ensures { AsksValue L.event (input_of call.now) (channel backend.old) result (channel backend.new) }
{
    backend.ask_half(call)
}

/// 2. The number that answers it is the one that came; where none is awaited, nothing is read.
pub fn channel_takes<L: Link>(
    backend: &mut BackendInternal<L>,
    sent: Option<VhostUserMsgHeader<BackendReq>>,
) -> HandlerResult<u64>
    ensures { TakesHalf L.event sent (channel backend.old).endpoint result (channel backend.new).endpoint }
{
    backend.take_half(sent)
}

/// 2. A device's call of a display: its message, but for its pixels.
pub fn display_asks<L: Link>(
    display: &mut Display<L>,
    call: &GpuCall<L::Handle>,
) -> HandlerResult<Option<Awaited>>
    ensures { (pixels : List ℕ) → length pixels ≡ pixels_of call.now → AsksDisplay L.event (display_call call.now pixels) (display_channel display.old) result (display_channel display.new) }
{
    display.ask_half(call)
}

/// 1. and 2. A descriptor of a split queue, whatever the guest wrote: the chain goes on by a segment in memory that the frontend gave, or the
/// queue breaks, and keeps what the device has.
pub fn queue_follows(
    queue: &mut Queue,
    memory: &mut GuestMemory,
    descriptor: Descriptor,
) -> QueueResult<Option<Segment>>
    ensures goes_on { IfOk result (λ segment. GoesOn memory.old.regions.items (state queue.old).chain segment (state queue.new).chain) }
    ensures breaks { OnErr result (state queue.new ≡ refused_step (state queue.old)) }
{
    queue.step(memory, descriptor)
}

/// 1. and 2. The same of a packed queue.
pub fn packed_queue_follows(
    queue: &mut PackedQueue,
    memory: &mut GuestMemory,
    descriptor: PackedDescriptor,
) -> QueueResult<Option<Segment>>
    ensures goes_on { IfOk result (λ segment. GoesOn memory.old.regions.items (packed_state queue.old).chain segment (packed_state queue.new).chain) }
    ensures breaks { OnErr result (packed_state queue.new ≡ packed_refused (packed_state queue.old)) }
{
    queue.step(memory, descriptor)
}
