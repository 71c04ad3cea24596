//! What a device asks, of its frontend and of a display.

ghost use Rattle.vhost_backend_req.specs.Channel.{channel};
ghost use Rattle.vhost_gpu_backend_req.specs.Channel.{channel as display_channel};
ghost use Rattle.vhost_message.specs.Records.{u64_at};
ghost use Rattle.vhost_promises.specs.Asks.{AnswersCall};
ghost use Rattle.vhost_promises.specs.Displays.{AnswersCall as AnswersDisplay};
ghost use Rattle.vhost_protocol.specs.Gpu.{GetProtocolFeatures, MoveCursor};
ghost use Rattle.vhost_protocol.specs.Reverse.{SharedObjectAdd, ShmemMap};

use vhost_backend_req::BackendInternal;
use vhost_gpu_backend_req::BackendInternal as Display;
use vhost_gpu_message::VhostUserGpuCursorPos;
use vhost_link::Link;
use vhost_message::{HandlerResult, VhostUserMMap, VhostUserSharedMsg, VhostUserU64};

/// Announces an object to a frontend. Where that succeeds, exactly the call's message went out, and where an answer was awaited, the reply
/// for it came, without descriptors, and says 0. Else the definitions refuse the call, and nothing changed; or the answer that came says
/// so; or the link or an allocation failed, and there is evidence of it.
pub fn adds_object<L: Link>(
    frontend: &mut BackendInternal<L>,
    name: &VhostUserSharedMsg,
) -> HandlerResult<u64>
    ensures { AnswersCall L.event (SharedObjectAdd name.now) (channel frontend.old) result (channel frontend.new) }
{
    frontend.shared_object_add(name)
}

/// The same of memory that is mapped, with its descriptor.
pub fn maps_memory<L: Link>(
    frontend: &mut BackendInternal<L>,
    mapping: &VhostUserMMap,
    handle: &L::Handle,
) -> HandlerResult<u64>
    ensures { AnswersCall L.event (ShmemMap mapping.now handle.now) (channel frontend.old) result (channel frontend.new) }
{
    frontend.shmem_map(mapping, handle)
}

/// Asks a display for its features. Where that succeeds, exactly the call's message went out, and the answer is the record of the reply
/// that came for it, without descriptors. Else it has one of the reasons that a call of a frontend has.
pub fn asks_features<L: Link>(display: &mut Display<L>) -> HandlerResult<VhostUserU64>
    ensures { AnswersDisplay L.event (λ bs. record { value = u64_at 0 bs }) GetProtocolFeatures (display_channel display.old) result (display_channel display.new) }
{
    display.get_protocol_features()
}

/// Moves a display's cursor, for which nothing is awaited.
pub fn moves_cursor<L: Link>(
    display: &mut Display<L>,
    cursor: &VhostUserGpuCursorPos,
) -> HandlerResult<()>
    ensures { AnswersDisplay L.event (λ _. tt) (MoveCursor cursor.now) (display_channel display.old) result (display_channel display.new) }
{
    display.cursor_pos(cursor)
}
