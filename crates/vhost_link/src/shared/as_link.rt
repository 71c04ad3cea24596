//! A link between two threads, as a link: its receive waits.

ghost use Rattle.std.specs.Prelude.{◌≡◌, ◌<◌, ◌≤◌, [], length, vec_capacity};
ghost use Rattle.vhost_message.specs.declared.limits.TheConstants.{MAX_ATTACHED_FD_ENTRIES};
ghost use Rattle.vhost_link.specs.Law.{Receives};
ghost use Rattle.vhost_link.specs.Rings.{event};

use crate::law::Link;
use crate::plain::PlainHandle;
use crate::shared::SharedLink;
use std::sync::{Arc, Wait};
use std::thread;
use vhost_message::IoCause;
use vhost_message::errno::ENOMEM;

impl<R: Wait + Copy + Drop> Link for SharedLink<R> {
    ghost use Rattle.vhost_link.specs.Mem.{refuses_duplicate};
    ghost use Rattle.vhost_link.specs.Rings.{event, OpensEnd};

    type Handle = PlainHandle;

    ghost event = { event };

    ghost duplicates = { λ link result. refuses_duplicate result };

    ghost opens = { λ link handle result. OpensEnd result };

    /// Accepts what there is room for, and waits for no one. A full ring is `Raw(EAGAIN)`.
    fn send(&mut self, bytes: &[u8], handles: &[&PlainHandle]) -> Result<usize, IoCause> {
        self.ends.send(bytes, handles)
    }

    /// Waits until something has come or the other end is gone, and hands it out. It never fails.
    fn recv(&mut self, room: &mut [u8], handles: &mut Vec<PlainHandle>) -> Result<usize, IoCause>
        requires room { 0 < length room.old }
        requires list { handles.old.items ≡ [] }
        requires places { MAX_ATTACHED_FD_ENTRIES ≤ vec_capacity handles.old }
        ensures law { Receives event self.old room.old result room.new handles.new.items self.new }
        ensures places { vec_capacity handles.old ≤ vec_capacity handles.new }
    {
        let rt = self.rt;
        for _ in rt.forever() {
            if let Some(count) = self.ends.try_recv(room, handles) {
                return Ok(count);
            }
            thread::yield_now();
        }
        unreachable!()
    }

    fn duplicate(&self) -> Result<SharedLink<R>, IoCause> {
        Err(IoCause::Named("link cannot be duplicated"))
    }

    /// Joins the ends that its hub has under the descriptor's number. It may wait for the hub.
    ///
    /// `Named("no such end")`: none are there, or they were joined before. `Raw(ENOMEM)`: the hub could not be shared once more.
    fn of_handle(&self, handle: PlainHandle) -> Result<SharedLink<R>, IoCause> {
        let Ok(hub) = Arc::try_clone(&self.hub) else {
            return Err(IoCause::Raw(ENOMEM));
        };
        match hub.take(&self.rt, handle.id) {
            Ok(ends) => Ok(SharedLink {
                ends,
                hub,
                rt: self.rt,
            }),
            Err(cause) => Err(cause),
        }
    }
}
