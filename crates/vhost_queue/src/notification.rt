//! When the other side is to be told.

ghost use Rattle.std.specs.Prelude.{◌↔◌, IsTrue};
ghost use Rattle.vhost_queue.specs.Notification.{Passes};

/// Whether the other side wants to be told, now that an index went from `old` to `new`: it did so past the one that it asked
/// for (virtio 1.2, 2.7.7.1).
pub fn vring_need_event(event: u16, new: u16, old: u16) -> bool
    ensures { IsTrue result ↔ Passes old new event }
{
    new.wrapping_sub(event).wrapping_sub(1) < new.wrapping_sub(old)
}
