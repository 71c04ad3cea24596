//! What a program in C holds of a session.

ghost use Rattle.std.specs.Prelude.{Option};
ghost use Rattle.std.specs.Coded.{coded_option};
ghost use Rattle.vhost_c_queue.specs.declared.device_queue.DeviceQueue.{DeviceQueue};
ghost use Rattle.vhost_c_queue.specs.contracts.device_queue.DeviceQueue.{the_row};
ghost use Rattle.vhost_c_queue_calls.specs.QueueHolder.{held};

use crate::loose::Loose;
use std::alloc::Global;
use std::marker::Model;
use std::mem::replace;
use std::ptr::null_mut;
use vhost_c_queue::DeviceQueue;

/// What a program in C holds of a session: `covretin_queue`. Null is no session.
#[repr(C)]
#[derive(Drop)]
pub struct QueueHolder {
    at: *mut u8,
    pub ghost session: { Option DeviceQueue } by { coded_option the_row.coded },
}

impl Model for QueueHolder {
    ghost also_owns = { λ h. held h.at h.session };
}

impl QueueHolder {
    ghost use Rattle.std.specs.Prelude.{◌≡◌, None, Some, MatchOption};
    ghost use denote.RawPtr.{null_ptr};

    /// Takes the session out, if there is one.
    pub(crate) fn take(&mut self, alloc: Global) -> Option<Box<DeviceQueue>>
        ensures taken { MatchOption result (self.old.session ≡ None) (λ b. self.old.session ≡ Some b.value) }
        ensures left { self.new.session ≡ None }
    {
        let held = replace(self, QueueHolder::none());
        match held.into_loose(alloc) {
            None => None,
            Some(loose) => Some(loose.into_box()),
        }
    }

    /// Puts a session in. One that is there is forgotten, and never freed.
    pub(crate) fn put(&mut self, session: Box<DeviceQueue>)
        ensures { self.new.session ≡ Some session.value }
    {
        *self = QueueHolder::full(Loose::of(session));
    }

    /// No session.
    fn none() -> QueueHolder
        ensures { result.session ≡ None }
    {
        let at: *mut u8 = null_mut();
        QueueHolder::empty(at)
    }

    fn empty(at: *mut u8) -> QueueHolder
        requires { at ≡ null_ptr }
        ensures { result.session ≡ None }
    {
        QueueHolder { at }
    }

    fn full(loose: Loose<DeviceQueue, Global>) -> QueueHolder
        ensures { result.session ≡ Some loose.value }
    {
        let Loose { at, alloc: _ } = loose;
        QueueHolder { at: at as *mut u8 }
    }

    fn into_loose(self, alloc: Global) -> Option<Loose<DeviceQueue, Global>>
        ensures { MatchOption result (self.session ≡ None) (λ l. self.session ≡ Some l.value) }
    {
        let QueueHolder { at } = self;
        if at.is_null() {
            None
        } else {
            Some(Loose {
                at: at as *mut DeviceQueue,
                alloc,
            })
        }
    }
}
