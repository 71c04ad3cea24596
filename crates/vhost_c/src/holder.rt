//! What a program in C holds of a session.

ghost use Rattle.std.specs.Prelude.{Option};
ghost use Rattle.std.specs.Coded.{coded_option};
ghost use Rattle.vhost_c_frontend.specs.declared.session.Session.{Session};
ghost use Rattle.vhost_c_frontend.specs.contracts.session.Session.{the_row};
ghost use Rattle.vhost_c.specs.Holder.{held};

use crate::loose::Loose;
use std::alloc::Global;
use std::marker::Model;
use std::mem::replace;
use std::ptr::null_mut;
use vhost_c_frontend::Session;

/// What a program in C holds of a session: `covretin_session`. Null is no session.
#[repr(C)]
#[derive(Drop)]
pub struct Holder {
    at: *mut u8,
    pub ghost session: { Option Session } by { coded_option the_row.coded },
}

impl Model for Holder {
    ghost also_owns = { λ h. held the_row h.at h.session };
}

impl Holder {
    ghost use Rattle.std.specs.Prelude.{◌≡◌, None, Some, MatchOption};
    ghost use denote.RawPtr.{null_ptr};

    /// Takes the session out, if there is one.
    pub(crate) fn take(&mut self, alloc: Global) -> Option<Box<Session>>
        ensures taken { MatchOption result (self.old.session ≡ None) (λ b. self.old.session ≡ Some b.value) }
        ensures left { self.new.session ≡ None }
    {
        let held = replace(self, Holder::none());
        match held.into_loose(alloc) {
            None => None,
            Some(loose) => Some(loose.into_box()),
        }
    }

    /// Puts a session in. One that is there is forgotten, and never freed.
    pub(crate) fn put(&mut self, session: Box<Session>)
        ensures { self.new.session ≡ Some session.value }
    {
        *self = Holder::full(Loose::of(session));
    }

    /// No session.
    fn none() -> Holder
        ensures { result.session ≡ None }
    {
        let at: *mut u8 = null_mut();
        Holder::empty(at)
    }

    fn empty(at: *mut u8) -> Holder
        requires { at ≡ null_ptr }
        ensures { result.session ≡ None }
    {
        Holder { at }
    }

    fn full(loose: Loose<Session, Global>) -> Holder
        ensures { result.session ≡ Some loose.value }
    {
        let Loose { at, alloc: _ } = loose;
        Holder { at: at as *mut u8 }
    }

    fn into_loose(self, alloc: Global) -> Option<Loose<Session, Global>>
        ensures { MatchOption result (self.session ≡ None) (λ l. self.session ≡ Some l.value) }
    {
        let Holder { at } = self;
        if at.is_null() {
            None
        } else {
            Some(Loose {
                at: at as *mut Session,
                alloc,
            })
        }
    }
}
