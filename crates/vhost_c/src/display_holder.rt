//! What a program in C holds of a session.

ghost use Rattle.std.specs.Prelude.{Option};
ghost use Rattle.std.specs.Coded.{coded_option};
ghost use Rattle.vhost_c_channel.specs.declared.display.Display.{Display};
ghost use Rattle.vhost_c_channel.specs.contracts.display.Display.{the_row};
ghost use Rattle.vhost_c.specs.Holder.{held};

use crate::loose::Loose;
use std::alloc::Global;
use std::marker::Model;
use std::mem::replace;
use std::ptr::null_mut;
use vhost_c_channel::Display;

/// What a program in C holds of a session: `covretin_display`. Null is no session.
#[repr(C)]
#[derive(Drop)]
pub struct DisplayHolder {
    at: *mut u8,
    pub ghost session: { Option Display } by { coded_option the_row.coded },
}

impl Model for DisplayHolder {
    ghost also_owns = { λ h. held the_row h.at h.session };
}

impl DisplayHolder {
    ghost use Rattle.std.specs.Prelude.{◌≡◌, None, Some, MatchOption};
    ghost use denote.RawPtr.{null_ptr};

    /// Takes the session out, if there is one.
    pub(crate) fn take(&mut self, alloc: Global) -> Option<Box<Display>>
        ensures taken { MatchOption result (self.old.session ≡ None) (λ b. self.old.session ≡ Some b.value) }
        ensures left { self.new.session ≡ None }
    {
        let held = replace(self, DisplayHolder::none());
        match held.into_loose(alloc) {
            None => None,
            Some(loose) => Some(loose.into_box()),
        }
    }

    /// Puts a session in. One that is there is forgotten, and never freed.
    pub(crate) fn put(&mut self, session: Box<Display>)
        ensures { self.new.session ≡ Some session.value }
    {
        *self = DisplayHolder::full(Loose::of(session));
    }

    /// No session.
    fn none() -> DisplayHolder
        ensures { result.session ≡ None }
    {
        let at: *mut u8 = null_mut();
        DisplayHolder::empty(at)
    }

    fn empty(at: *mut u8) -> DisplayHolder
        requires { at ≡ null_ptr }
        ensures { result.session ≡ None }
    {
        DisplayHolder { at }
    }

    fn full(loose: Loose<Display, Global>) -> DisplayHolder
        ensures { result.session ≡ Some loose.value }
    {
        let Loose { at, alloc: _ } = loose;
        DisplayHolder { at: at as *mut u8 }
    }

    fn into_loose(self, alloc: Global) -> Option<Loose<Display, Global>>
        ensures { MatchOption result (self.session ≡ None) (λ l. self.session ≡ Some l.value) }
    {
        let DisplayHolder { at } = self;
        if at.is_null() {
            None
        } else {
            Some(Loose {
                at: at as *mut Display,
                alloc,
            })
        }
    }
}
