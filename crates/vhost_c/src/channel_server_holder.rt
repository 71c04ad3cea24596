//! What a program in C holds of a session.

ghost use Rattle.std.specs.Prelude.{Option};
ghost use Rattle.std.specs.Coded.{coded_option};
ghost use Rattle.vhost_c_channel.specs.declared.serving.ChannelServer.{ChannelServer};
ghost use Rattle.vhost_c_channel.specs.contracts.serving.ChannelServer.{the_row};
ghost use Rattle.vhost_c.specs.Holder.{held};

use crate::loose::Loose;
use std::alloc::Global;
use std::marker::Model;
use std::mem::replace;
use std::ptr::null_mut;
use vhost_c_channel::ChannelServer;

/// What a program in C holds of a session: `covretin_channel_server`. Null is no session.
#[repr(C)]
#[derive(Drop)]
pub struct ChannelServerHolder {
    at: *mut u8,
    pub ghost session: { Option ChannelServer } by { coded_option the_row.coded },
}

impl Model for ChannelServerHolder {
    ghost also_owns = { λ h. held the_row h.at h.session };
}

impl ChannelServerHolder {
    ghost use Rattle.std.specs.Prelude.{◌≡◌, None, Some, MatchOption};
    ghost use denote.RawPtr.{null_ptr};

    /// Takes the session out, if there is one.
    pub(crate) fn take(&mut self, alloc: Global) -> Option<Box<ChannelServer>>
        ensures taken { MatchOption result (self.old.session ≡ None) (λ b. self.old.session ≡ Some b.value) }
        ensures left { self.new.session ≡ None }
    {
        let held = replace(self, ChannelServerHolder::none());
        match held.into_loose(alloc) {
            None => None,
            Some(loose) => Some(loose.into_box()),
        }
    }

    /// Puts a session in. One that is there is forgotten, and never freed.
    pub(crate) fn put(&mut self, session: Box<ChannelServer>)
        ensures { self.new.session ≡ Some session.value }
    {
        *self = ChannelServerHolder::full(Loose::of(session));
    }

    /// No session.
    fn none() -> ChannelServerHolder
        ensures { result.session ≡ None }
    {
        let at: *mut u8 = null_mut();
        ChannelServerHolder::empty(at)
    }

    fn empty(at: *mut u8) -> ChannelServerHolder
        requires { at ≡ null_ptr }
        ensures { result.session ≡ None }
    {
        ChannelServerHolder { at }
    }

    fn full(loose: Loose<ChannelServer, Global>) -> ChannelServerHolder
        ensures { result.session ≡ Some loose.value }
    {
        let Loose { at, alloc: _ } = loose;
        ChannelServerHolder { at: at as *mut u8 }
    }

    fn into_loose(self, alloc: Global) -> Option<Loose<ChannelServer, Global>>
        ensures { MatchOption result (self.session ≡ None) (λ l. self.session ≡ Some l.value) }
    {
        let ChannelServerHolder { at } = self;
        if at.is_null() {
            None
        } else {
            Some(Loose {
                at: at as *mut ChannelServer,
                alloc,
            })
        }
    }
}
