//! What a program in C holds of a session.

ghost use Rattle.std.specs.Prelude.{Option};
ghost use Rattle.std.specs.Coded.{coded_option};
ghost use Rattle.vhost_c_channel.specs.declared.asking.Channel.{Channel};
ghost use Rattle.vhost_c_channel.specs.contracts.asking.Channel.{the_row};
ghost use Rattle.vhost_c.specs.Holder.{held};

use crate::loose::Loose;
use std::alloc::Global;
use std::marker::Model;
use std::mem::replace;
use std::ptr::null_mut;
use vhost_c_channel::Channel;

/// What a program in C holds of a session: `covretin_channel`. Null is no session.
#[repr(C)]
#[derive(Drop)]
pub struct ChannelHolder {
    at: *mut u8,
    pub ghost session: { Option Channel } by { coded_option the_row.coded },
}

impl Model for ChannelHolder {
    ghost also_owns = { λ h. held the_row h.at h.session };
}

impl ChannelHolder {
    ghost use Rattle.std.specs.Prelude.{◌≡◌, None, Some, MatchOption};
    ghost use denote.RawPtr.{null_ptr};

    /// Takes the session out, if there is one.
    pub(crate) fn take(&mut self, alloc: Global) -> Option<Box<Channel>>
        ensures taken { MatchOption result (self.old.session ≡ None) (λ b. self.old.session ≡ Some b.value) }
        ensures left { self.new.session ≡ None }
    {
        let held = replace(self, ChannelHolder::none());
        match held.into_loose(alloc) {
            None => None,
            Some(loose) => Some(loose.into_box()),
        }
    }

    /// Puts a session in. One that is there is forgotten, and never freed.
    pub(crate) fn put(&mut self, session: Box<Channel>)
        ensures { self.new.session ≡ Some session.value }
    {
        *self = ChannelHolder::full(Loose::of(session));
    }

    /// No session.
    fn none() -> ChannelHolder
        ensures { result.session ≡ None }
    {
        let at: *mut u8 = null_mut();
        ChannelHolder::empty(at)
    }

    fn empty(at: *mut u8) -> ChannelHolder
        requires { at ≡ null_ptr }
        ensures { result.session ≡ None }
    {
        ChannelHolder { at }
    }

    fn full(loose: Loose<Channel, Global>) -> ChannelHolder
        ensures { result.session ≡ Some loose.value }
    {
        let Loose { at, alloc: _ } = loose;
        ChannelHolder { at: at as *mut u8 }
    }

    fn into_loose(self, alloc: Global) -> Option<Loose<Channel, Global>>
        ensures { MatchOption result (self.session ≡ None) (λ l. self.session ≡ Some l.value) }
    {
        let ChannelHolder { at } = self;
        if at.is_null() {
            None
        } else {
            Some(Loose {
                at: at as *mut Channel,
                alloc,
            })
        }
    }
}
