//! The descriptors that came with messages, by their numbers.

ghost use Rattle.std.specs.Prelude.{◌≡◌, ◌≤◌, ◌+◌, length, vec_capacity};

use std::alloc::{AllocError, Global};
use vhost_message::{Error, Result};

/// The descriptors that came with messages, by their numbers: each is claimed once, or handed out once.
#[derive(Drop)]
pub struct Held {
    /// With the first byte of the message that is received or served: they may be claimed.
    own: Vec<i32>,
    /// Nobody will claim these.
    loose: Vec<i32>,
    ghost room: { length own.items + length loose.items ≤ vec_capacity loose },
}

impl Held {
    ghost use Rattle.std.specs.Prelude.{◌≡◌, ◌≤◌, ◌+◌, ℕ, List, IfErr, OnOk, length};
    ghost use Rattle.vhost_c_common.specs.View.{GivesNone};
    ghost use Rattle.vhost_c_common.specs.Held.{HasRoom, HoldsNone, IsSame, Arrives, Released, Claims, HandsLoose};

    /// None.
    pub fn new(alloc: Global) -> Held
        ensures { HoldsNone result }
    {
        Held {
            own: Vec::new(alloc),
            loose: Vec::new(alloc),
        }
    }

    /// Makes room for these, which come with bytes.
    ///
    /// InvalidParam: they come without a byte. OutOfMemory: an allocation failed. The same are held, whatever the result.
    pub fn make_room(&mut self, bytes: &[u8], fds: &[i32]) -> Result<()>
        ensures room { OnOk result (HasRoom (length fds.now) self.new) }
        ensures same { IsSame self.old self.new }
        ensures reason { IfErr result (λ e. GivesNone bytes.now fds.now e) }
    {
        if fds.is_empty() {
            return Ok(());
        }
        if bytes.is_empty() {
            return Err(Error::InvalidParam);
        }
        match self.reserve(fds.len()) {
            Ok(()) => Ok(()),
            Err(AllocError) => Err(Error::OutOfMemory),
        }
    }

    /// Makes room for so many more.
    ///
    /// AllocError: an allocation failed. The same are held, whatever the result.
    fn reserve(&mut self, count: usize) -> std::result::Result<(), AllocError>
        ensures room { OnOk result (HasRoom count self.new) }
        ensures same { IsSame self.old self.new }
    {
        self.own.reserve(count)?;
        let more = self.own.len().checked_add(count).ok_or(AllocError)?;
        self.loose.reserve(more)
    }

    /// These came: with the first byte of a message, or behind it.
    pub fn arrive(&mut self, fds: &[i32], is_first: bool)
        requires { HasRoom (length fds.now) self.old }
        ensures { Arrives fds.now is_first self.old self.new }
    {
        if fds.is_empty() {
            return;
        }
        if is_first {
            let _ = self.own.extend_from_slice(fds);
        } else {
            let _ = self.loose.extend_from_slice(fds);
        }
    }

    /// Those that might be claimed will not be any more.
    pub fn release(&mut self)
        ensures { Released self.old self.new }
    {
        if self.own.is_empty() {
            return;
        }
        let _ = self.loose.extend_from_slice(&self.own);
        self.own.clear();
    }

    /// Claims this one: whether it could be claimed. It is gone then.
    pub fn claim(&mut self, fd: i32) -> bool
        ensures { Claims fd self.old result self.new }
    {
        'own: for i in 0..self.own.len() {
            if self.own[i] == fd {
                self.own.remove(i);
                return true;
            }
        }
        false
    }

    /// Hands out those that nobody will claim, to the front of a place: how many. They are gone then. None is left where
    /// it is 0 and the place has room.
    pub fn hand_out(&mut self, place: &mut [i32]) -> usize
        ensures { HandsLoose self.old place.old result place.new self.new }
    {
        let count = self.loose.len().min(place.len());
        let left = self.loose.len() - count;
        place[..count].copy_from_slice(&self.loose[left..]);
        self.loose.truncate(left);
        count
    }
}
