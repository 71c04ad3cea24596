//! Ends of links that travel as descriptors.

ghost use Rattle.std.specs.Prelude.{◌≡◌, None, Some, [], ◌∷◌, ◌++◌, length, IfOk, IfErr, OnErr, slice_index_or, slice_set};
ghost use Rattle.vhost_link.specs.Rings.{IsNoSuchEnd};

use crate::shared::Ends;
use std::alloc::{AllocError, Global};
use std::marker::Model;
use std::sync::{Mutex, Wait};
use vhost_message::IoCause;

/// The ends of links that no one holds: each waits, under its number, until it is opened once.
#[derive(Drop)]
pub struct Hub {
    shelf: Mutex<Shelf>,
}

impl Hub {
    /// A hub without ends.
    pub fn new(alloc: Global) -> Hub {
        Hub {
            shelf: Mutex::new(Shelf {
                ends: Vec::new(alloc),
            }),
        }
    }

    /// Puts ends under a number, which a `PlainHandle` may carry to another thread.
    ///
    /// `AllocError`: an allocation failed, or 2^32 - 1 numbers were given out. The ends are dropped then.
    pub fn register(&self, rt: &impl Wait, ends: Ends) -> Result<u32, AllocError> {
        self.shelf.lock(rt).put(ends)
    }

    /// Takes the ends under a number.
    ///
    /// `Named("no such end")`: none are there, or they were taken before.
    pub(crate) fn take(&self, rt: &impl Wait, number: u32) -> Result<Ends, IoCause>
        ensures { IfErr result IsNoSuchEnd }
    {
        let ends = self.shelf.lock(rt).take(number);
        ends.ok_or(IoCause::Named("no such end"))
    }
}

/// What a hub holds, each end at its number.
#[derive(Drop)]
struct Shelf {
    ends: Vec<Option<Ends>>,
}

impl Model for Shelf {
    ghost use Rattle.std.specs.Prelude.{List, Option};
    ghost use Rattle.vhost_link.specs.Rings.{RingEnds};

    ghost Value = { List (Option RingEnds) };

    ghost view = { λ shelf. shelf.ends.items };
}

impl Shelf {
    /// Puts ends under the next number.
    fn put(&mut self, ends: Ends) -> Result<u32, AllocError>
        ensures put { IfOk result (λ number. (number ≡ length self.old) × (self.new ≡ self.old ++ Some ends ∷ [])) }
        ensures refused { OnErr result (self.new ≡ self.old) }
    {
        let number = self.ends.len();
        if number >= u32::MAX as usize {
            return Err(AllocError);
        }
        match self.ends.push(Some(ends)) {
            Ok(()) => Ok(number as u32),
            Err(_) => Err(AllocError),
        }
    }

    /// Takes the ends under a number, if they are there.
    fn take(&mut self, number: u32) -> Option<Ends>
        ensures taken { result ≡ slice_index_or self.old number None }
        ensures rest { self.new ≡ slice_set self.old number None }
    {
        let number = number as usize;
        if number >= self.ends.len() {
            return None;
        }
        self.ends[number].take()
    }
}
