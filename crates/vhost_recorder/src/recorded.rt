//! A joined run with the log of its calls, and the receipts that only its steps make.

ghost use Rattle.std.specs.Prelude.{◌≡◌, ◌↔◌, [], IfOk, IfErr, IsTrue, None, Contains, length};
ghost use Rattle.vhost_frontend_core.specs.Values.{call_of, answer_of};
ghost use Rattle.vhost_joined.specs.declared.halt.Halt.TheVariants.{OutOfMemory};
ghost use Rattle.vhost_protocol.specs.Log.{calls_of};
ghost use Rattle.vhost_recorder.specs.Prepared.{IsPreparedFor};
ghost use Rattle.vhost_device.specs.Reached.{by_trait};

use crate::copying::{Room, copy_answer, copy_call};
use crate::entry::Entry;
use std::alloc::{AllocError, Global};
use std::marker::Model;
use vhost_device::VhostUserBackendReqHandlerMut;
use vhost_joined::{FrontendAnswer, FrontendCall, Halt, Joined, Stop};
use vhost_link::{Cut, MemLink};

/// A copy of one entry of a log. Only [`Recorded::step`] makes one.
#[derive(Drop)]
pub struct Receipt {
    entry: Entry,
}

impl Model for Receipt {
    ghost use Rattle.vhost_link.specs.declared.plain.PlainHandle.{PlainHandle};
    ghost use Rattle.vhost_protocol.specs.Log.{Entry as Logged};

    ghost Value = { Logged PlainHandle };

    ghost view = { λ r. r.entry };
}

impl Receipt {
    /// Who called.
    pub fn caller(&self) -> u32
        ensures { result ≡ self.now.caller }
    {
        self.entry.caller()
    }

    /// How many entries the caller had before.
    pub fn serial(&self) -> u64
        ensures { result ≡ self.now.serial }
    {
        self.entry.serial()
    }

    /// What was called.
    pub fn call(&self) -> &FrontendCall
        ensures { call_of result.now ≡ self.now.call }
    {
        self.entry.call()
    }

    /// What was answered.
    pub fn answer(&self) -> &FrontendAnswer
        ensures { answer_of result.now ≡ self.now.result }
    {
        self.entry.answer()
    }
}

/// What an entry and its receipt need before the call.
#[derive(Drop)]
struct Prepared {
    kept: FrontendCall,
    shown: FrontendCall,
    room: Room,
}

/// A joined run with the log of its calls. The log is legal: each caller's serials count up from 0, and its entries are
/// what one caller alone would have been answered.
#[derive(Drop)]
pub struct Recorded<D: VhostUserBackendReqHandlerMut<Link = MemLink>> {
    joined: Joined<D>,
    log: Vec<Entry>,
    queues: u64,
    alloc: Global,
}

impl<D: VhostUserBackendReqHandlerMut<Link = MemLink>> Model for Recorded<D> {
    ghost use Rattle.vhost_recorder.specs.Recording.{Recording};
    ghost use Rattle.vhost_device.specs.Reached.{by_trait};
    ghost use Rattle.vhost_recorder.specs.Kept.{IsKept};

    ghost Value = { Recording D };

    ghost view = { λ r. record { joined = r.joined; entries = r.log.items; queues = r.queues } };

    ghost invariant = { λ r. IsKept (by_trait D.gives) (record { joined = r.joined; entries = r.log.items; queues = r.queues }) };
}

impl<D: VhostUserBackendReqHandlerMut<Link = MemLink>> Recorded<D> {
    ghost use Rattle.vhost_joined.specs.Sides.{as_view, fresh_parts};
    ghost use Rattle.vhost_recorder.specs.Recording.{Records, HasLegalLog};

    /// Joins both sides as [`Joined::new`] does, with an empty log.
    ///
    /// `Halt::OutOfMemory`: an allocation failed.
    pub fn new(
        alloc: Global,
        device: D,
        max_queue_num: u64,
        budget: u32,
        scripts: (Vec<Cut>, Vec<Cut>),
    ) -> Result<Self, Halt>
        ensures fresh { IfOk result (λ new. new ≡ record { joined = as_view (fresh_parts device max_queue_num budget scripts.0.items scripts.1.items) None; entries = []; queues = max_queue_num }) }
        ensures memory { IfErr result (λ halt. halt ≡ OutOfMemory) }
    {
        match Joined::new(alloc, device, max_queue_num, budget, scripts) {
            Ok(joined) => Ok(Recorded {
                joined,
                log: Vec::new(alloc),
                queues: max_queue_num,
                alloc,
            }),
            Err(halt) => Err(halt),
        }
    }

    /// Does one call for a caller, appends it with its answer to the log, and answers a copy of that entry.
    ///
    /// `Halt::Stopped`: the run has stopped before. `Halt::OutOfMemory`: an allocation failed before the first byte, also one
    /// for the entry or its copy. In both cases nothing changed but that descriptor buffers may be there again.
    pub fn step(&mut self, caller: u32, call: &FrontendCall) -> Result<Receipt, Halt>
        ensures { Records (by_trait D.gives) self.old caller (call_of call.now) result self.new }
    {
        if self.joined.stopped().is_some() {
            return Err(Halt::Stopped);
        }
        if self.log.reserve(1).is_err() {
            return Err(Halt::OutOfMemory);
        }
        let Ok(prepared) = prepare(self.alloc, call) else {
            return Err(Halt::OutOfMemory);
        };
        let serial = count(&self.log, caller);
        match self.joined.step(call) {
            Ok(answer) => {
                let Prepared { kept, shown, room } = prepared;
                let copy = copy_answer(&answer, room);
                let entry = Entry::new(caller, serial, kept, answer);
                self.log.push_reserved(entry);
                let entry = Entry::new(caller, serial, shown, copy);
                Ok(Receipt { entry })
            }
            Err(halt) => Err(halt),
        }
    }

    /// Why the run has stopped, if it has.
    pub fn stopped(&self) -> Option<Stop>
        ensures { result ≡ self.now.joined.stopped }
    {
        self.joined.stopped()
    }

    /// The log, which is legal.
    pub fn entries(&self) -> &[Entry]
        ensures entries { result.now ≡ self.now.entries }
        ensures legal { HasLegalLog (by_trait D.gives) self.now }
    {
        &self.log
    }

    /// Whether the log has the receipt's entry.
    pub fn has(&self, receipt: &Receipt) -> bool
        ensures { IsTrue result ↔ Contains self.now.entries receipt.now }
    {
        contains(&self.log, &receipt.entry)
    }
}

/// Makes what an entry and its receipt need.
fn prepare(alloc: Global, call: &FrontendCall) -> Result<Prepared, AllocError>
    ensures { IfOk result (λ prepared. IsPreparedFor prepared (call_of call.now)) }
{
    Ok(Prepared {
        kept: copy_call(alloc, call)?,
        shown: copy_call(alloc, call)?,
        room: Room::new(alloc, call)?,
    })
}

/// How many of the entries are the caller's.
fn count(log: &[Entry], caller: u32) -> u64
    ensures { result ≡ calls_of caller log.now }
{
    log.iter().filter(|entry| entry.caller() == caller).count() as u64
}

/// Whether one of the entries is this one.
fn contains(log: &[Entry], entry: &Entry) -> bool
    ensures { IsTrue result ↔ Contains log.now entry.now }
{
    log.iter().any(|own| own.is_same(entry))
}
