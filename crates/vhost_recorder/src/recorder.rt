//! A recorder that callers in many threads share.

ghost use Rattle.std.specs.Prelude.{◌≡◌, ◌+◌, ◌<◌, IfOk, IfErr, OnErr, length};
ghost use Rattle.vhost_frontend_core.specs.Values.{call_of};
ghost use Rattle.vhost_joined.specs.declared.halt.Halt.TheVariants.{OutOfMemory};
ghost use Rattle.vhost_recorder.specs.Share.{parts_of, count_of, caller_of};

use crate::log::Log;
use crate::recorded::{Receipt, Recorded};
use crate::share::Share;
use std::alloc::Global;
use std::sync::ledger::{Blank, Book, Ledger};
use std::sync::{Mutex, Wait};
use vhost_device::VhostUserBackendReqHandlerMut;
use vhost_joined::{FrontendCall, Halt};
use vhost_link::{Cut, MemLink};

/// What lies under the lock: the recording, and the ledger's count of its entries.
#[derive(Drop)]
struct Desk<D: VhostUserBackendReqHandlerMut<Link = MemLink>, L: Ledger> {
    recorded: Recorded<D>,
    calls: Book<L>,
    ghost counted: { length recorded.entries ≡ calls.total },
}

impl<D: VhostUserBackendReqHandlerMut<Link = MemLink>, L: Ledger> Desk<D, L> {
    ghost use Rattle.std.specs.Prelude.{[], None};
    ghost use Rattle.vhost_joined.specs.Sides.{as_view, fresh_parts};

    /// A recording over two new sides with these queues and this retry limit, and a count of nothing, with all parts of the ledger.
    ///
    /// `Halt::OutOfMemory`: an allocation failed.
    fn open(
        blank: Blank,
        alloc: Global,
        device: D,
        max_queue_num: u64,
        budget: u32,
        scripts: (Vec<Cut>, Vec<Cut>),
    ) -> Result<(Self, Share<L>), Halt>
        requires ledger { (blank.name ≡ L.name) × (blank.parts ≡ L.parts) }
        ensures fresh { IfOk result (λ opened. opened.0.recorded ≡ record { joined = as_view (fresh_parts device max_queue_num budget scripts.0.items scripts.1.items) None; entries = []; queues = max_queue_num }) }
        ensures share { IfOk result (λ opened. (parts_of opened.1 ≡ L.parts) × (count_of opened.1 ≡ 0) × (caller_of opened.1 ≡ 0)) }
        ensures memory { IfErr result (λ halt. halt ≡ OutOfMemory) }
    {
        match Recorded::new(alloc, device, max_queue_num, budget, scripts) {
            Ok(recorded) => {
                let (calls, part) = blank.open::<L>();
                Ok((Desk { recorded, calls }, Share { part, caller: 0 }))
            }
            Err(halt) => Err(halt),
        }
    }

    /// Does one call for the share's caller, and counts it.
    fn call(&mut self, share: &mut Share<L>, call: &FrontendCall) -> Result<Receipt, Halt>
        requires { 0 < parts_of share.old }
        ensures share { (parts_of share.new ≡ parts_of share.old) × (caller_of share.new ≡ caller_of share.old) }
        ensures done { IfOk result (λ receipt. (receipt.caller ≡ caller_of share.old) × (receipt.call ≡ call_of call.now) × (count_of share.new ≡ count_of share.old + 1)) }
        ensures halt { OnErr result (count_of share.new ≡ count_of share.old) }
    {
        let Desk { recorded, calls } = self;
        match recorded.step(share.caller, call) {
            Ok(receipt) => {
                calls.add(&mut share.part, 1);
                Ok(receipt)
            }
            Err(halt) => Err(halt),
        }
    }
}

/// A joined run with the log of its calls, behind a lock. Whenever the lock is free, the log is legal and has one entry for
/// each call that the shares count.
#[derive(Drop)]
pub struct Recorder<D: VhostUserBackendReqHandlerMut<Link = MemLink>, L: Ledger> {
    desk: Mutex<Desk<D, L>>,
}

impl<D: VhostUserBackendReqHandlerMut<Link = MemLink>, L: Ledger> Recorder<D, L> {
    /// A recorder over two new sides, which are joined as [`Joined::new`](vhost_joined::Joined::new) does, and the share of
    /// caller 0, which has all parts of the ledger.
    ///
    /// `Halt::OutOfMemory`: an allocation failed.
    pub fn open(
        blank: Blank,
        alloc: Global,
        device: D,
        max_queue_num: u64,
        budget: u32,
        scripts: (Vec<Cut>, Vec<Cut>),
    ) -> Result<(Self, Share<L>), Halt>
        requires ledger { (blank.name ≡ L.name) × (blank.parts ≡ L.parts) }
        ensures share { IfOk result (λ opened. (parts_of opened.1 ≡ L.parts) × (count_of opened.1 ≡ 0) × (caller_of opened.1 ≡ 0)) }
        ensures memory { IfErr result (λ halt. halt ≡ OutOfMemory) }
    {
        match Desk::open(blank, alloc, device, max_queue_num, budget, scripts) {
            Ok((desk, share)) => {
                let desk = Mutex::new(desk);
                Ok((Recorder { desk }, share))
            }
            Err(halt) => Err(halt),
        }
    }

    /// Does one call for the share's caller, alone with the session, and answers what was recorded. The share has a part.
    ///
    /// `Halt::Stopped`: the run has stopped before. `Halt::OutOfMemory`: an allocation failed before the first byte. In both
    /// cases nothing changed.
    pub fn call(
        &self,
        rt: &impl Wait,
        share: &mut Share<L>,
        call: &FrontendCall,
    ) -> Result<Receipt, Halt>
        requires { 0 < parts_of share.old }
        ensures share { (parts_of share.new ≡ parts_of share.old) × (caller_of share.new ≡ caller_of share.old) }
        ensures done { IfOk result (λ receipt. (receipt.caller ≡ caller_of share.old) × (receipt.call ≡ call_of call.now) × (count_of share.new ≡ count_of share.old + 1)) }
        ensures halt { OnErr result (count_of share.new ≡ count_of share.old) }
    {
        self.desk.lock(rt).call(share, call)
    }

    /// Ends the recorder, and gives its log. The whole share is the join of all shares.
    pub fn close(self, whole: Share<L>) -> Log<D>
        requires { parts_of whole ≡ L.parts }
        ensures { length result.entries ≡ count_of whole }
    {
        let Recorder { desk } = self;
        let Share {
            mut part,
            caller: _,
        } = whole;
        let Desk {
            recorded,
            mut calls,
        } = desk.into_inner();
        calls.audit(&mut part);
        Log::new(recorded)
    }
}
