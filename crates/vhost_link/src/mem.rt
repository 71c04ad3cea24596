//! A link in memory.

ghost use Rattle.std.specs.Prelude.{◌≡◌, [], ◌++◌, ◌<◌, ◌≤◌, ◌==◌, length, map, take, nat_lt, OnOk, OnErr, IsOk, vec_capacity};
ghost use Rattle.vhost_message.specs.declared.limits.TheConstants.{MAX_ATTACHED_FD_ENTRIES};
ghost use Rattle.vhost_protocol.specs.Stream.{carrying};
ghost use Rattle.vhost_link.specs.Law.{Sends, TakesAll, Receives};
ghost use Rattle.vhost_link.specs.Cuts.{allowed};
ghost use Rattle.vhost_link.specs.Ends.{empty, Carried};
ghost use Rattle.vhost_link.specs.Mem.{StreamLaw, GivesLaw, SendsAll, received, is_uncut};

use crate::cut::{Cut, next_cut};
use crate::flow::Flow;
use crate::law::Link;
use crate::plain::{PlainHandle, copied};
use std::alloc::{AllocError, Global};
use std::collections::VecDeque;
use std::marker::Model;
use std::mem::swap;
use vhost_message::IoCause;
use vhost_message::errno::ENOMEM;

/// One end of a connection in memory: what it will hand out, what it accepted, and how its next calls are split.
#[derive(Drop)]
pub struct MemLink {
    pending: Flow,
    sent: Flow,
    script: VecDeque<Cut>,
    wants: u64,
    alloc: Global,
}

impl Model for MemLink {
    ghost use Rattle.vhost_link.specs.Ends.{Ends};

    ghost Value = { Ends };

    ghost view = { λ link. record { pending = link.pending; sent = link.sent; script = link.script.items; wants = link.wants } };
}

impl MemLink {
    /// A link that holds nothing. Its calls follow the script, one entry each, and move all they can once it is used up.
    pub fn new(alloc: Global, script: Vec<Cut>) -> MemLink
        ensures { result ≡ empty script.items }
    {
        MemLink {
            pending: Flow::new(alloc),
            sent: Flow::new(alloc),
            script: VecDeque::from_vec(script),
            wants: 0,
            alloc,
        }
    }

    /// What it accepted and was not yet carried to another link, in order.
    pub fn taken(&self) -> &Flow
        ensures { result.now ≡ self.now.sent }
    {
        &self.sent
    }

    /// Whether a send of it ever failed because an allocation failed.
    pub fn is_starved(&self) -> bool
        ensures { result ≡ nat_lt 0 self.now.wants }
    {
        self.wants > 0
    }

    /// Moves what one end accepted behind what the other will hand out.
    ///
    /// Where an allocation fails, nothing moved. None is made if the other end had nothing to hand out.
    pub fn carry(from: &mut MemLink, to: &mut MemLink) -> Result<(), AllocError>
        ensures carried { OnOk result (Carried from.old to.old from.new to.new) }
        ensures refused { OnErr result ((from.new ≡ from.old) × (to.new ≡ to.old)) }
        ensures succeeds { to.old.pending ≡ [] → IsOk result }
    {
        if from.sent.is_empty() {
            return Ok(());
        }
        if to.pending.is_empty() {
            swap(&mut from.sent, &mut to.pending);
            return Ok(());
        }
        to.pending.append(&mut from.sent)
    }

    /// Whether it has nothing to hand out.
    pub fn is_drained(&self) -> bool
        ensures { result ≡ (length self.now.pending == 0) }
    {
        self.pending.is_empty()
    }

    /// Hands out a piece of what it accepted: bytes into the room, and the descriptors of the first of them into the list. No byte
    /// is left where it is 0.
    pub fn hand_sent(&mut self, room: &mut [u8], handles: &mut Vec<PlainHandle>) -> usize
        requires room { 0 < length room.old }
        requires list { handles.old.items ≡ [] }
        requires places { MAX_ATTACHED_FD_ENTRIES ≤ vec_capacity handles.old }
        ensures count { result ≤ length room.new }
        ensures got { self.old.sent ≡ carrying handles.new.items (take result room.new) ++ self.new.sent }
        ensures rest { self.new ≡ record self.old { sent = self.new.sent } }
        ensures end { result ≡ 0 → self.old.sent ≡ [] }
        ensures few { length handles.new.items ≤ MAX_ATTACHED_FD_ENTRIES }
        ensures places { vec_capacity handles.old ≤ vec_capacity handles.new }
    {
        self.sent.get(room, handles)
    }

    /// Forgets what it would hand out. The room for it is kept for what comes next.
    pub fn forget(&mut self)
        ensures { self.new ≡ record self.old { pending = [] } }
    {
        self.pending.clear();
    }

    /// Puts bytes behind what it will hand out, with the descriptors on the first of them.
    ///
    /// There are at most `MAX_ATTACHED_FD_ENTRIES` descriptors; without a byte they go nowhere. Where an allocation fails, nothing changed.
    pub fn push(&mut self, bytes: &[u8], handles: &[PlainHandle]) -> Result<(), AllocError>
        requires { length handles.now ≤ MAX_ATTACHED_FD_ENTRIES }
        ensures pushed { OnOk result (self.new ≡ record self.old { pending = self.old.pending ++ carrying handles.now bytes.now }) }
        ensures refused { OnErr result (self.new ≡ self.old) }
    {
        let handles = Vec::from_slice(self.alloc, handles)?;
        self.pending.put(bytes, handles)
    }
}

impl Link for MemLink {
    ghost use Rattle.std.specs.Prelude.{◌≡◌, Ok, []};
    ghost use Rattle.vhost_link.specs.Ends.{empty};
    ghost use Rattle.vhost_link.specs.Mem.{event, is_uncut, refuses_duplicate};

    type Handle = PlainHandle;

    ghost event = { event };

    ghost takes_all = { is_uncut };

    ghost duplicates = { λ link result. refuses_duplicate result };

    ghost opens = { λ link handle result. result ≡ Ok (empty []) };

    /// Accepts all that the script's entry allows. The only failure beside the script's is a failed allocation, `Raw(ENOMEM)`.
    fn send(&mut self, bytes: &[u8], handles: &[&PlainHandle]) -> Result<usize, IoCause>
        requires bytes { 0 < length bytes.now }
        requires handles { length handles.now ≤ MAX_ATTACHED_FD_ENTRIES }
        ensures law { Sends event self.old bytes.now (map (λ h. h.now) handles.now) result self.new }
        ensures whole { is_uncut self.old → TakesAll is_uncut (length bytes.now) result self.new }
        ensures exact { SendsAll (allowed self.old.script (length bytes.now)) result }
    {
        let count = next_cut(&mut self.script, bytes.len())?;
        let sent = match copied(self.alloc, handles) {
            Ok(list) => self.sent.put(&bytes[..count], list),
            Err(refusal) => Err(refusal),
        };
        if sent.is_err() {
            self.wants = self.wants.saturating_add(1);
            return Err(IoCause::Raw(ENOMEM));
        }
        Ok(count)
    }

    /// Hands out all that the script's entry, the room and the next byte with descriptors allow. It fails only where the script says so.
    fn recv(&mut self, room: &mut [u8], handles: &mut Vec<PlainHandle>) -> Result<usize, IoCause>
        requires room { 0 < length room.old }
        requires list { handles.old.items ≡ [] }
        requires places { MAX_ATTACHED_FD_ENTRIES ≤ vec_capacity handles.old }
        ensures law { Receives event self.old room.old result room.new handles.new.items self.new }
        ensures places { vec_capacity handles.old ≤ vec_capacity handles.new }
        ensures exact { result ≡ received (allowed self.old.script (length room.old)) self.old.pending }
    {
        let most = next_cut(&mut self.script, room.len())?;
        Ok(self.pending.get(&mut room[..most], handles))
    }

    fn duplicate(&self) -> Result<MemLink, IoCause> {
        Err(IoCause::Named("link cannot be duplicated"))
    }

    fn of_handle(&self, _handle: PlainHandle) -> Result<MemLink, IoCause> {
        Ok(MemLink::new(self.alloc, Vec::new(self.alloc)))
    }
}

/// The stream of a link in memory is known, however it is split: what is handed out stood at the start, the end is reported only where
/// nothing is left, what is accepted is appended, and a failure is one of the script or a failed allocation.
pub fn stream_law()
    ensures stream { StreamLaw }
    ensures gives { GivesLaw }
{}
