//! Four callers of a recorder in threads of their own.

ghost use Rattle.std.specs.Prelude.{◌≡◌, ◌+◌, ◌<◌, IfOk, length};
ghost use Rattle.vhost_recorder.specs.Share.{parts_of, count_of};

use std::alloc::Global;
use std::marker::Brand;
use std::sync::Wait;
use std::sync::ledger::{Blank, Ledger};
use std::thread::{Threads, join};
use vhost_device::VhostUserBackendReqHandlerMut;
use vhost_link::{Cut, MemLink};
use vhost_recorder::{FrontendCall, Halt, Log, Receipt, Recorder, Share};

/// What a caller hands back: its share, which has counted its receipts.
#[derive(Drop)]
struct Spent<L: Ledger> {
    share: Share<L>,
    receipts: Vec<Receipt>,
    ghost one_part: { parts_of share ≡ 1 },
    ghost counted: { count_of share ≡ length receipts.items },
}

/// The log of four callers, and the receipts of each.
#[derive(Drop)]
pub(crate) struct Crowd<D: VhostUserBackendReqHandlerMut<Link = MemLink>> {
    pub(crate) log: Log<D>,
    pub(crate) first: Vec<Receipt>,
    pub(crate) second: Vec<Receipt>,
    pub(crate) third: Vec<Receipt>,
    pub(crate) fourth: Vec<Receipt>,
}

/// What a caller begins with: a share that has counted nothing.
#[derive(Drop)]
struct Fresh<L: Ledger> {
    share: Share<L>,
    ghost one_part: { parts_of share ≡ 1 },
    ghost uncounted: { count_of share ≡ 0 },
}

/// One part for another caller.
fn fresh_share<L: Ledger>(all: &mut Share<L>, caller: u32) -> Fresh<L>
    requires { 1 < parts_of all.old }
    ensures parts { parts_of all.new + 1 ≡ parts_of all.old }
    ensures count { count_of all.new ≡ count_of all.old }
{
    Fresh {
        share: all.split(caller),
    }
}

/// Makes these calls, one after another, and keeps the receipts.
fn call_all<D: VhostUserBackendReqHandlerMut<Link = MemLink>, L: Ledger, R: Wait>(
    rt: &R,
    alloc: Global,
    recorder: &Recorder<D, L>,
    fresh: Fresh<L>,
    calls: &[FrontendCall],
) -> Spent<L> {
    let Fresh { mut share } = fresh;
    let mut receipts = Vec::new(alloc);
    for call in calls {
        if receipts.reserve(1).is_err() {
            break;
        }
        if let Ok(receipt) = recorder.call(rt, &mut share, call) {
            receipts.push_reserved(receipt);
        }
    }
    Spent { share, receipts }
}

/// What two threads hand back.
#[derive(Drop)]
struct Both<L: Ledger> {
    one: Spent<L>,
    other: Spent<L>,
}

/// Two callers in threads of their own.
fn two_ask<
    D: VhostUserBackendReqHandlerMut<Link = MemLink> + Send,
    L: Ledger + Send + Sync,
    R: Threads + Wait + Sync,
>(
    rt: &R,
    alloc: Global,
    recorder: &Recorder<D, L>,
    one: Fresh<L>,
    other: Fresh<L>,
    calls: &[FrontendCall],
) -> Both<L> {
    let (one, other) = join(
        rt,
        move || call_all(rt, alloc, recorder, one, calls),
        move || call_all(rt, alloc, recorder, other, calls),
    );
    Both { one, other }
}

/// Four callers, 1 to 4, in threads of their own, each of whom makes these calls. The log has as many entries as they have
/// receipts.
///
/// `Halt::OutOfMemory`: an allocation failed before the first call.
fn four_ask<
    D: VhostUserBackendReqHandlerMut<Link = MemLink> + Send,
    L: Ledger + Send + Sync,
    R: Threads + Wait + Sync,
>(
    rt: &R,
    alloc: Global,
    blank: Blank,
    device: D,
    calls: &[FrontendCall],
    link: (u32, Vec<Cut>),
) -> Result<Crowd<D>, Halt>
    requires { (blank.name ≡ L.name) × (blank.parts ≡ L.parts) × (L.parts ≡ 5) }
    ensures { IfOk result (λ crowd. length crowd.log.entries ≡ length crowd.first.items + length crowd.second.items + length crowd.third.items + length crowd.fourth.items) }
{
    let (budget, script) = link;
    let scripts = (script, Vec::new(alloc));
    let (recorder, mut all) = Recorder::<D, L>::open(blank, alloc, device, 2, budget, scripts)?;
    let first = fresh_share(&mut all, 1);
    let second = fresh_share(&mut all, 2);
    let third = fresh_share(&mut all, 3);
    let fourth = fresh_share(&mut all, 4);
    let shared = &recorder;
    let (left, right) = join(
        rt,
        move || two_ask(rt, alloc, shared, first, second, calls),
        move || two_ask(rt, alloc, shared, third, fourth, calls),
    );
    Ok(gather(recorder, all, left, right))
}

/// Ends a recorder once all shares came back.
fn gather<D: VhostUserBackendReqHandlerMut<Link = MemLink>, L: Ledger>(
    recorder: Recorder<D, L>,
    all: Share<L>,
    left: Both<L>,
    right: Both<L>,
) -> Crowd<D>
    requires { (parts_of all ≡ 1) × (count_of all ≡ 0) × (L.parts ≡ 5) }
    ensures { length result.log.entries ≡ length result.first.items + length result.second.items + length result.third.items + length result.fourth.items }
{
    let mut all = all;
    let Both { one, other: two } = left;
    let Both {
        one: three,
        other: four,
    } = right;
    let Spent {
        share,
        receipts: first,
    } = one;
    all.join(share);
    let Spent {
        share,
        receipts: second,
    } = two;
    all.join(share);
    let Spent {
        share,
        receipts: third,
    } = three;
    all.join(share);
    let Spent {
        share,
        receipts: fourth,
    } = four;
    all.join(share);
    Crowd {
        log: recorder.close(all),
        first,
        second,
        third,
        fourth,
    }
}

/// Four callers, 1 to 4, in threads of their own, each of whom makes these calls, with a retry limit, and a script of the frontend's
/// link. The log has as many entries as they have receipts.
///
/// `Halt::OutOfMemory`: an allocation failed before the first call.
pub(crate) fn four_callers<
    D: VhostUserBackendReqHandlerMut<Link = MemLink> + Send,
    R: Threads + Wait + Sync,
>(
    rt: &R,
    alloc: Global,
    device: D,
    calls: &[FrontendCall],
    link: (u32, Vec<Cut>),
) -> Result<Crowd<D>, Halt>
    ensures { IfOk result (λ crowd. length crowd.log.entries ≡ length crowd.first.items + length crowd.second.items + length crowd.third.items + length crowd.fourth.items) }
{
    four_ask::<D, Brand, R>(rt, alloc, Blank::new(5), device, calls, link)
}
