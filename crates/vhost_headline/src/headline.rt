//! The theorem: what the library promises over every link and of every device, each statement the contract of one function.

ghost use Rattle.std.specs.Prelude.{◌≡◌, ◌≤◌, ◌∷◌, [], Bool, IfOk, length, map};
ghost use Rattle.vhost_headline.specs.Headline.{IsInStep, IsLegalLog, MeetsItsRowOrFails, NothingStopped, RunsAsServed, SafeAndTotal};
ghost use Rattle.vhost_message.specs.declared.limits.TheConstants.{MAX_ATTACHED_FD_ENTRIES};
ghost use Rattle.vhost_joined.specs.Joined.{Offers};
ghost use Rattle.vhost_joined.specs.Lockstep.{ArePlain};
ghost use Rattle.vhost_promises.specs.Rings.{Arrives, part_cells, sent_cells};
ghost use Rattle.vhost_promises.specs.Shared.{OwnAnswer};
ghost use Rattle.vhost_recorder.specs.Share.{count_of, parts_of};
ghost use Rattle.vhost_protocol.specs.FrontendCall as call;
ghost use Rattle.vhost_device.specs.Reached.{by_trait};

use std::alloc::{AllocError, Global};
use std::sync::Wait;
use std::sync::ledger::Ledger;
use std::thread::Threads;
use vhost_backend_req_handler::SessionCore;
use vhost_device::VhostUserBackendReqHandlerMut;
use vhost_frontend::Frontend;
use vhost_frontend_core::{FrontendAnswer, FrontendCall};
use vhost_joined::{Halt, Joined};
use vhost_link::{Cut, Link, MemLink, PlainHandle};
use vhost_promises::{Carried, carries, own_features};
use vhost_protocol::Profile;
use vhost_recorder::{Log, Recorder, Share};

/// 1. Safe and total: whatever a peer sends, and however it is cut.
pub fn safe_and_total<L: Link, D: VhostUserBackendReqHandlerMut<Link = L>>(
    core: &mut SessionCore<L>,
    device: &mut D,
) -> vhost_message::Result<()>
    ensures { SafeAndTotal L.event L.opens L.Handle.kinds (by_trait D.gives) core.old device.old core.new device.new result }
{
    core.handle_request(device)
}

/// 2. Each call meets its row, or its link or want of memory kept it from being served.
pub fn each_call<L: Link, D: VhostUserBackendReqHandlerMut<Link = L>>(
    core: &mut SessionCore<L>,
    device: &mut D,
) -> vhost_message::Result<()>
    ensures { MeetsItsRowOrFails L.event L.opens L.Handle.kinds (by_trait D.gives) core.old device.old core.new device.new result }
{
    core.handle_request(device)
}

/// 3. Whole runs: so many requests, as far as they were served.
pub fn whole_runs<L: Link, D: VhostUserBackendReqHandlerMut<Link = L>>(
    alloc: Global,
    core: &mut SessionCore<L>,
    device: &mut D,
    count: usize,
) -> vhost_message::Result<Vec<vhost_message::Result<()>>>
    ensures { IfOk result (λ answers. RunsAsServed L.event L.opens L.Handle.kinds (by_trait D.gives) core.old device.old core.new device.new count answers.items) }
{
    let mut answers = Vec::new(alloc);
    core.run(count, device, &mut answers)?;
    Ok(answers)
}

/// 4. Lockstep: a frontend joined to a backend over links in memory, which go as the scripts say.
pub fn lockstep<D: VhostUserBackendReqHandlerMut<Link = MemLink>>(
    alloc: Global,
    device: D,
    profile: Profile,
    queues: u64,
    retries: u32,
    scripts: (Vec<Cut>, Vec<Cut>),
    calls: &[FrontendCall],
) -> Result<(Joined<D>, Vec<FrontendAnswer>), Halt>
    ensures { IfOk result (λ done. (bit : Bool) → Offers (by_trait D.gives) bit → ArePlain calls.now → NothingStopped done.0 → IsInStep (by_trait D.gives) profile queues device calls.now done.1.items done.0) }
{
    let mut joined = Joined::new(alloc, device, queues, retries, scripts)?;
    joined.set_profile(profile);
    let mut answers = Vec::new(alloc);
    // (a run that halts keeps the answers until there)
    let _ = joined.run(calls, &mut answers);
    Ok((joined, answers))
}

/// 5. Threads: the log of callers that share both sides, for every interleaving. It has an entry for each call that was answered.
pub fn threads<D: VhostUserBackendReqHandlerMut<Link = MemLink>, L: Ledger>(
    recorder: Recorder<D, L>,
    whole: Share<L>,
) -> Log<D>
    requires { parts_of whole ≡ L.parts }
    ensures as_many { length result.entries ≡ count_of whole }
    ensures legal { IsLegalLog (by_trait D.gives) result }
{
    let log = recorder.close(whole);
    let _ = log.entries();
    log
}

/// 5. Threads: a caller of a shared frontend is told the answer to its own request, whatever others ask.
pub fn own_answer<L: Link>(frontend: &Frontend<L>, rt: &impl Wait) -> vhost_backend::Result<u64>
    ensures { IfOk result (λ features. OwnAnswer L.event call.GetFeatures (call.Number features)) }
{
    own_features(frontend, rt)
}

/// 5. Ring: bytes and handles that one thread sends and another receives. None are lost, added or exchanged.
pub fn ring<R: Threads + Sync>(
    rt: &R,
    alloc: Global,
    bytes: &[u8],
    handles: &[&PlainHandle],
    calls: u32,
) -> Result<Carried, AllocError>
    requires { length handles.now ≤ MAX_ATTACHED_FD_ENTRIES }
    ensures { IfOk result (λ r. Arrives (sent_cells (map (λ h. h.now) handles.now) bytes.now r.counts.items) (part_cells r.parts.items) r.left) }
{
    carries(rt, alloc, bytes, handles, calls)
}
