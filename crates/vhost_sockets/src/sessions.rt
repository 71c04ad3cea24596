//! Many sessions side by side.

use crate::failure::Failure;
use crate::listening::{Lent, Listening};
use crate::refusals::Refusals;
use crate::seen::{LastCode, SeenLink};
use crate::session::{BUDGET, Ended, Unwatched, Watch, serve_watched};
use crate::shared::{Sessions, Shared};
use crate::socket_path::SocketPath;
use std::alloc::Global;
use std::fs::{File, Files};
use std::sync::{Arc, Mutex, Wait};
use std::thread::Threads;
use std::time::Duration;
use std::{io, thread};
use vhost_backend_req_handler::{BackendReqHandler, Gate};
use vhost_connection::Listener;
use vhost_dummy_backend::DummyBackendReqHandler;
use vhost_link::UnixLink;
use vhost_message::Error;
use vhost_protocol::Profile;

type Handler<'a> = BackendReqHandler<SeenLink<'a>, Mutex<DummyBackendReqHandler<SeenLink<'a>>>>;

/// How long the next client waits before it is tried again, unless a session ends, in milliseconds.
const PAUSE_MILLIS: u64 = 100;

/// How often it is tried where no session runs that could give back what is lacking.
const MAX_TRIES: u32 = 10;

/// How a daemon serves.
#[derive(Clone, Copy, Debug)]
pub struct Options {
    /// How many connections it accepts; None: as many as come.
    pub count: Option<u32>,
    /// Whether it reports each request that is refused.
    pub verbose: bool,
    /// Whose behaviour each session has.
    pub profile: Profile,
}

/// Accepts so many connections and serves each in a thread of its own, with an example device of its own. It writes a line for each
/// session, in the order of acceptance and as soon as this one and all before it have ended: `session N: K requests, end NAME`, K the
/// requests that were answered before the one that ended it. The answer comes when all sessions have ended, and is the status: 0, or 2
/// where something failed outside of the sessions, which a line of `errors` says.
///
/// A client for which a descriptor, memory or a thread is lacking waits until a session ends.
pub fn serve<R, F, G, W, E>(
    rt: &R,
    alloc: Global,
    listener: &mut Listener<F>,
    count: u32,
    gate: &G,
    output: &mut W,
    errors: &mut E,
) -> u8
where
    R: Threads + Wait + Sync,
    F: Files + Drop,
    G: Gate + Sync,
    W: io::Write + Send,
    E: io::Write + Send,
{
    let options = Options {
        count: Some(count),
        verbose: false,
        profile: Profile::Vhost,
    };
    let path = listener.path().unwrap_or("the listening socket");
    if let Ok(shared) = Shared::new(alloc, &mut *output, &mut *errors, path) {
        return serve_all(rt, alloc, Lent(listener), options, gate, &shared);
    }
    no_memory(errors)
}

/// The same at a path, which is given back once all connections were accepted: who comes later is refused.
pub fn serve_path<R, F, G, W, E>(
    rt: &R,
    alloc: Global,
    path: SocketPath<F>,
    options: Options,
    gate: &G,
    output: &mut W,
    errors: &mut E,
) -> u8
where
    R: Threads + Wait + Sync,
    F: Files<File = File> + Drop,
    G: Gate + Sync,
    W: io::Write + Send,
    E: io::Write + Send,
{
    if let Ok(shared) = Shared::new(alloc, &mut *output, &mut *errors, path.path()) {
        return serve_all(rt, alloc, path, options, gate, &shared);
    }
    no_memory(errors)
}

/// Reports that there is no memory to begin with; the status.
fn no_memory<E: io::Write>(errors: &mut E) -> u8 {
    let _ = writeln!(errors, "vhost-daemon: out of memory");
    2
}

/// Serves who connects at a listening socket, which is closed once all connections were accepted. The answer is the status.
fn serve_all<R, D, G, S>(
    rt: &R,
    alloc: Global,
    listener: D,
    options: Options,
    gate: &G,
    shared: &S,
) -> u8
where
    R: Threads + Wait + Sync,
    D: Listening,
    G: Gate + Sync,
    S: Sessions + Sync,
{
    let count = match options.count {
        Some(count) => u64::from(count),
        None => u64::MAX,
    };
    let has_failed = thread::scope(thread::scope_env(), rt, move |scope| -> bool {
        let mut session: u64 = 0;
        let mut backoff = Backoff::new();
        // A session for which no thread could be started yet.
        let mut waiting = None;
        for _ in 0..u64::MAX {
            let job = match waiting.take() {
                Some(job) => job,
                None if session >= count => break,
                None => {
                    let Some(link) = next_link(rt, &listener, shared) else {
                        return true;
                    };
                    session = session.saturating_add(1);
                    move || serve_whole(rt, alloc, session, link, gate, shared, options)
                }
            };
            shared.begin();
            match scope.spawn(job) {
                Ok(_) => backoff = Backoff::new(),
                Err(refused) => {
                    shared.withdraw();
                    waiting = Some(refused.value);
                    if !backoff.waits(rt, shared, &Failure::Thread) {
                        return true;
                    }
                }
            }
        }
        drop(listener);
        false
    });
    if has_failed || shared.has_failed() {
        2
    } else {
        0
    }
}

/// How long the next client has waited.
#[derive(Drop)]
struct Backoff {
    /// How often it was tried where no session ran.
    tries: u32,
    was_reported: bool,
}

impl Backoff {
    fn new() -> Backoff {
        Backoff {
            tries: 0,
            was_reported: false,
        }
    }

    /// Waits a while for a session to end. False where none runs, and it was tried often enough: then what is lacking is reported as the
    /// failure.
    fn waits<R: Wait, S: Sessions>(&mut self, rt: &R, shared: &S, lacking: &Failure) -> bool {
        if self.tries >= MAX_TRIES {
            shared.report(rt, lacking);
            return false;
        }
        if !shared.wait(rt, Duration::from_millis(PAUSE_MILLIS)) {
            self.tries += 1;
            return true;
        }
        self.tries = 0;
        if !self.was_reported {
            shared.report_wait(rt, lacking);
            self.was_reported = true;
        }
        true
    }
}

/// The next connection, with room for its line. None: there are no more, and why was reported.
fn next_link<R: Wait, D: Listening, S: Sessions>(
    rt: &R,
    listener: &D,
    shared: &S,
) -> Option<UnixLink> {
    let mut backoff = Backoff::new();
    for _ in 0..u64::MAX {
        let failure = match listener.accept() {
            Ok(Some(link)) => {
                if shared.expect_one(rt) {
                    return Some(link);
                }
                Failure::OutOfMemory
            }
            Ok(None) => continue,
            Err(error) => Failure::Listener(error),
        };
        if !failure.may_pass() {
            shared.report(rt, &failure);
            return None;
        }
        if !backoff.waits(rt, shared, &failure) {
            return None;
        }
    }
    None
}

/// Serves a session to its end.
fn serve_whole<R: Wait, G: Gate, S: Sessions>(
    rt: &R,
    alloc: Global,
    session: u64,
    link: UnixLink,
    gate: &G,
    shared: &S,
    options: Options,
) {
    let profile = options.profile;
    let ended = if options.verbose {
        serve_told(rt, alloc, session, link, profile, gate, shared)
    } else {
        let link = SeenLink::new(link, None);
        serve_over(rt, alloc, session, link, profile, gate, &Unwatched)
    };
    shared.end(rt, session, ended);
    shared.leave();
}

/// Serves a session to its end, and reports each request that it refuses.
fn serve_told<R: Wait, G: Gate, S: Sessions>(
    rt: &R,
    alloc: Global,
    session: u64,
    link: UnixLink,
    profile: Profile,
    gate: &G,
    shared: &S,
) -> Ended {
    let last = LastCode::new();
    let watch = Refusals {
        rt,
        shared,
        session,
        last: &last,
    };
    let seen = SeenLink::new(link, Some(&last));
    let ended = serve_over(rt, alloc, session, seen, profile, gate, &watch);
    drop(watch);
    ended
}

/// Serves a session over a link to its end, and closes the link.
fn serve_over<R: Wait, G: Gate, W: Watch>(
    rt: &R,
    alloc: Global,
    session: u64,
    link: SeenLink<'_>,
    profile: Profile,
    gate: &G,
    watch: &W,
) -> Ended {
    let session = u32::try_from(session).unwrap_or(u32::MAX);
    match handler_over(alloc, link) {
        Ok(mut handler) => {
            handler.set_profile(profile);
            serve_watched(rt, session, &mut handler, gate, watch)
        }
        Err(_) => Ended {
            requests: 0,
            end: "OutOfMemory",
        },
    }
}

/// A handler over a link, with a device of its own.
fn handler_over<'a>(alloc: Global, link: SeenLink<'a>) -> Result<Handler<'a>, Error> {
    let device = Mutex::new(DummyBackendReqHandler::new(alloc, Vec::new(alloc)));
    match Arc::new(alloc, device) {
        Ok(device) => BackendReqHandler::from_stream(alloc, link, BUDGET, device),
        Err(_) => Err(Error::OutOfMemory),
    }
}
