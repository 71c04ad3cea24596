//! What the sessions of one daemon share.

use crate::failure::Failure;
use crate::lines::Lines;
use crate::session::Ended;
use std::alloc::Global;
use std::io;
use std::io::{BufWriter, Write};
use std::sync::atomic::{AtomicBool, AtomicU64, Ordering};
use std::sync::{Mutex, Wait};
use std::thread::Parker;
use std::time::Duration;
use vhost_message::{Error, HeardReq};

/// How many bytes of a line are written at once.
const LINE: usize = 512;

/// What the sessions of one daemon share: how many run, how they ended, and where lines go.
pub(crate) trait Sessions: Drop {
    /// Makes room for the line of one more session. False: there is no memory for it.
    fn expect_one<R: Wait>(&self, rt: &R) -> bool;

    /// A session begins to run.
    fn begin(&self);

    /// A session no longer runs: who waits for one to end goes on.
    fn leave(&self);

    /// A session could not begin to run: nobody goes on for that.
    fn withdraw(&self);

    /// Notes how a session ended. Its line is written once each session before it has ended: here, or by the thread that writes lines
    /// already.
    fn end<R: Wait>(&self, rt: &R, session: u64, ended: Ended);

    /// Waits until a session ends, or for this long. False: none runs.
    fn wait<R: Wait>(&self, rt: &R, limit: Duration) -> bool;

    /// Whether the output failed.
    fn has_failed(&self) -> bool;

    /// Reports a failure.
    fn report<R: Wait>(&self, rt: &R, failure: &Failure);

    /// Reports that the next client waits for what it lacks.
    fn report_wait<R: Wait>(&self, rt: &R, failure: &Failure);

    /// Reports a request that was refused; its code is None where its header did not come whole.
    fn report_refusal<R: Wait>(
        &self,
        rt: &R,
        session: u64,
        request: u32,
        code: Option<u32>,
        error: &Error,
    );
}

/// The sessions that run, the lines of those that ended, and where lines go.
#[derive(Drop)]
pub(crate) struct Shared<W: io::Write + Drop, E: io::Write + Drop> {
    running: AtomicU64,
    /// Wakes who waits for a session to end.
    one_ended: Parker,
    lines: Mutex<Lines>,
    output: Mutex<BufWriter<W>>,
    /// Whether the output failed.
    is_silent: AtomicBool,
    errors: Mutex<BufWriter<E>>,
    /// The path of the socket.
    path: String,
}

impl<W: io::Write + Drop, E: io::Write + Drop> Shared<W, E> {
    /// Before the first session, at the socket of this path. Each line goes out by one write, so it is there whole or not at all.
    ///
    /// Its error is that memory could not be allocated.
    pub(crate) fn new(alloc: Global, output: W, errors: E, path: &str) -> io::Result<Shared<W, E>> {
        Ok(Shared {
            running: AtomicU64::new(0),
            one_ended: Parker::new(),
            lines: Mutex::new(Lines::new(alloc)),
            output: Mutex::new(BufWriter::with_capacity(alloc, LINE, output)?),
            is_silent: AtomicBool::new(false),
            errors: Mutex::new(BufWriter::with_capacity(alloc, LINE, errors)?),
            path: String::from_str(alloc, path)?,
        })
    }

    /// Writes each line that is due, until none is. Only who has that from `Lines` calls it.
    fn write_lines<R: Wait>(&self, rt: &R) {
        let mut output = self.output.lock(rt);
        for _ in 0..u64::MAX {
            let due = self.lines.lock(rt).due();
            let Some((session, ended)) = due else {
                return;
            };
            if self.has_failed() {
                continue;
            }
            let (requests, end) = (ended.requests, ended.end);
            let written = writeln!(output, "session {session}: {requests} requests, end {end}");
            if let Err(error) = written.and_then(|()| output.flush()) {
                self.is_silent.store(true, Ordering::SeqCst);
                self.report(rt, &Failure::Output(error));
            }
        }
    }
}

impl<W: io::Write + Drop, E: io::Write + Drop> Sessions for Shared<W, E> {
    fn expect_one<R: Wait>(&self, rt: &R) -> bool {
        self.lines.lock(rt).begin().is_ok()
    }

    fn begin(&self) {
        self.running.fetch_add(1, Ordering::SeqCst);
    }

    fn leave(&self) {
        self.running.fetch_sub(1, Ordering::SeqCst);
        self.one_ended.unpark();
    }

    fn withdraw(&self) {
        self.running.fetch_sub(1, Ordering::SeqCst);
    }

    fn end<R: Wait>(&self, rt: &R, session: u64, ended: Ended) {
        let is_to_write = self.lines.lock(rt).end(session, ended);
        if is_to_write {
            self.write_lines(rt);
        }
    }

    fn wait<R: Wait>(&self, rt: &R, limit: Duration) -> bool {
        let runs = self.running.load(Ordering::SeqCst) > 0;
        self.one_ended.park_timeout(rt, limit);
        runs
    }

    fn has_failed(&self) -> bool {
        self.is_silent.load(Ordering::SeqCst)
    }

    fn report<R: Wait>(&self, rt: &R, failure: &Failure) {
        let mut errors = self.errors.lock(rt);
        let path = self.path.as_str();
        let _ = writeln!(errors, "vhost-daemon: {path}: {failure}");
        let _ = errors.flush();
    }

    fn report_wait<R: Wait>(&self, rt: &R, failure: &Failure) {
        let mut errors = self.errors.lock(rt);
        let path = self.path.as_str();
        let _ = writeln!(
            errors,
            "vhost-daemon: {path}: the next client waits: {failure}"
        );
        let _ = errors.flush();
    }

    fn report_refusal<R: Wait>(
        &self,
        rt: &R,
        session: u64,
        request: u32,
        code: Option<u32>,
        error: &Error,
    ) {
        let mut errors = self.errors.lock(rt);
        let _ = match code.map(|code| (code, HeardReq::try_from(code))) {
            None => writeln!(
                errors,
                "session {session}: request {request}, no header: {error:?}"
            ),
            Some((_, Ok(name))) => {
                writeln!(
                    errors,
                    "session {session}: request {request}, {name:?}: {error:?}"
                )
            }
            Some((code, Err(()))) => {
                writeln!(
                    errors,
                    "session {session}: request {request}, code {code}: {error:?}"
                )
            }
        };
        let _ = errors.flush();
    }
}
