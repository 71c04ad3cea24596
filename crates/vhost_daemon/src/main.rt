//! Serves example devices at a Unix socket: each connection is a session in a thread of its own.
#![tactic(auto)]

mod arguments;

use arguments::{Call, Wrong, call_of};
use std::alloc::Global;
use std::fs::{File, Files};
use std::io::{ErrorKind, Print, Write};
use std::net::Net;
use std::os::fd::{AsRawFd, IntoRawFd};
use std::process::ExitCode;
use std::sync::Wait;
use std::thread::Threads;
use std::{env, io, process};
use vhost_backend_req_handler::Open;
pub use vhost_sockets::serve;
use vhost_sockets::{ClaimError, Options, SocketPath, serve_path};

/// What `--version` says.
const VERSION: &str = "vhost-daemon 0.3.0";

/// What `--print-capabilities` says: the type of device, which has no features that are named.
const CAPABILITIES: &str = "{\n  \"type\": \"net\"\n}";

/// What `--help` says.
const HELP: &str = "usage: vhost-daemon PATH COUNT
   or: vhost-daemon --socket-path=PATH [--count=N] [--profile=NAME]

Serves an example device to each client that connects to the Unix socket at PATH.

  COUNT                 how many connections are accepted, 1 to 1024
  --socket-path=PATH    the same PATH
  --count=N             how many connections are accepted; without it, as many as come
  --profile=NAME        standard: as the specification and real frontends want it; vhost: as the crate vhost, which is what it does
                        without it
  -v                    reports on standard error each request that is refused
  --print-capabilities  prints what the device is, in JSON
  --version             prints the version
  -h, --help            prints this";

/// How many standard streams there are: their descriptors are the first numbers.
const STREAMS: i32 = 3;

/// Listens at a path, and serves who connects.
///
/// Status 0 once all sessions have ended, 1 where the arguments are wrong, and 2 where something failed outside of the sessions.
fn main(rt: HostRuntime) -> ExitCode {
    let mut errors = rt.stderr();
    let words = match words_of(&rt) {
        Ok(words) => words,
        Err(error) if error.kind() == ErrorKind::InvalidData => {
            let _ = writeln!(errors, "vhost-daemon: an argument is not UTF-8");
            return usage(&mut errors);
        }
        Err(_) => {
            let _ = writeln!(errors, "vhost-daemon: out of memory");
            return ExitCode::from(2);
        }
    };
    match call_of(words.as_slice()) {
        Ok(Call::Help) => say(&rt, HELP),
        Ok(Call::Version) => say(&rt, VERSION),
        Ok(Call::Capabilities) => say(&rt, CAPABILITIES),
        Ok(Call::Serve(path, options)) => {
            let pid = process::id(rt.process());
            listen(&rt, rt.alloc(), pid, path, options, &mut errors)
        }
        Err(Wrong::Form) => usage(&mut errors),
        Err(wrong) => {
            let _ = writeln!(errors, "vhost-daemon: {wrong}");
            usage(&mut errors)
        }
    }
}

/// The arguments, without the program's name.
fn words_of(rt: &HostRuntime) -> io::Result<Vec<String>> {
    let mut words = Vec::new(rt.alloc());
    for word in env::args(rt)?.skip(1) {
        words.push(word)?;
    }
    Ok(words)
}

/// Serves at a path; the status.
fn listen<R, E>(
    rt: &R,
    alloc: Global,
    pid: u32,
    path: &str,
    options: Options,
    errors: &mut E,
) -> ExitCode
where
    R: Threads + Wait + Net + Files<File = File> + Print + Sync,
    E: io::Write + Send,
{
    if let Err(error) = hold_streams(rt) {
        let _ = writeln!(errors, "vhost-daemon: the standard streams: {error}");
        return ExitCode::from(2);
    }
    match SocketPath::claim(rt, alloc, path, pid) {
        Ok(claimed) => {
            let mut output = io::writer(rt);
            ExitCode::from(serve_path(rt, alloc, claimed, options, &Open, &mut output, errors))
        }
        Err(refused) => {
            let _ = writeln!(errors, "vhost-daemon: {path}: {refused}");
            match refused {
                ClaimError::Empty => usage(errors),
                _ => ExitCode::from(2),
            }
        }
    }
}

/// Opens a folder in the place of each standard stream that is closed. Else a file or a socket would have its number next, and would get
/// what is written to the stream. To a folder nothing can be written, and that of the root is always there.
fn hold_streams<R: Files<File = File>>(rt: &R) -> io::Result<()> {
    for _ in 0..STREAMS {
        let opened = File::open(rt, "/")?;
        if opened.as_raw_fd() >= STREAMS {
            return Ok(());
        }
        // From here on nobody closes it.
        let _ = opened.into_raw_fd();
    }
    Ok(())
}

/// Prints a text on standard output; the status.
fn say(rt: &HostRuntime, text: &str) -> ExitCode {
    match println!(rt; "{text}") {
        Ok(()) => ExitCode::from(0),
        Err(error) => {
            let mut errors = rt.stderr();
            let _ = writeln!(errors, "vhost-daemon: the output failed: {error}");
            ExitCode::from(2)
        }
    }
}

/// Says how it is called; the status.
fn usage<W: io::Write>(errors: &mut W) -> ExitCode {
    let _ = writeln!(errors, "usage: vhost-daemon PATH COUNT");
    ExitCode::from(1)
}
