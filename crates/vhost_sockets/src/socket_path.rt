//! A path that a daemon listens at: one daemon at a time has it, and gives it back at its end.

use crate::fresh::bind_fresh;
use crate::identity::Identity;
use crate::listening::Listening;
use crate::probe::is_bound;
use crate::standing::judge_file;
use std::alloc::Global;
use std::fs::{File, Files, OpenOptions, TryLockError};
use std::io::{ErrorKind, Write};
use std::net::Net;
use std::os::unix::fs::{FileTypeExt, OpenOptionsExt};
use std::os::unix::net::UnixListener;
use std::{fmt, fs, io};
use vhost_connection::Listener;
use vhost_link::UnixLink;
use vhost_message::Result as Answer;

/// How many bytes the path of a socket has at most.
pub const MAX_PATH: usize = 107;

/// How often a lock file is opened again that another daemon removed meanwhile.
const MAX_TRIES: u32 = 1000;

/// Why a path could not be claimed.
#[derive(Drop)]
pub enum ClaimError {
    /// The path is empty.
    Empty,
    /// It has so many bytes, and those of a socket at most `MAX_PATH`.
    TooLong(usize),
    /// A daemon has the lock of the path.
    Locked,
    /// A process has a socket there.
    InUse,
    /// Something is there that is no socket.
    NoSocket,
    /// The lock file could not be made or locked.
    LockFile(io::Error),
    /// The folder in which the socket is made could not be made.
    Folder(io::Error),
    /// No socket could be made there.
    Socket(io::Error),
    /// An allocation failed.
    OutOfMemory,
}

impl fmt::Display for ClaimError {
    fn fmt<W: fmt::Write>(&self, f: &mut fmt::Formatter<W>) -> fmt::Result {
        match self {
            ClaimError::Empty => f.write_str("the path is empty"),
            ClaimError::TooLong(len) => {
                write!(
                    f,
                    "the path is too long: {len} bytes, and at most {MAX_PATH} are allowed"
                )
            }
            ClaimError::Locked => f.write_str("another daemon has this path"),
            ClaimError::InUse => f.write_str("another process has a socket at this path"),
            ClaimError::NoSocket => f.write_str("there is a file at this path that is no socket"),
            ClaimError::LockFile(error) => write!(
                f,
                "no lock file at this path with .pid: {error}"
            ),
            ClaimError::Folder(error) => { write!(f, "no folder at this path with .new: {error}") }
            ClaimError::Socket(error) => write!(f, "no socket at this path: {error}"),
            ClaimError::OutOfMemory => f.write_str("out of memory"),
        }
    }
}

/// A listening socket at a path, and the lock of the path.
///
/// The lock is the file with `.pid` behind the path's name: who has it locked has the path. It holds the number of the process.
/// At its end both files are removed, if they still are the ones that were made.
pub struct SocketPath<R: Files<File = File> + Drop> {
    rt: R,
    path: String,
    listener: Listener<R>,
    /// Which file the socket has. While the socket is open no other file has these numbers.
    socket: Identity,
    lock: Lock,
}

/// A lock file that this process has locked.
#[derive(Drop)]
struct Lock {
    path: String,
    file: File,
    identity: Identity,
}

impl<R: Files<File = File> + Net + Drop> SocketPath<R> {
    /// Claims a path: locks it, and listens there. A socket that no process has is replaced; anything else there stays.
    ///
    /// `pid` is written to the lock file.
    pub fn claim(rt: R, alloc: Global, path: &str, pid: u32) -> Result<SocketPath<R>, ClaimError> {
        if path.is_empty() {
            return Err(ClaimError::Empty);
        }
        if path.len() > MAX_PATH {
            return Err(ClaimError::TooLong(path.len()));
        }
        let (Ok(kept), Ok(lock_path)) = (
            String::from_str(alloc, path),
            format!(in alloc; "{path}.pid"),
        ) else {
            return Err(ClaimError::OutOfMemory);
        };
        let lock = Lock::take(&rt, lock_path, pid)?;
        match bind(&rt, alloc, path) {
            Ok((listener, socket)) => Ok(SocketPath {
                rt,
                path: kept,
                listener: Listener::from(listener),
                socket,
                lock,
            }),
            Err(refused) => {
                lock.release(&rt);
                Err(refused)
            }
        }
    }
}

impl<R: Files<File = File> + Drop> SocketPath<R> {
    /// The path.
    pub fn path(&self) -> &str {
        self.path.as_str()
    }
}

impl<R: Files<File = File> + Drop> Listening for SocketPath<R> {
    fn accept(&self) -> Answer<Option<UnixLink>> {
        self.listener.accept()
    }
}

impl<R: Files<File = File> + Drop> Drop for SocketPath<R> {
    fn drop(self) {
        let SocketPath {
            rt,
            path,
            listener,
            socket,
            lock,
        } = self;
        if socket.is_at(&rt, path.as_str()) {
            let _ = fs::remove_file(&rt, path.as_str());
        }
        drop(listener);
        lock.release(&rt);
    }
}

impl Lock {
    /// Locks the file at a path, which is made if it is not there, and writes the number of the process to it.
    fn take<R: Files<File = File>>(rt: &R, path: String, pid: u32) -> Result<Lock, ClaimError> {
        for _ in 0..MAX_TRIES {
            let Some(file) = open_lock(rt, path.as_str())? else {
                continue;
            };
            let identity = match file.metadata() {
                Ok(found) => Identity::of(&found),
                Err(error) => return Err(ClaimError::LockFile(error)),
            };
            // Who had the lock before may have removed the file that was opened.
            if identity.is_at(rt, path.as_str()) {
                let mut lock = Lock {
                    path,
                    file,
                    identity,
                };
                lock.note(pid)?;
                return Ok(lock);
            }
        }
        Err(ClaimError::Locked)
    }

    /// Writes the number of the process.
    fn note(&mut self, pid: u32) -> Result<(), ClaimError> {
        match self.file.set_len(0) {
            Ok(()) => {}
            Err(error) => return Err(ClaimError::LockFile(error)),
        }
        match writeln!(self.file, "{pid}") {
            Ok(()) => Ok(()),
            Err(error) => Err(ClaimError::LockFile(error)),
        }
    }

    /// Removes the file, if it still is the one at the path, and gives the lock back.
    fn release<R: Files>(self, rt: &R) {
        let path = self.path.as_str();
        if self.identity.is_at(rt, path) {
            let _ = fs::remove_file(rt, path);
        }
    }
}

/// Opens a lock file, and locks it. None: it was removed meanwhile.
fn open_lock<R: Files<File = File>>(rt: &R, path: &str) -> Result<Option<File>, ClaimError> {
    let file = match make_or_open(rt, path) {
        Ok(Some(file)) => file,
        Ok(None) => return Ok(None),
        Err(error) => return Err(ClaimError::LockFile(error)),
    };
    match file.try_lock() {
        Ok(()) => Ok(Some(file)),
        Err(TryLockError::WouldBlock) => Err(ClaimError::Locked),
        Err(TryLockError::Error(error)) => Err(ClaimError::LockFile(error)),
    }
}

/// Makes a lock file, or opens the one that is there. None: it was there, and is no longer.
fn make_or_open<R: Files<File = File>>(rt: &R, path: &str) -> io::Result<Option<File>> {
    let mut how = OpenOptions::new();
    how.read(true).write(true).create_new(true).mode(0o600);
    match how.open(rt, path) {
        Ok(file) => return Ok(Some(file)),
        Err(error) if error.kind() == ErrorKind::AlreadyExists => {}
        Err(error) => return Err(error),
    }
    match open_left_over(rt, path) {
        Ok(file) => Ok(Some(file)),
        Err(error) if error.kind() == ErrorKind::NotFound => Ok(None),
        Err(error) => Err(error),
    }
}

/// Opens the lock file that a daemon left. Anything else stays as it is, and is the error.
///
/// It is looked at before, since a device may do something when it is opened, and a FIFO waits unless it is opened for reading and writing.
/// It is looked at again then, since it may be another meanwhile.
fn open_left_over<R: Files<File = File>>(rt: &R, path: &str) -> io::Result<File> {
    judge_file(&fs::symlink_metadata(rt, path)?)?;
    let mut how = OpenOptions::new();
    let file = how.read(true).write(true).open(rt, path)?;
    judge_file(&file.metadata()?)?;
    Ok(file)
}

/// Listens at a path; a socket there that no process has is removed first.
fn bind<R: Files<File = File> + Net>(
    rt: &R,
    alloc: Global,
    path: &str,
) -> Result<(UnixListener, Identity), ClaimError> {
    make_room(rt, path)?;
    bind_fresh(rt, alloc, path)
}

/// Removes a socket that no process has.
fn make_room<R: Files + Net>(rt: &R, path: &str) -> Result<(), ClaimError> {
    match fs::symlink_metadata(rt, path) {
        Ok(found) if !found.file_type().is_socket() => return Err(ClaimError::NoSocket),
        Ok(_) => {}
        // Nothing is there.
        Err(_) => return Ok(()),
    }
    match is_bound(rt, path) {
        Ok(false) => {}
        Ok(true) => return Err(ClaimError::InUse),
        Err(error) => return Err(ClaimError::Socket(error)),
    }
    match fs::remove_file(rt, path) {
        Ok(()) => Ok(()),
        Err(error) => Err(ClaimError::Socket(error)),
    }
}
