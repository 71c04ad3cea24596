//! A socket that is made in a folder of its own, and gets the name of a path once it is known which file it has.

use crate::identity::Identity;
use crate::socket_path::{ClaimError, MAX_PATH};
use crate::standing::judge_folder;
use os::FromRawFd;
use std::alloc::Global;
use std::fs::{DirBuilder, File, Files};
use std::io::ErrorKind;
use std::net::Net;
use std::os::fd::{AsRawFd, OwnedFd};
use std::os::unix::fs::{DirBuilderExt, FileTypeExt};
use std::os::unix::net::UnixListener;
use std::{fs, io};

/// Listens at a path, and says which file the socket has. What is at the path already stays, and is the error `AlreadyExists`.
///
/// The socket is made in a folder beside the path that no other user may enter, and gets the path's name by a hard link. So what takes
/// that name afterwards is never taken for it. Whatever comes of it, nothing but the path is left.
///
/// Only who has the lock of the path may call this.
pub(crate) fn bind_fresh<R: Files<File = File> + Net>(
    rt: &R,
    alloc: Global,
    path: &str,
) -> Result<(UnixListener, Identity), ClaimError> {
    let (Ok(folder), Ok(socket)) = (
        format!(in alloc; "{path}.new"),
        format!(in alloc; "{path}.new/s"),
    ) else {
        return Err(ClaimError::OutOfMemory);
    };
    let (folder, socket) = (folder.as_str(), socket.as_str());
    match make_folder(rt, folder, socket) {
        Ok(()) => {}
        Err(error) => return Err(ClaimError::Folder(error)),
    }
    let bound = listen_and_name(rt, alloc, folder, socket, path);
    let _ = fs::remove_file(rt, socket);
    let _ = fs::remove_dir(rt, folder);
    match bound {
        Ok(bound) => Ok(bound),
        Err(error) if error.kind() == ErrorKind::OutOfMemory => Err(ClaimError::OutOfMemory),
        Err(error) => Err(ClaimError::Socket(error)),
    }
}

/// Makes the folder. One of this user that is there already was left by a process that was killed: it is made anew, unless something else
/// is in it.
///
/// A link to a folder is none, and another user may change his: nothing in these is touched.
fn make_folder<R: Files>(rt: &R, folder: &str, socket: &str) -> io::Result<()> {
    let mut private = DirBuilder::new();
    private.mode(0o700);
    match private.create(rt, folder) {
        Err(error) if error.kind() == ErrorKind::AlreadyExists => {}
        made => return made,
    }
    judge_folder(&fs::symlink_metadata(rt, folder)?)?;
    match fs::remove_dir(rt, folder) {
        Err(error) if error.kind() == ErrorKind::DirectoryNotEmpty => {
            remove_socket(rt, socket)?;
            fs::remove_dir(rt, folder)?;
        }
        removed => removed?,
    }
    private.create(rt, folder)
}

/// Removes the socket that was left in the folder; another file stays.
fn remove_socket<R: Files>(rt: &R, socket: &str) -> io::Result<()> {
    match fs::symlink_metadata(rt, socket) {
        Ok(found) if found.file_type().is_socket() => fs::remove_file(rt, socket),
        _ => Ok(()),
    }
}

/// Listens in the folder, and then gives the socket the path's name.
fn listen_and_name<R: Files<File = File> + Net>(
    rt: &R,
    alloc: Global,
    folder: &str,
    socket: &str,
    path: &str,
) -> io::Result<(UnixListener, Identity)> {
    let listener = listen_in(rt, alloc, folder, socket)?;
    let identity = Identity::of(&fs::symlink_metadata(rt, socket)?);
    fs::hard_link(rt, socket, path)?;
    Ok((listener, identity))
}

/// Listens in the folder. Where the socket's name there is too long, the folder is named by a descriptor.
fn listen_in<R: Files<File = File> + Net>(
    rt: &R,
    alloc: Global,
    folder: &str,
    socket: &str,
) -> io::Result<UnixListener> {
    if socket.len() <= MAX_PATH {
        return UnixListener::bind(rt, socket);
    }
    let opened = open_folder(rt, folder)?;
    let fd = opened.as_raw_fd();
    let short = format!(in alloc; "/proc/self/fd/{fd}/s")?;
    UnixListener::bind(rt, short.as_str())
}

/// Opens a folder. A link to one is refused, and nothing else is opened.
fn open_folder<R: Files>(_rt: &R, folder: &str) -> io::Result<OwnedFd> {
    let opened = os::open_dir_at(libc::AT_FDCWD, folder.as_bytes());
    if opened < 0 {
        return Err(io::Error::from_raw_os_error(os::errno()));
    }
    Ok(unsafe { OwnedFd::from_raw_fd(opened) })
}
