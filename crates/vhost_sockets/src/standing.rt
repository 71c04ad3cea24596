//! What stands at a path where a daemon makes a file or a folder: only what a daemon of the same user may have left is used.

use std::fs::{FileType, Metadata};
use std::io;
use std::os::unix::fs::{FileTypeExt, MetadataExt};

/// Whether it may be a daemon's file: a regular one of this user, with one name. The error says what it is.
pub(crate) fn judge_file(found: &Metadata) -> io::Result<()> {
    if !found.is_file() {
        return Err(io::Error::other(words_for(found.file_type())));
    }
    if found.nlink() > 1 {
        return Err(io::Error::other("a file with another name is there"));
    }
    judge_owner(found)
}

/// Whether it may be a daemon's folder: one of this user. The error says what it is.
pub(crate) fn judge_folder(found: &Metadata) -> io::Result<()> {
    if !found.is_dir() {
        return Err(io::Error::other(words_for(found.file_type())));
    }
    judge_owner(found)
}

fn judge_owner(found: &Metadata) -> io::Result<()> {
    if found.uid() == libc::geteuid() {
        Ok(())
    } else {
        Err(io::Error::other("it is another user's"))
    }
}

fn words_for(kind: FileType) -> &'static str {
    if kind.is_symlink() {
        "a symbolic link is there"
    } else if kind.is_dir() {
        "a folder is there"
    } else if kind.is_fifo() {
        "a FIFO is there"
    } else if kind.is_socket() {
        "a socket is there"
    } else if kind.is_file() {
        "a file is there"
    } else {
        "a device is there"
    }
}
