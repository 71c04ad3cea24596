//! Which file is at a path.

use std::fs;
use std::fs::{Files, Metadata};
use std::os::unix::fs::MetadataExt;

/// Which file it is: the numbers of its device and of its inode.
#[derive(Clone, Copy, PartialEq, Eq)]
pub(crate) struct Identity {
    device: u64,
    inode: u64,
}

impl Identity {
    pub(crate) fn of(found: &Metadata) -> Identity {
        Identity {
            device: found.dev(),
            inode: found.ino(),
        }
    }

    /// Whether it is the file that is at a path now.
    pub(crate) fn is_at<R: Files>(self, rt: &R, path: &str) -> bool {
        match fs::symlink_metadata(rt, path) {
            Ok(found) => Identity::of(&found) == self,
            Err(_) => false,
        }
    }
}
