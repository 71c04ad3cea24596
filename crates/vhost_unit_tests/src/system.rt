//! What tests with threads and sockets need of the system.

use std::fs::Files;
use std::net::Net;
use std::sync::Wait;
use std::thread::Threads;
use std::time::Clock;

/// All of it. Tests are for any system, since naming the runtime costs the checker much.
pub(crate) trait System: Threads + Wait + Clock + Net + Files + Sync {}

impl<R: Threads + Wait + Clock + Net + Files + Sync> System for R {}
