//! Tests of records, links, endpoints, sockets, threads, locks and recorders that no script can say. Beside its crate each would be proved twice, with its
//! tests and without; here they share what a check loads of the crates below.
#![tactic(auto)]

#[cfg(test)]
mod backend;
#[cfg(test)]
mod channels_for_c;
#[cfg(test)]
mod connection;
#[cfg(test)]
mod endpoint;
#[cfg(test)]
mod link;
#[cfg(test)]
mod locked;
#[cfg(test)]
mod message;
#[cfg(test)]
mod recorder;
#[cfg(test)]
mod rings;
#[cfg(test)]
mod serving;
#[cfg(test)]
mod sessions_for_c;
#[cfg(test)]
mod shared;
#[cfg(test)]
mod sockets;
#[cfg(test)]
mod system;
#[cfg(test)]
mod texts;
#[cfg(test)]
mod threads;
#[cfg(test)]
mod told;
