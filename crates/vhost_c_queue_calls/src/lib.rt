//! A queue and the memory that it sees, for programs in C.
#![tactic(auto)]

mod holder;
mod loose;
mod memory;
mod opening;
mod places;
mod plain;
mod plain_packed;
mod rings;
mod stepping;
mod told;
mod walking;
