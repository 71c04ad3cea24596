//! Links between threads: rings and hubs.

mod hub;
mod part;
mod ring;
mod script;
mod threads;
