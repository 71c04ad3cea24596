//! What goes over Unix sockets.

mod connecting;
mod device;
mod links;
mod listening;
mod outcome;
