//! Numbers and texts from outside.

mod errors;
mod headers;
mod known;
mod numbers;
