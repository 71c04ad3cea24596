//! Backends as a VMM sees them: texts of errors, rings from outside, and each call through both wrappers.

mod calls;
mod errors;
mod plain;
