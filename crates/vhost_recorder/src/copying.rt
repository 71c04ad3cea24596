//! Copies of calls and of answers.

mod answers;
mod calls;
mod errors;

pub use answers::{Room, copy_answer};
pub use calls::copy_call;
