//! Whether two calls of a frontend, or two of its answers, are the same.
#![tactic(auto)]

mod answers;
mod calls;
mod errors;
mod records;

pub use answers::is_same_answer;
pub use calls::is_same_call;
