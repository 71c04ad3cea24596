//! A frontend's calls as logs and lines keep them, and answers.

mod answer;
mod asking;
mod call;

pub use answer::FrontendAnswer;
pub use asking::{ask, take};
pub use call::{FrontendCall, LogRegion};
