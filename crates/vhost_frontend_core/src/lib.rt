//! The frontend: a frontend's session over a link, each call in two halves; and its calls as values.
#![tactic(auto)]

mod answer;
mod asked;
mod call;
mod internal;
mod regions;
mod session;
mod values;

pub use answer::Answer;
pub use asked::Sent;
pub use call::Call;
pub use internal::FrontendInternal;
pub use regions::{RegionInfo, Regions};
pub use values::{FrontendAnswer, FrontendCall, LogRegion, ask, take};
pub use vhost_protocol::{Awaited, Profile, Shape};
