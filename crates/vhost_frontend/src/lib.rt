//! The frontend: each call of a frontend whole, and a session that many threads may use.
#![tactic(auto)]

mod connect;
mod frontend;
mod held;
mod memory_context;
mod quiet;
mod sharing;
mod traits;

pub use frontend::Frontend;
pub use memory_context::VhostUserMemoryContext;
pub use quiet::Quiet;
pub use traits::VhostUserFrontend;
pub use vhost_frontend_core::{Answer, Call, FrontendInternal, Sent};
