//! Laws of the definitions.

pub mod concrete;
pub mod lockstep;
pub mod messages;
pub mod replies;
pub mod reverse;
pub mod rows;
