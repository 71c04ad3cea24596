//! Messages on a link, and answers of a frontend, as text of one line.

mod answer;
mod error;
mod lists;
mod message;

pub use answer::Answer;
pub use error::name_of;
pub use message::Message;
