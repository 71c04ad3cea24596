//! Answers over links in memory, as logs and lines keep them.

ghost use Rattle.std.specs.Prelude.{◌≡◌};
ghost use Rattle.vhost_protocol.specs.Error.{seen_result};
ghost use Rattle.vhost_frontend_core.specs.Values.{answer_of, outcome_of};

use crate::answer::Answer;
use vhost_link::PlainHandle;
use vhost_message::{Error, VhostUserConfig, VhostUserInflight, VhostUserShMemConfig};

/// What a call of the frontend answered.
#[derive(Drop)]
pub enum FrontendAnswer {
    /// It failed.
    Failed(Error),
    /// It succeeded, and returns no value.
    Done,
    /// A number, or features.
    Number(u64),
    /// Where the regions of a table are mapped, if the backend listens for page faults.
    Bases(Option<Vec<u64>>),
    /// Where a region is mapped, if the backend listens for page faults.
    Base(Option<u64>),
    /// A part of the configuration space, and its bytes.
    Config(VhostUserConfig, Vec<u8>),
    Handle(PlainHandle),
    /// The inflight region.
    Inflight(VhostUserInflight, PlainHandle),
    /// The descriptor over which the backend's state goes, if the backend gives another
    /// one.
    StateHandle(Option<PlainHandle>),
    /// The regions of shared memory, which are too large to be moved about.
    ShmemConfig(Box<VhostUserShMemConfig>),
}

impl FrontendAnswer {
    /// An answer over links in memory.
    pub(crate) fn of(answer: Answer<PlainHandle>) -> FrontendAnswer
        ensures { answer_of result ≡ seen_result (outcome_of answer) }
    {
        match answer {
            Answer::Failed(error) => FrontendAnswer::Failed(error),
            Answer::Done => FrontendAnswer::Done,
            Answer::Number(number) => FrontendAnswer::Number(number),
            Answer::Bases(bases) => FrontendAnswer::Bases(bases),
            Answer::Base(base) => FrontendAnswer::Base(base),
            Answer::Config(part, bytes) => FrontendAnswer::Config(part, bytes),
            Answer::Handle(handle) => FrontendAnswer::Handle(handle),
            Answer::Inflight(area, handle) => FrontendAnswer::Inflight(area, handle),
            Answer::StateHandle(handle) => FrontendAnswer::StateHandle(handle),
            Answer::ShmemConfig(place) => FrontendAnswer::ShmemConfig(place),
        }
    }
}
