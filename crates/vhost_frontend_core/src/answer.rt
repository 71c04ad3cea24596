//! What a frontend answers its caller, over the descriptors of any link.

ghost use Rattle.std.specs.Prelude.{◌≡◌};
ghost use Rattle.vhost_protocol.specs.FrontendCall as value;
ghost use Rattle.vhost_frontend_core.specs.Kinds as kind;
ghost use Rattle.vhost_frontend_core.specs.Kinds.{IsOf};
ghost use Rattle.vhost_frontend_core.specs.Regions.{bases_seen};
ghost use Rattle.vhost_frontend_core.specs.Values.{outcome_of, shown};

use bitflags::Flags;
use vhost_message::{
    Error, Result, VhostUserConfig, VhostUserInflight, VhostUserProtocolFeatures,
    VhostUserShMemConfig,
};

/// What a call of a frontend answered.
#[derive(Drop)]
pub enum Answer<H> {
    /// It failed.
    Failed(Error),
    /// It succeeded, and returns no value.
    Done,
    /// A number, or features.
    Number(u64),
    /// Where the regions of a table are mapped, if the backend listens for page faults.
    Bases(Option<Vec<u64>>),
    /// Where a region is mapped, if the backend listens for page faults.
    Base(Option<u64>),
    /// A part of the configuration space, and its bytes.
    Config(VhostUserConfig, Vec<u8>),
    Handle(H),
    /// The inflight region.
    Inflight(VhostUserInflight, H),
    /// The descriptor over which the backend's state goes, if the backend gives another
    /// one.
    StateHandle(Option<H>),
    /// The regions of shared memory, which are too large to be moved about.
    ShmemConfig(Box<VhostUserShMemConfig>),
}

/// The answer of a call that returns no value.
pub(crate) fn done<H>(outcome: Result<()>) -> Answer<H>
    ensures same { outcome_of result ≡ shown (λ _. value.Nothing) outcome }
    ensures form { IsOf kind.Plain result }
{
    match outcome {
        Ok(()) => Answer::Done,
        Err(error) => Answer::Failed(error),
    }
}

/// The answer of a call that returns a number.
pub(crate) fn number<H>(outcome: Result<u64>) -> Answer<H>
    ensures same { outcome_of result ≡ shown value.Number outcome }
    ensures form { IsOf kind.Number result }
{
    match outcome {
        Ok(number) => Answer::Number(number),
        Err(error) => Answer::Failed(error),
    }
}

/// The answer of a call that returns a ring's next descriptor index.
pub(crate) fn ring_base<H>(outcome: Result<u32>) -> Answer<H>
    ensures same { outcome_of result ≡ shown value.Number outcome }
    ensures form { IsOf kind.RingIndex result }
{
    match outcome {
        Ok(base) => Answer::Number(base.into()),
        Err(error) => Answer::Failed(error),
    }
}

/// The answer of a call that returns protocol features.
pub(crate) fn features<H>(outcome: Result<VhostUserProtocolFeatures>) -> Answer<H>
    ensures same { outcome_of result ≡ shown (λ f. value.Number f.bits) outcome }
    ensures form { IsOf kind.Number result }
{
    match outcome {
        Ok(features) => Answer::Number(features.bits()),
        Err(error) => Answer::Failed(error),
    }
}

/// The answer of a call that returns where regions are mapped.
pub(crate) fn bases<H>(outcome: Result<Option<Vec<u64>>>) -> Answer<H>
    ensures same { outcome_of result ≡ shown (λ b. value.Bases (bases_seen b)) outcome }
    ensures form { IsOf kind.Bases result }
{
    match outcome {
        Ok(bases) => Answer::Bases(bases),
        Err(error) => Answer::Failed(error),
    }
}

/// The answer of a call that returns where a region is mapped.
pub(crate) fn base<H>(outcome: Result<Option<u64>>) -> Answer<H>
    ensures same { outcome_of result ≡ shown value.Base outcome }
    ensures form { IsOf kind.Base result }
{
    match outcome {
        Ok(base) => Answer::Base(base),
        Err(error) => Answer::Failed(error),
    }
}

/// The answer of a call that returns a part of the configuration space.
pub(crate) fn config<H>(outcome: Result<(VhostUserConfig, Vec<u8>)>) -> Answer<H>
    ensures same { outcome_of result ≡ shown (λ c. value.ConfigOf c.0 c.1.items) outcome }
    ensures form { IsOf kind.Bytes result }
{
    match outcome {
        Ok((part, bytes)) => Answer::Config(part, bytes),
        Err(error) => Answer::Failed(error),
    }
}

/// The answer of a call that returns a file descriptor.
pub(crate) fn handle<H>(outcome: Result<H>) -> Answer<H>
    ensures same { outcome_of result ≡ shown value.HandleOf outcome }
    ensures form { IsOf kind.OneHandle result }
{
    match outcome {
        Ok(handle) => Answer::Handle(handle),
        Err(error) => Answer::Failed(error),
    }
}

/// The answer of a call that returns the inflight region.
pub(crate) fn inflight<H>(outcome: Result<(VhostUserInflight, H)>) -> Answer<H>
    ensures same { outcome_of result ≡ shown (λ b. value.InflightOf b.0 b.1) outcome }
    ensures form { IsOf kind.Area result }
{
    match outcome {
        Ok((buffer, handle)) => Answer::Inflight(buffer, handle),
        Err(error) => Answer::Failed(error),
    }
}

/// The answer of a call that returns another descriptor for the state, if there is one.
pub(crate) fn state_handle<H>(outcome: Result<Option<H>>) -> Answer<H>
    ensures same { outcome_of result ≡ shown value.StateHandle outcome }
    ensures form { IsOf kind.StateHandle result }
{
    match outcome {
        Ok(handle) => Answer::StateHandle(handle),
        Err(error) => Answer::Failed(error),
    }
}

/// The answer of a call that returns the regions of shared memory.
pub(crate) fn shmem_config<H>(outcome: Result<Box<VhostUserShMemConfig>>) -> Answer<H>
    ensures same { outcome_of result ≡ shown (λ place. value.ShmemOf place.value) outcome }
    ensures form { IsOf kind.Regions result }
{
    match outcome {
        Ok(config) => Answer::ShmemConfig(config),
        Err(error) => Answer::Failed(error),
    }
}
