//! A frontend's call, with an exact answer.

ghost use Rattle.std.specs.Prelude.{◌≡◌, ℕ, false, IfOk};
ghost use Rattle.vhost_connection.specs.State.{fresh};
ghost use Rattle.vhost_frontend_core.specs.Frontend.{endpoint_of, session_of};
ghost use Rattle.vhost_promises.specs.Read.{ReadsFeatures, replied};
ghost use Rattle.vhost_promises.specs.Runs.{answer_of_link};
ghost use Rattle.vhost_promises.specs.Served.{features_reply};
ghost use Rattle.vhost_connection.specs.Memory.{stream};
ghost use Rattle.vhost_frontend.specs.Whole.{Whole};
ghost use Rattle.vhost_protocol.specs.FrontendCall.{GetFeatures, Number, new_frontend};
ghost use Rattle.vhost_protocol.specs.Stream.{plain};

use std::alloc::Global;
use vhost_connection::talks_law;
use vhost_frontend::{Call, Quiet};
use vhost_link::{Cut, Link, MemLink};
use vhost_message::{Error, Result};

/// A new frontend asks for the features of a backend whose reply came. However the link splits it, the answer is 0x40000003, exactly the
/// request went out, nothing is left, and the frontend remembers the features; unless the answer is an error that a link or a failed
/// allocation may bring.
pub fn reads_features(frontend: &mut Quiet<MemLink>) -> Result<u64>
    ensures { (queues : ℕ) → session_of frontend.old.inner ≡ new_frontend queues → stream (endpoint_of frontend.old.inner) ≡ plain features_reply → answer_of_link result ≡ false
        → ReadsFeatures (endpoint_of frontend.old.inner) (new_frontend queues) result (endpoint_of frontend.new.inner) (session_of frontend.new.inner) }
{
    talks_law();
    asks_features(frontend)
}

/// Asks for the features, over any link.
pub(crate) fn asks_features<L: Link>(frontend: &mut Quiet<L>) -> Result<u64>
    ensures { Whole L.event GetFeatures Number frontend.old.inner result frontend.new.inner }
{
    frontend.number(&Call::GetFeatures)
}

/// The same over a link in memory whose calls go as the script says.
///
/// OutOfMemory: an allocation failed.
pub fn reads_features_new(
    alloc: Global,
    script: Vec<Cut>,
    budget: u32,
) -> Result<(Quiet<MemLink>, Result<u64>)>
    ensures { IfOk result (λ run. answer_of_link run.1 ≡ false → ReadsFeatures (fresh (replied script.items) budget) (new_frontend 2) run.1 (endpoint_of run.0.inner) (session_of run.0.inner)) }
{
    let mut frontend = Quiet::new(alloc, holds_reply(alloc, script)?, 2, budget)?;
    let answer = reads_features(&mut frontend);
    Ok((frontend, answer))
}

/// A link in memory that holds the reply.
fn holds_reply(alloc: Global, script: Vec<Cut>) -> Result<MemLink>
    ensures { IfOk result (λ link. link ≡ replied script.items) }
{
    let mut link = MemLink::new(alloc, script);
    let reply = [
        1, 0, 0, 0, 5, 0, 0, 0, 8, 0, 0, 0, 3, 0, 0, 0x40, 0, 0, 0, 0,
    ];
    match link.push(&reply, &[]) {
        Ok(()) => Ok(link),
        Err(_) => Err(Error::OutOfMemory),
    }
}
