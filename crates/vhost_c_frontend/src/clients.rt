//! Worked consequences of the calls of a session: what follows of their contracts alone.

ghost use Rattle.std.specs.Prelude.{◌≡◌, ◌++◌, ℕ, List, IfOk, IfErr};
ghost use Rattle.vhost_protocol.specs.Stream.{Cell};
ghost use Rattle.vhost_protocol.specs.declared.profile.Profile as kind;
ghost use Rattle.vhost_link.specs.declared.plain.PlainHandle.{PlainHandle};
ghost use Rattle.vhost_c_common.specs.Memory.{WantsMemory};
ghost use Rattle.vhost_c_frontend.specs.Clients.{own, owns, IsOwning, Owns};

use crate::session::Session;
use std::alloc::Global;
use vhost_c_common::Refusal;
use vhost_connection::talks_law;
use vhost_frontend_core::{FrontendCall, Profile};

type Outcome<T> = std::result::Result<T, Refusal>;

/// A session is opened with a backend of at most so many queues, has this profile, and owns the backend so often, which no backend
/// replies to. Exactly the bytes of so many requests are to be sent, unless memory is refused: nothing else is an error, and none
/// breaks the session before that.
pub fn owns_a_backend(
    alloc: Global,
    max_queue_num: u64,
    profile: Profile,
    count: u32,
) -> Outcome<Session>
    ensures sent { IfOk result (λ s. IsOwning max_queue_num profile (owns count) s) }
    ensures memory { IfErr result WantsMemory }
{
    match Session::new(alloc, max_queue_num) {
        Ok(mut session) => {
            session.set_profile(profile);
            match own_all(&mut session, count) {
                Ok(()) => Ok(session),
                Err(refusal) => Err(refusal),
            }
        }
        Err(error) => Err(Refusal::Protocol(error)),
    }
}

/// Owns it so often.
fn own_all(session: &mut Session, count: u32) -> Outcome<()>
    ensures { (queues : ℕ) → (profile : kind.Profile) → (cells : List (Cell PlainHandle)) → IsOwning queues profile cells session.old → Owns queues profile (cells ++ owns count) result session.new }
{
    'owns: for _ in 0..count {
        match own_once(session) {
            Ok(()) => {}
            Err(refusal) => return Err(refusal),
        }
    }
    Ok(())
}

/// Owns it once.
fn own_once(session: &mut Session) -> Outcome<()>
    ensures { (queues : ℕ) → (profile : kind.Profile) → (cells : List (Cell PlainHandle)) → IsOwning queues profile cells session.old → Owns queues profile (cells ++ own) result session.new }
{
    talks_law();
    match session.ask(FrontendCall::SetOwner) {
        Ok(()) => session.take(),
        Err(refusal) => Err(refusal),
    }
}
