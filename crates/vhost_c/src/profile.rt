//! Whose behaviour a session has.

ghost use Rattle.vhost_c_common.specs.ByNumber.{By};
ghost use Rattle.vhost_c_common.specs.Profile.{profile_at};
ghost use Rattle.vhost_c_frontend.specs.Session.{Choosing, ChoosesBy};

use crate::holder::Holder;
use std::alloc::Global;
use vhost_c_common::{Refusal, number_of, profile_of};
use vhost_frontend_core::Profile;
use vhost_message::Error;

/// The profile that a session has from now on: 0 is that of the specification and of real backends, which it has at first, and 1
/// that of the crate `vhost`. Nothing is sent for it, and nothing is to be received.
#[unsafe(no_mangle)]
pub extern "C" fn covretin_set_profile(alloc: Global, session: &mut Holder, profile: u32) -> u32
    ensures { ChoosesBy (profile_at profile) session.old.session result session.new.session }
{
    match profile_of(profile) {
        Some(profile) => chosen(alloc, session, profile),
        None => number_of(Err(Refusal::Protocol(Error::InvalidParam))),
    }
}

/// Gives a session this profile, if there is one.
fn chosen(alloc: Global, holder: &mut Holder, profile: Profile) -> u32
    ensures { By (Choosing profile) holder.old.session result holder.new.session }
{
    match holder.take(alloc) {
        None => number_of(Err(Refusal::NoSession)),
        Some(mut session) => {
            session.set_profile(profile);
            holder.put(session);
            number_of(Ok(()))
        }
    }
}
