//! A profile by its number in C.

ghost use Rattle.std.specs.Prelude.{◌≡◌};
ghost use Rattle.vhost_c_common.specs.Profile.{profile_at};

use vhost_protocol::Profile;

/// The profile of a number of `enum covretin_profile`.
pub fn profile_of(number: u32) -> Option<Profile>
    ensures { result ≡ profile_at number }
{
    match number {
        0 => Some(Profile::Standard),
        1 => Some(Profile::Vhost),
        _ => None,
    }
}
