//! What came of a call, as C is told it.

ghost use Rattle.std.specs.Prelude.{◌≡◌};
ghost use Rattle.vhost_c_queue_calls.specs.Calls.{Said, SaidIf, space_of};

use vhost_c_queue::{Refusal, number_of};
use vhost_queue::AddressSpace;

/// Writes the value, if there is one.
pub(crate) fn told<T: Copy>(outcome: Result<T, Refusal>, out: &mut T) -> u32
    ensures { Said outcome result out.old out.new }
{
    match outcome {
        Ok(value) => {
            *out = value;
            number_of(Ok(()))
        }
        Err(refusal) => number_of(Err(refusal)),
    }
}

/// Writes the value, if there is one, and whether there is.
pub(crate) fn told_if<T: Copy>(
    outcome: Result<Option<T>, Refusal>,
    out: &mut T,
    found: &mut bool,
) -> u32
    ensures { SaidIf outcome result out.old out.new found.old found.new }
{
    match outcome {
        Ok(Some(value)) => {
            *out = value;
            *found = true;
            number_of(Ok(()))
        }
        Ok(None) => {
            *found = false;
            number_of(Ok(()))
        }
        Err(refusal) => number_of(Err(refusal)),
    }
}

/// Whose addresses are meant.
pub(crate) fn space_of(user: bool) -> AddressSpace
    ensures { result ≡ space_of user }
{
    if user {
        AddressSpace::User
    } else {
        AddressSpace::Guest
    }
}
