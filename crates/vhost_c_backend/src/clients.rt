//! Worked consequences of the calls of a session: what follows of their contracts alone.

ghost use Rattle.std.specs.Prelude.{◌≡◌, ◌++◌, List, IfOk, IfErr};
ghost use Rattle.vhost_protocol.specs.Stream.{Cell};
ghost use Rattle.vhost_link.specs.declared.plain.PlainHandle.{PlainHandle};
ghost use Rattle.vhost_c_common.specs.Memory.{WantsMemory};
ghost use Rattle.vhost_c_backend.specs.Clients.{offer, offers, IsOffering, Offers};

use crate::replies::Reply;
use crate::served::Served;
use std::alloc::Global;
use vhost_c_common::Refusal;
use vhost_connection::talks_law;

type Outcome<T> = std::result::Result<T, Refusal>;

/// The number of the call that a request for the features becomes.
const GET_FEATURES: u32 = 1;

/// A session is opened, and so many requests for the features come, each of which is read and replied to by these. Each becomes
/// that call, and exactly the bytes of so many replies are to be sent, unless memory is refused: nothing else is an error, and none
/// breaks the session before that.
pub fn offers_features(alloc: Global, features: u64, count: u32) -> Outcome<Served>
    ensures offered { IfOk result (λ s. IsOffering (offers features count) s) }
    ensures memory { IfErr result WantsMemory }
{
    match Served::new(alloc) {
        Ok(mut served) => match offer_all(&mut served, features, count) {
            Ok(()) => Ok(served),
            Err(refusal) => Err(refusal),
        },
        Err(error) => Err(Refusal::Protocol(error)),
    }
}

/// Offers them so often.
fn offer_all(served: &mut Served, features: u64, count: u32) -> Outcome<()>
    ensures { (cells : List (Cell PlainHandle)) → IsOffering cells served.old → Offers (cells ++ offers features count) result served.new }
{
    'offers: for _ in 0..count {
        match offer_one(served, features) {
            Ok(()) => {}
            Err(refusal) => return Err(refusal),
        }
    }
    Ok(())
}

/// Offers them once.
fn offer_one(served: &mut Served, features: u64) -> Outcome<()>
    ensures { (cells : List (Cell PlainHandle)) → IsOffering cells served.old → Offers (cells ++ offer features) result served.new }
{
    talks_law();
    let request = [1, 0, 0, 0, 1, 0, 0, 0, 0, 0, 0, 0];
    match served.receive(&request, &[]) {
        Ok(()) => match served.next() {
            Ok(GET_FEATURES) => served.reply(Reply::Number(features)),
            Ok(_) => Err(Refusal::OtherCall),
            Err(refusal) => Err(refusal),
        },
        Err(refusal) => Err(refusal),
    }
}
