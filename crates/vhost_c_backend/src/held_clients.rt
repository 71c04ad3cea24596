//! What becomes of the descriptors that come to a session: worked consequences of its calls' contracts alone.

ghost use Rattle.std.specs.Prelude.{◌≡◌, ◌++◌, false, length, IfOk, OnOk};
ghost use Rattle.vhost_c_backend.specs.Served.{has_call};
ghost use Rattle.vhost_c_backend.specs.HeldClients.{IsBalanced, IsSettledIn, HandsOn};

use crate::replies::Reply;
use crate::served::Served;
use std::alloc::Global;
use vhost_c_common::Refusal;
use vhost_message::{Error, MAX_ATTACHED_FD_ENTRIES};

type Outcome<T> = std::result::Result<T, Refusal>;

/// What is done with a session. Lists are lent.
#[derive(Drop, Clone, Copy)]
pub enum Act<'a> {
    /// Bytes come, with these descriptors.
    Receive(&'a [u8], &'a [i32]),
    Next,
    Reply(Reply<'a>),
    Claim(i32),
    /// Hands out as many that nobody will claim, at most.
    Unclaimed(usize),
    Abandon,
}

/// A session, and which descriptors came to it, were claimed, and were handed out, each list in its order.
#[derive(Drop)]
pub struct Books {
    pub served: Served,
    pub came: Vec<i32>,
    pub claimed: Vec<i32>,
    pub handed: Vec<i32>,
}

/// A session is opened, and these are done, whatever it answers to each. Then each number came as often as it was claimed, was
/// handed out and is held.
pub fn keeps_books(alloc: Global, acts: &[Act<'_>]) -> Outcome<Books>
    ensures { IfOk result (λ b. IsBalanced b) }
{
    match Served::new(alloc) {
        Ok(served) => {
            let mut books = Books {
                served,
                came: Vec::new(alloc),
                claimed: Vec::new(alloc),
                handed: Vec::new(alloc),
            };
            match act_all(&mut books, acts) {
                Ok(()) => Ok(books),
                Err(refusal) => Err(refusal),
            }
        }
        Err(error) => Err(Refusal::Protocol(error)),
    }
}

/// The same; then what came of a request that is not whole is given up, and what nobody will claim is handed out until none is.
/// Unless a call is to be replied to, no descriptor is held: each number that came was claimed once or handed out once, and none
/// other was.
pub fn settles_books(alloc: Global, acts: &[Act<'_>]) -> Outcome<Books>
    ensures { IfOk result (λ b. has_call b.served ≡ false → IsSettledIn b) }
{
    match keeps_books(alloc, acts) {
        Ok(mut books) => match settle(&mut books) {
            Ok(()) => Ok(books),
            Err(refusal) => Err(refusal),
        },
        Err(refusal) => Err(refusal),
    }
}

/// Does these.
fn act_all(books: &mut Books, acts: &[Act<'_>]) -> Outcome<()>
    ensures { IsBalanced books.old → OnOk result (IsBalanced books.new) }
{
    'acts: for act in acts {
        match act_once(books, act) {
            Ok(()) => {}
            Err(refusal) => return Err(refusal),
        }
    }
    Ok(())
}

/// Does this.
fn act_once(books: &mut Books, act: &Act<'_>) -> Outcome<()>
    ensures { IsBalanced books.old → OnOk result (IsBalanced books.new) }
{
    match act {
        Act::Receive(bytes, fds) => receives(books, bytes, fds),
        Act::Next => {
            let _ = books.served.next();
            Ok(())
        }
        Act::Reply(reply) => {
            let _ = books.served.reply(*reply);
            Ok(())
        }
        Act::Claim(fd) => claims(books, *fd),
        Act::Unclaimed(room) => {
            let mut place = [0; MAX_ATTACHED_FD_ENTRIES];
            let room = (*room).min(MAX_ATTACHED_FD_ENTRIES);
            match hands_out(books, &mut place[..room]) {
                Ok(_) => Ok(()),
                Err(refusal) => Err(refusal),
            }
        }
        Act::Abandon => {
            books.served.abandon();
            Ok(())
        }
    }
}

/// Bytes come.
fn receives(books: &mut Books, bytes: &[u8], fds: &[i32]) -> Outcome<()>
    ensures { IsBalanced books.old → OnOk result (IsBalanced books.new) }
{
    match books.served.receive(bytes, fds) {
        Ok(()) => note(&mut books.came, fds),
        Err(_) => Ok(()),
    }
}

/// Claims one.
fn claims(books: &mut Books, fd: i32) -> Outcome<()>
    ensures { IsBalanced books.old → OnOk result (IsBalanced books.new) }
{
    match books.served.claim(fd) {
        Ok(()) => note(&mut books.claimed, &[fd]),
        Err(_) => Ok(()),
    }
}

/// Hands out those that nobody will claim: how many.
fn hands_out(books: &mut Books, place: &mut [i32]) -> Outcome<usize>
    ensures balanced { IsBalanced books.old → OnOk result (IsBalanced books.new) }
    ensures handed { IfOk result (λ n. HandsOn (length place.old) n books.old.served books.new.served) }
{
    let count = books.served.unclaimed(place);
    match note(&mut books.handed, &place[..count]) {
        Ok(()) => Ok(count),
        Err(refusal) => Err(refusal),
    }
}

/// Notes these behind those.
///
/// OutOfMemory: an allocation failed.
fn note(list: &mut Vec<i32>, fds: &[i32]) -> Outcome<()>
    ensures { OnOk result (list.new.items ≡ list.old.items ++ fds.now) }
{
    match list.extend_from_slice(fds) {
        Ok(()) => Ok(()),
        Err(_) => Err(Refusal::Protocol(Error::OutOfMemory)),
    }
}

/// Gives up what is not whole, and hands out until none is left.
fn settle(books: &mut Books) -> Outcome<()>
    ensures { IsBalanced books.old → has_call books.new.served ≡ false → OnOk result (IsSettledIn books.new) }
{
    books.served.abandon();
    let mut place = [0; MAX_ATTACHED_FD_ENTRIES];
    loop {
        match hands_out(books, &mut place) {
            Ok(0) => return Ok(()),
            Ok(_) => {}
            Err(refusal) => return Err(refusal),
        }
    }
}
