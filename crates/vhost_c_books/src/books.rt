//! The books of a session: which descriptors came, were claimed, and were handed out, whatever calls a program makes.

ghost use Rattle.std.specs.Prelude.{◌≡◌, ◌++◌, [], IfOk, OnOk, length, take};
ghost use Rattle.vhost_c_books.specs.Books.{HandsOn, IsBalanced, IsSettledIn};
ghost use Rattle.vhost_c_books.specs.declared.any_session.Kind as any;

use crate::any_session::{AnySession, Kind};
use crate::calls::Call;
use std::alloc::Global;
use std::collections::VecDeque;
use vhost_c_common::Refusal;
use vhost_frontend_core::FrontendCall;
use vhost_message::{Error, MAX_ATTACHED_FD_ENTRIES};

type Outcome<T> = std::result::Result<T, Refusal>;

/// What is done with a session. Lists and calls are lent.
#[derive(Drop, Clone, Copy)]
pub enum Act<'a> {
    /// Bytes come, with these descriptors.
    Receive(&'a [u8], &'a [i32]),
    Claim(i32),
    /// Hands out as many that nobody will claim, at most.
    Unclaimed(usize),
    Abandon,
    Call(Call<'a>),
}

/// A session, and which descriptors came to it, were claimed, and were handed out, each list in its order.
#[derive(Drop)]
pub struct Books {
    pub session: AnySession,
    pub came: Vec<i32>,
    pub claimed: Vec<i32>,
    pub handed: Vec<i32>,
}

/// A session of this kind is opened, of which nothing is noted. A frontend's has a backend of at most so many queues.
///
/// OutOfMemory: an allocation failed.
pub fn opens_books(alloc: Global, kind: Kind, max_queue_num: u64) -> Outcome<Books>
    ensures { IfOk result (λ b. IsBalanced kind b) }
{
    match AnySession::new(alloc, kind, max_queue_num) {
        Ok(session) => Ok(Books {
            session,
            came: Vec::new(alloc),
            claimed: Vec::new(alloc),
            handed: Vec::new(alloc),
        }),
        Err(error) => Err(Refusal::Protocol(error)),
    }
}

/// These are done with an opened session, whatever it answers to each; a frontend asks these calls, one after another. Then each
/// number came as often as it was claimed, was handed out and is held.
///
/// OutOfMemory: an allocation failed.
pub fn keeps_books(
    books: &mut Books,
    acts: &[Act<'_>],
    asks: &mut VecDeque<FrontendCall>,
) -> Outcome<()>
    ensures { (kind : any.Kind) → IsBalanced kind books.old → OnOk result (IsBalanced kind books.new) }
{
    'acts: for act in acts {
        match act_once(books, act, asks) {
            Ok(()) => {}
            Err(refusal) => return Err(refusal),
        }
    }
    Ok(())
}

/// The same; then a call that is to be replied to is refused, what is not whole is given up, and what nobody will claim is handed out
/// until none is. No descriptor is held then: each number that came was claimed once or handed out once, and none other was.
///
/// OutOfMemory: an allocation failed.
pub fn settles_books(
    books: &mut Books,
    acts: &[Act<'_>],
    asks: &mut VecDeque<FrontendCall>,
) -> Outcome<()>
    ensures { (kind : any.Kind) → IsBalanced kind books.old → OnOk result (IsSettledIn kind books.new) }
{
    match keeps_books(books, acts, asks) {
        Ok(()) => settle(books),
        Err(refusal) => Err(refusal),
    }
}

/// Does this.
fn act_once(books: &mut Books, act: &Act<'_>, asks: &mut VecDeque<FrontendCall>) -> Outcome<()>
    ensures { (kind : any.Kind) → IsBalanced kind books.old → OnOk result (IsBalanced kind books.new) }
{
    match act {
        Act::Receive(bytes, fds) => receives(books, bytes, fds),
        Act::Claim(fd) => claims(books, *fd),
        Act::Unclaimed(room) => {
            let mut place = [0; MAX_ATTACHED_FD_ENTRIES];
            let room = (*room).min(MAX_ATTACHED_FD_ENTRIES);
            match hands_out(books, &mut place[..room]) {
                Ok(_) => Ok(()),
                Err(refusal) => Err(refusal),
            }
        }
        Act::Abandon => {
            books.session.abandon();
            Ok(())
        }
        Act::Call(call) => {
            books.session.call(call, asks);
            Ok(())
        }
    }
}

/// Bytes come.
fn receives(books: &mut Books, bytes: &[u8], fds: &[i32]) -> Outcome<()>
    ensures { (kind : any.Kind) → IsBalanced kind books.old → OnOk result (IsBalanced kind books.new) }
{
    match books.session.receive(bytes, fds) {
        Ok(()) => note(&mut books.came, fds),
        Err(_) => Ok(()),
    }
}

/// Claims one.
fn claims(books: &mut Books, fd: i32) -> Outcome<()>
    ensures { (kind : any.Kind) → IsBalanced kind books.old → OnOk result (IsBalanced kind books.new) }
{
    match books.session.claim(fd) {
        Ok(()) => note(&mut books.claimed, &[fd]),
        Err(_) => Ok(()),
    }
}

/// Hands out those that nobody will claim: how many.
fn hands_out(books: &mut Books, place: &mut [i32]) -> Outcome<usize>
    ensures balanced { (kind : any.Kind) → IsBalanced kind books.old → OnOk result (IsBalanced kind books.new) }
    ensures handed { IfOk result (λ n. HandsOn (length place.old) n books.old.session books.new.session) }
{
    let count = books.session.unclaimed(place);
    match note(&mut books.handed, &place[..count]) {
        Ok(()) => Ok(count),
        Err(refusal) => Err(refusal),
    }
}

/// Notes these behind those.
///
/// OutOfMemory: an allocation failed.
fn note(list: &mut Vec<i32>, fds: &[i32]) -> Outcome<()>
    ensures { OnOk result (list.new.items ≡ list.old.items ++ fds.now) }
{
    match list.extend_from_slice(fds) {
        Ok(()) => Ok(()),
        Err(_) => Err(Refusal::Protocol(Error::OutOfMemory)),
    }
}

/// Ends what is open, and hands out until none is left.
fn settle(books: &mut Books) -> Outcome<()>
    ensures { (kind : any.Kind) → IsBalanced kind books.old → OnOk result (IsSettledIn kind books.new) }
{
    books.session.end();
    let mut place = [0; MAX_ATTACHED_FD_ENTRIES];
    loop {
        match hands_out(books, &mut place) {
            Ok(0) => return Ok(()),
            Ok(_) => {}
            Err(refusal) => return Err(refusal),
        }
    }
}
