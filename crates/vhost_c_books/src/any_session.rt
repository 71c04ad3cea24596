//! Sessions for programs in C, as one type: a frontend's, those of both sides of the backend channel, and a device's with a display.

use crate::calls::{Call, call_channel, call_display, call_frontend, call_server};
use std::alloc::Global;
use std::collections::VecDeque;
use vhost_c_channel::{Channel, ChannelServer, Display};
use vhost_c_common::Refusal;
use vhost_c_frontend::Session;
use vhost_frontend_core::FrontendCall;
use vhost_message::errno::ENOSYS;
use vhost_message::{Error, IoError};

type Outcome<T> = std::result::Result<T, Refusal>;

/// Whose session it is.
#[derive(Drop, Clone, Copy)]
pub enum Kind {
    /// A frontend's.
    Frontend,
    /// A device's, of the backend channel.
    Channel,
    /// A frontend's, of the backend channel.
    Server,
    /// A device's, with a display.
    Display,
}

/// A session of one of these kinds.
#[derive(Drop)]
pub enum AnySession {
    Frontend(Session),
    Channel(Channel),
    Server(ChannelServer),
    Display(Display),
}

impl AnySession {
    ghost use Rattle.std.specs.Prelude.{◌≡◌, [], ◌∷◌, take, length, IfOk};
    ghost use Rattle.vhost_c_common.specs.Held.{claimable};
    ghost use Rattle.vhost_c_books.specs.Books.{Claims, HandsOn, IsKept, IsNew, Moves, Receives, held_by};

    /// A new session of this kind. A frontend's has a backend of at most so many queues.
    ///
    /// OutOfMemory: an allocation failed.
    pub fn new(
        alloc: Global,
        kind: Kind,
        max_queue_num: u64,
    ) -> std::result::Result<AnySession, Error>
        ensures { IfOk result (λ s. IsNew kind s) }
    {
        match kind {
            Kind::Frontend => match Session::new(alloc, max_queue_num) {
                Ok(session) => Ok(AnySession::Frontend(session)),
                Err(error) => Err(error),
            },
            Kind::Channel => match Channel::new(alloc) {
                Ok(session) => Ok(AnySession::Channel(session)),
                Err(error) => Err(error),
            },
            Kind::Server => match ChannelServer::new(alloc) {
                Ok(session) => Ok(AnySession::Server(session)),
                Err(error) => Err(error),
            },
            Kind::Display => match Display::new(alloc) {
                Ok(session) => Ok(AnySession::Display(session)),
                Err(error) => Err(error),
            },
        }
    }

    /// Receives bytes, with the descriptors that came with the first of them. Errors are those of the session: nothing came then.
    pub fn receive(&mut self, bytes: &[u8], fds: &[i32]) -> Outcome<()>
        ensures { IsKept self.old → Receives fds.now self.old result self.new }
    {
        match self {
            AnySession::Frontend(session) => session.receive(bytes, fds),
            AnySession::Channel(session) => session.receive(bytes, fds),
            AnySession::Server(session) => session.receive(bytes, fds),
            AnySession::Display(session) => session.receive(bytes, fds),
        }
    }

    /// Claims a descriptor, which is the caller's from now on.
    ///
    /// OtherAnswer, OtherCall: it may not be claimed, as none of a device's session may. Then nothing changed.
    pub fn claim(&mut self, fd: i32) -> Outcome<()>
        ensures { IsKept self.old → Claims fd self.old result self.new }
    {
        match self {
            AnySession::Frontend(session) => session.claim(fd),
            AnySession::Channel(_) => Err(Refusal::OtherCall),
            AnySession::Server(session) => session.claim(fd),
            AnySession::Display(_) => Err(Refusal::OtherCall),
        }
    }

    /// Hands out descriptors that nobody will claim, to the front of a place: how many. None is left where it is 0 and the place
    /// has room.
    pub fn unclaimed(&mut self, place: &mut [i32]) -> usize
        ensures moves { IsKept self.old → Moves [] (take result place.new) self.old self.new }
        ensures handed { HandsOn (length place.old) result self.old self.new }
    {
        match self {
            AnySession::Frontend(session) => session.unclaimed(place),
            AnySession::Channel(session) => session.unclaimed(place),
            AnySession::Server(session) => session.unclaimed(place),
            AnySession::Display(session) => session.unclaimed(place),
        }
    }

    /// What is not whole will never come, and nobody will claim what came of it. What comes to a device's session nobody may claim
    /// anyway.
    pub fn abandon(&mut self)
        ensures { IsKept self.old → Moves [] [] self.old self.new }
    {
        match self {
            AnySession::Frontend(session) => session.abandon(),
            AnySession::Channel(_) => {}
            AnySession::Server(session) => session.abandon(),
            AnySession::Display(_) => {}
        }
    }

    /// The same, once a call that is to be replied to was refused: nothing may be claimed any more.
    pub fn end(&mut self)
        ensures moves { IsKept self.old → Moves [] [] self.old self.new }
        ensures own { IsKept self.old → claimable (held_by self.new) ≡ [] }
    {
        match self {
            AnySession::Frontend(session) => session.abandon(),
            AnySession::Channel(_) => {}
            AnySession::Server(session) => {
                let _ = session.reply(Err(IoError::Raw(ENOSYS)));
                session.abandon();
            }
            AnySession::Display(_) => {}
        }
    }

    /// Makes another call, whatever is answered. `asks` has the calls that a frontend asks.
    pub fn call(&mut self, call: &Call<'_>, asks: &mut VecDeque<FrontendCall>)
        ensures { IsKept self.old → Moves [] [] self.old self.new }
    {
        match self {
            AnySession::Frontend(session) => call_frontend(session, call, asks),
            AnySession::Channel(session) => call_channel(session, call),
            AnySession::Server(session) => call_server(session, call),
            AnySession::Display(session) => call_display(session, call),
        }
    }
}
