//! Endpoints: whole messages over a link.

ghost use Rattle.std.specs.Prelude.{◌≡◌, ◌≢◌, IfOk, IfErr};

mod asks;
mod bare;
mod receives;
mod requests;
mod sends;
mod sockets;
mod whole;

use crate::buffer::Source;
use crate::buffers::{Buffers, Text};
use crate::list::HandleList;
use std::alloc::Global;
use std::marker::PhantomData;
use vhost_link::Link;
use vhost_message::{Error, IoCause, MsgHeader, Result};

/// One end of a connection, by which whole messages go out and come in: the header type is `M`.
///
/// A call that sends or receives a whole message calls its link again after a retry, up to a retry limit for
/// each message. An I/O error, or one retry more than the retry limit, after the first byte of a message moved poisons the
/// endpoint: from then on each call that sends or receives answers `SocketBroken` with that cause. `send_slice`,
/// `send_iovec` and `recv_into_buf` call their link once at most, whatever the retry limit, and never poison the endpoint.
///
/// It receives ahead: its link is called only where a message still needs a byte and nothing waits, with room for 8192
/// bytes. What comes beyond the message waits in the endpoint. Descriptors belong to the first byte of a receive alone, so
/// that a byte that waits has none.
///
/// Mirrors `vhost::vhost_user::connection::Endpoint`.
#[derive(Drop)]
pub struct Endpoint<M, L: Link> {
    /// Its link, with what was received ahead.
    source: Source<L>,
    /// The retry limit for each message, and how many retries are left for what lies behind the last header.
    budget: u32,
    left: u32,
    /// The I/O error that poisoned it.
    broken: Option<IoCause>,
    /// Whether the last call that sent or received met an I/O error.
    faulted: bool,
    /// The descriptor buffer for the next message, unless it was moved out.
    list: Option<HandleList<L::Handle>>,
    /// For descriptors that are dropped.
    spare: HandleList<L::Handle>,
    /// A message on its way out or in.
    text: Box<Text>,
    alloc: Global,
    of: PhantomData<M>,
}

impl<M: MsgHeader, L: Link> Endpoint<M, L> {
    ghost use Rattle.std.specs.Prelude.{if◌then◌else◌, None, true, false, [], ◌++◌};
    ghost use Rattle.vhost_protocol.specs.Stream.{plain};
    ghost use Rattle.std.specs.Borrow.{sem, Lends};
    ghost use Rattle.vhost_connection.specs.contracts.endpoint.Endpoint.{the_row};
    ghost use Rattle.vhost_message.specs.Cause.{error_of};
    ghost use Rattle.vhost_message.specs.declared.error.Error.TheVariants.{OutOfMemory};
    ghost use Rattle.vhost_connection.specs.Talk.{IsBroken};
    ghost use Rattle.vhost_connection.specs.State.{state, fresh, first_cause, with_link};

    /// An endpoint over a link, with a retry limit for each message.
    ///
    /// OutOfMemory: an allocation failed.
    pub fn from_stream(alloc: Global, link: L, budget: u32) -> Result<Self>
        ensures opened { IfOk result (λ e. state e ≡ fresh link budget) }
        ensures memory { IfErr result (λ e. e ≡ OutOfMemory) }
    {
        Ok(Endpoint::with_buffers(Buffers::new(alloc)?, link, budget))
    }

    /// The same, with buffers that are there already.
    #[tactic(auto, unfolding(crate::specs::State::ahead_of))]
    pub fn with_buffers(buffers: Buffers<L::Handle>, link: L, budget: u32) -> Self
        ensures { state result ≡ fresh link budget }
    {
        let Buffers {
            ahead,
            text,
            list,
            spare,
            alloc,
        } = buffers;
        Endpoint {
            source: Source { link, ahead },
            budget,
            left: budget,
            broken: None,
            faulted: false,
            list: Some(list),
            spare,
            text,
            alloc,
            of: PhantomData,
        }
    }

    /// SocketBroken: the endpoint is poisoned.
    #[tactic(auto, unfolding(crate::specs::State::ahead_of))]
    fn expect_sound(&self) -> Result<()>
        ensures sound { IfOk result (λ _. (state self.now).broken ≡ None) }
        ensures broken { IfErr result (λ e. IsBroken (state self.now) e) }
    {
        match self.broken {
            None => Ok(()),
            Some(cause) => Err(Error::SocketBroken(cause)),
        }
    }

    /// The link failed: this poisons the endpoint if something has moved.
    #[tactic(auto, using(crate::proofs::Errors::no_memory_error), unfolding(crate::specs::State::ahead_of))]
    #[cold]
    fn fail(&mut self, cause: IoCause, moved: bool) -> Error
        ensures error { result ≡ error_of cause }
        ensures memory { result ≢ OutOfMemory }
        ensures state { state self.new ≡ record (state self.old) { broken = (if moved then Some cause else self.old.broken); faulted = true } }
    {
        self.faulted = true;
        if moved {
            self.broken = Some(cause);
        }
        cause.into()
    }

    /// The link below, to be called past the endpoint: it doesn't see what was received ahead.
    pub fn link(&mut self) -> &mut L
        ensures* lender { sem 𝓛 (Lends (the_row M.row L.row L.Handle.row) L.row self.entry result (λ w. with_link self.old w)) }
        ensures value { result.now ≡ (state self.old).link }
    {
        let source = &mut self.source;
        &mut source.link
    }

    /// Makes the descriptor buffer for the next message, where the last one was moved out.
    ///
    /// OutOfMemory: its allocation failed, and nothing changed.
    #[tactic(auto, unfolding(crate::specs::State::ahead_of))]
    pub fn make_list(&mut self) -> Result<()>
        ensures made { IfOk result (λ _. state self.new ≡ record (state self.old) { list = true }) }
        ensures memory { IfErr result (λ e. (e ≡ OutOfMemory) × ((state self.old).list ≡ false) × (state self.new ≡ state self.old)) }
    {
        if self.list.is_none() {
            match HandleList::new(self.alloc) {
                Ok(list) => self.list = Some(list),
                Err(_) => return Err(Error::OutOfMemory),
            }
        }
        Ok(())
    }

    /// Poisons the endpoint with this cause, unless it is poisoned already.
    #[tactic(auto, unfolding(crate::specs::State::ahead_of))]
    pub fn break_with(&mut self, cause: IoCause)
        ensures { state self.new ≡ record (state self.old) { broken = first_cause (state self.old).broken cause } }
    {
        if self.broken.is_none() {
            self.broken = Some(cause);
        }
    }

    /// Forgets what was received ahead: the next message begins with what the link hands out next. For who owns both ends of
    /// the stream, and gave up what came.
    #[tactic(auto, unfolding(crate::specs::State::ahead_of))]
    pub fn forget_ahead(&mut self)
        ensures { state self.new ≡ record (state self.old) { ahead = [] } }
    {
        self.source.ahead.clear();
    }

    /// Puts bytes behind what was received ahead, where there is room for them: whether there was. They come before all that the
    /// link hands out next. For who owns both ends of the stream.
    #[tactic(auto, unfolding(crate::specs::State::ahead_of))]
    pub fn push_ahead(&mut self, bytes: &[u8]) -> bool
        ensures pushed { result ≡ true → state self.new ≡ record (state self.old) { ahead = (state self.old).ahead ++ plain bytes.now } }
        ensures full { result ≡ false → state self.new ≡ state self.old }
    {
        self.source.ahead.add(bytes)
    }

    /// The retry limit for each message.
    pub fn budget(&self) -> u32
        ensures { result ≡ (state self.now).budget }
    {
        self.budget
    }

    /// Whether the last call that sent or received met an I/O error: the link failed, or retried once too often.
    pub fn faulted(&self) -> bool
        ensures { result ≡ (state self.now).faulted }
    {
        self.faulted
    }
}
