//! What an end sent that sends no more.

ghost use Rattle.std.specs.Prelude.{◌≡◌, []};
ghost use Rattle.rtrb.specs.Ring.{all_sent};
ghost use Rattle.vhost_link.specs.Pieces.{waiting};
ghost use Rattle.vhost_link.specs.Rings.{all_of};

use crate::piece::{Piece, PieceOrder};
use rtrb::Finished;
use std::alloc::Global;
use std::marker::Model;

/// Reports all that one end sent, once it sends no more.
#[derive(Drop)]
pub struct Token {
    finished: Finished<Piece, Global, PieceOrder>,
}

impl Model for Token {
    ghost use Rattle.std.specs.Prelude.{◌≡◌, []};
    ghost use Rattle.rtrb.specs.Ring.{all_sent};
    ghost use Rattle.vhost_link.specs.Pieces.{waiting};
    ghost use Rattle.vhost_link.specs.Rings.{AllSent, all_of};

    ghost Value = { AllSent };

    ghost view = { λ token. all_of token.finished };

    ghost invariant = { λ token. waiting (all_sent token.finished) ≡ [] };
}

impl Token {
    /// The token of a ring whose last piece is a byte.
    pub(crate) fn new(finished: Finished<Piece, Global, PieceOrder>) -> Token
        requires { waiting (all_sent finished) ≡ [] }
        ensures { result ≡ all_of finished }
    {
        Token { finished }
    }

    /// What the ring reports.
    pub(crate) fn into_finished(self) -> Finished<Piece, Global, PieceOrder>
        ensures value { self ≡ all_of result }
        ensures whole { waiting (all_sent result) ≡ [] }
    {
        self.finished
    }
}
