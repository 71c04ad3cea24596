//! Types of codes, and the headers that name them.

ghost use Rattle.std.specs.Prelude.{◌≡◌, ℕ, Bool, true, false, Option, Some};
ghost use Rattle.vhost_message.specs.declared.limits.TheConstants.{MSG_HEADER_SIZE};

use crate::bytes::VhostUserMsgValidator;
use std::fmt::Debug;

/// A type of codes: some numbers stand for a code each, all others for none.
pub trait Req: Copy + Drop + Debug + Eq + Ord {
    /// The number of a code.
    ghost number: { Self → ℕ };

    /// The code of a number, where there is one.
    ghost code: { ℕ → Option Self };

    /// The same, where a number that has no name may be a code, too.
    ghost any: { ℕ → Option Self };

    /// Whether a code has a name.
    ghost named: { Self → Bool };

    /// The number of the code.
    fn number(self) -> u32
        ensures { result ≡ number self };

    /// The code of a number; none where the number stands for no code.
    fn code(n: u32) -> Option<Self>
        ensures { result ≡ code n };

    /// The same, where a number that has no name may be a code, too.
    fn any(n: u32) -> Option<Self>
        ensures { result ≡ any n };

    /// A code that has a name is the code of its number.
    ghost code_of_number: { (c : Self) → named c ≡ true → code (number c) ≡ Some c };

    /// No other number gives it.
    ghost number_of_code: { (n : ℕ) (c : Self) → code n ≡ Some c → number c ≡ n };

    /// Nor where any number may be a code.
    ghost number_of_any: { (n : ℕ) (c : Self) → any n ≡ Some c → number c ≡ n };

    /// The code of a number is that also where any number may be a code.
    ghost any_of_code: { (n : ℕ) (c : Self) → code n ≡ Some c → any n ≡ Some c };
}

/// The header of a channel: `MSG_HEADER_SIZE` bytes, that name one of the codes of `Request` or are not valid.
pub trait MsgHeader: VhostUserMsgValidator + Copy + Drop {
    type Request: Req;

    /// The greatest size of a body.
    const MAX_MSG_SIZE: usize;

    ghost MAX_MSG_SIZE: { ℕ };

    /// Whether a header is heard, where any number may be a code, and where it may not.
    ghost heard: { (any_number : Bool) → Self → Bool };

    /// Whether this header is heard, where any number may be a code, and where it may not.
    fn is_heard(&self, any_number: bool) -> bool
        ensures { result ≡ heard any_number self.now };

    /// Where it may not, only a valid one is.
    ghost heard_is_valid: { (h : Self) → heard false h ≡ Self.VhostUserMsgValidator.valid h };

    ghost size_of_header: { Self.SIZE ≡ MSG_HEADER_SIZE };
}
