//! Values whose wire bytes have a fixed length.

ghost use Rattle.std.specs.Prelude.{◌≡◌, ℕ, List, Bool, true, length};

/// A record of the protocol, as its bytes on a stream.
pub trait ByteValued {
    /// How many bytes the record has.
    const SIZE: usize;

    ghost SIZE: { ℕ };

    /// The fields in order, each as its little-endian digits.
    ghost text: { Self → List ℕ };

    /// The record that wire bytes stand for.
    ghost read: { List ℕ → Self };

    /// Holds of each value of the type: its numbers are within their fields.
    ghost fits: { Self → Type 0 };

    /// Writes the record's bytes to a slice of exactly `SIZE` bytes.
    fn encode_into(&self, out: &mut [u8])
        requires { length out.old ≡ SIZE }
        ensures text { out.new ≡ text self.now }
        ensures fits { fits self.now };

    /// The record in a slice of exactly `SIZE` bytes.
    fn decode(b: &[u8]) -> Self
        requires { length b.now ≡ SIZE }
        ensures read { result ≡ read b.now }
        ensures fits { fits result };

    /// The wire bytes of each value have the one length.
    ghost text_length: { (v : Self) → fits v → length (text v) ≡ SIZE };

    /// What was written is read again.
    ghost reads_back: { (v : Self) → fits v → read (text v) ≡ v };
}

/// A record that may be refused.
pub trait VhostUserMsgValidator: ByteValued {
    /// Whether a record is valid.
    ghost valid: { Self → Bool } = { λ _. true };

    /// Whether the record may be used: its numbers are allowed, and no sum of them goes past its type.
    fn is_valid(&self) -> bool
        ensures { result ≡ valid self.now };
}
