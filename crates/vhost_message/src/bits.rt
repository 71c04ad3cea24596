//! The bits of words.

ghost use Rattle.std.specs.Prelude.{◌≡◌, ◌<◌};
ghost use Rattle.vhost_message.specs.Bits.{has_bit as is_set};

/// Whether a word has this bit, counted from 0.
pub fn has_bit(word: u64, bit: u32) -> bool
    requires { bit < 64 }
    ensures { result ≡ is_set word bit }
{
    (word >> bit) % 2 == 1
}
