//! Numbers of four bytes, one after another.

ghost use Rattle.std.specs.Prelude.{◌≡◌, ◌*◌, length};
ghost use Rattle.vhost_gpu_message.specs.Words.{words, words_of, AreWords};

use byteorder::{ByteOrder, LittleEndian};

/// Writes numbers to a slice of exactly their bytes.
pub fn write_words(out: &mut [u8], numbers: &[u32])
    requires { length out.old ≡ 4 * length numbers.now }
    ensures text { out.new ≡ words numbers.now }
    ensures fits { AreWords numbers.now }
{
    LittleEndian::write_u32_into(numbers, out);
}

/// The numbers in a slice of exactly their bytes.
pub fn read_words<const N: usize>(b: &[u8]) -> [u32; N]
    requires { length b.now ≡ 4 * N }
    ensures read { result ≡ words_of N b.now }
    ensures fits { AreWords result }
{
    let mut numbers = [0; N];
    LittleEndian::read_u32_into(b, &mut numbers);
    numbers
}
