//! A word as a number.

ghost use Rattle.std.specs.Prelude.{◌≡◌, ◌≤◌, ◌^◌};
ghost use Rattle.vhost_lines.specs.Number.{numeral, below, u64, u32, u16};

/// The number of 64 bits that digits write. None where it is greater, or where a character is no digit, or there is none.
fn numeral(digits: &str, radix: u32) -> Option<u64>
    requires lower_bound { 2 ≤ radix }
    requires upper_bound { radix ≤ 36 }
    ensures { result ≡ below (2 ^ 64) (numeral radix digits.now) }
{
    if digits.starts_with('+') {
        return None;
    }
    u64::from_str_radix(digits, radix).ok()
}

/// The number of 64 bits that a word writes, in hexadecimal digits behind `0x`, or in decimal digits.
pub(crate) fn number(word: &str) -> Option<u64>
    ensures { result ≡ u64 word.now }
{
    match word.strip_prefix("0x") {
        Some(digits) => numeral(digits, 16),
        None => numeral(word, 10),
    }
}

/// The number of 32 bits that a word writes.
pub(crate) fn number_32(word: &str) -> Option<u32>
    ensures { result ≡ u32 word.now }
{
    u32::try_from(number(word)?).ok()
}

/// The number of 16 bits that a word writes.
pub(crate) fn number_16(word: &str) -> Option<u16>
    ensures { result ≡ u16 word.now }
{
    u16::try_from(number(word)?).ok()
}

/// The number that a word writes, as an index.
pub(crate) fn index(word: &str) -> Option<usize>
    ensures { result ≡ u64 word.now }
{
    Some(number(word)? as usize)
}
