//! Bytes, numbers and file descriptors, one after another.

ghost use Rattle.std.specs.Prelude.{◌≡◌, ◌≤◌, length};
ghost use Rattle.std.specs.Fmt.{WritesOnOk};
ghost use Rattle.std.specs.List.{flat_map};
ghost use Rattle.vhost_lines.specs.Numbers.{byte_text, bytes_text, numbers_text};
ghost use Rattle.vhost_lines.specs.Text.{handles_text};

use std::fmt;
use std::fmt::Formatter;
use vhost_link::PlainHandle;

/// How many bytes go into one write.
const CHUNK: usize = 128;

/// Shows bytes in hexadecimal, two digits each, and `-` where there is none.
pub(crate) fn show_bytes<W: fmt::Write>(bytes: &[u8], f: &mut Formatter<W>) -> fmt::Result
    ensures { WritesOnOk W.write_str_gives f.old result (bytes_text bytes.now) f.new }
{
    if bytes.is_empty() {
        return f.write_str("-");
    }
    let mut room = [0u8; 2 * CHUNK];
    for chunk in bytes.chunks(CHUNK) {
        f.write_str(digits_of(chunk, &mut room))?;
    }
    Ok(())
}

/// The digits of a chunk, two each byte, at the start of the buffer for them.
fn digits_of<'a>(chunk: &[u8], room: &'a mut [u8; 2 * CHUNK]) -> &'a str
    requires { length chunk.now ≤ 128 }
    ensures { result.now ≡ flat_map byte_text chunk.now }
{
    let digits = &mut room[..2 * chunk.len()];
    let Ok(()) = hex::encode_to_slice(chunk, digits) else {
        unreachable!();
    };
    let Ok(text) = str::from_utf8(digits) else {
        unreachable!();
    };
    text
}

/// Shows numbers in hexadecimal, as `0x1,0x20`, and `-` where there is none.
pub(crate) fn show_numbers<W: fmt::Write>(numbers: &[u64], f: &mut Formatter<W>) -> fmt::Result
    ensures { WritesOnOk W.write_str_gives f.old result (numbers_text numbers.now) f.new }
{
    let Some((first, rest)) = numbers.split_first() else {
        return f.write_str("-");
    };
    let first = *first;
    write!(f, "0x{first:x}")?;
    for number in rest {
        write!(f, ",0x{number:x}")?;
    }
    Ok(())
}

/// Shows file descriptors by their numbers, as `[1,2]`, and nothing where there is none.
pub(crate) fn show_handles<W: fmt::Write>(
    handles: &[PlainHandle],
    f: &mut Formatter<W>,
) -> fmt::Result
    ensures { WritesOnOk W.write_str_gives f.old result (handles_text handles.now) f.new }
{
    let Some((first, rest)) = handles.split_first() else {
        return Ok(());
    };
    let id = first.id;
    write!(f, "[{id}")?;
    for handle in rest {
        let id = handle.id;
        write!(f, ",{id}")?;
    }
    f.write_str("]")
}
