//! A line of output, written whole, or up to the write that failed.

ghost use Rattle.std.specs.Prelude.{MatchResult};
ghost use Rattle.std.specs.Io.KnownBytes.{Appends};
ghost use Rattle.vhost_lines.specs.Output.{AppendsFront};

use crate::fault::Fault;
use std::io;
use std::io::{ErrorKind, Write};

/// Writes a line, and flushes it. Nothing is written after a write that failed: then a prefix of the line was.
pub(crate) fn write_line<W: Write>(output: &mut W, line: &[u8]) -> Result<(), Fault>
    ensures { MatchResult result (λ _. Appends (W.contents output.old) (W.contents output.new) line.now) (λ _. AppendsFront (W.contents output.old) (W.contents output.new) line.now) }
{
    write_bytes(output, line)?;
    match output.flush() {
        Ok(()) => Ok(()),
        Err(error) => Err(Fault::Output(error)),
    }
}

/// Writes bytes, in as many writes as it takes. Nothing is written after one that failed.
fn write_bytes<W: Write>(output: &mut W, bytes: &[u8]) -> Result<(), Fault>
    ensures { MatchResult result (λ _. Appends (W.contents output.old) (W.contents output.new) bytes.now) (λ _. AppendsFront (W.contents output.old) (W.contents output.new) bytes.now) }
{
    let mut rest = bytes;
    for _ in 0..u64::MAX {
        if rest.is_empty() {
            return Ok(());
        }
        match output.write(rest) {
            Ok(0) => return Err(Fault::Output(io::Error::from(ErrorKind::WriteZero))),
            Ok(count) => rest = &rest[count..],
            Err(error) if error.kind() == ErrorKind::Interrupted => {}
            Err(error) => return Err(Fault::Output(error)),
        }
    }
    Err(Fault::Output(io::Error::from(ErrorKind::Interrupted)))
}
