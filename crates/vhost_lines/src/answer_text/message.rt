//! Messages.

ghost use Rattle.std.specs.Prelude.{Some};
ghost use Rattle.vhost_lines.specs.Text.{message_text};

use crate::answer_text::lists::{show_bytes, show_handles};
use std::fmt;
use std::fmt::Formatter;
use vhost_link::PlainHandle;

/// A message: its bytes in hexadecimal, and after them its descriptors, as `[1,2]`, where it has some. `-` where there is
/// no byte.
#[derive(Clone, Copy)]
pub struct Message<'a> {
    /// Its bytes.
    pub bytes: &'a [u8],
    /// The descriptors that came with them.
    pub handles: &'a [PlainHandle],
}

impl<'a> fmt::Display for Message<'a> {
    ghost output = { λ m. Some (message_text m.bytes.now m.handles.now) };

    fn fmt<W: fmt::Write>(&self, f: &mut Formatter<W>) -> fmt::Result {
        if self.bytes.is_empty() {
            return f.write_str("-");
        }
        show_bytes(self.bytes, f)?;
        show_handles(self.handles, f)
    }
}
