//! A line as a call.

ghost use Rattle.std.specs.Prelude.{◌≡◌, IfOk};
ghost use Rattle.vhost_lines.specs.Calls.{call_in, call_named};
ghost use Rattle.vhost_lines.specs.Read.{called};
ghost use Rattle.vhost_lines.specs.Words.{words};

use crate::call_words::table::call_named;
use crate::call_words::words::{first_word, first_words};
use std::alloc::{AllocError, Global};
use vhost_frontend_core::FrontendCall;

/// The call that a text asks for. AllocError: an allocation failed.
fn call_of_text(alloc: Global, text: &str) -> Result<Option<FrontendCall>, AllocError>
    ensures { IfOk result (λ call. called call ≡ call_named (words text.now)) }
{
    let (name, rest) = first_word(text);
    let (args, count) = first_words(rest);
    call_named(alloc, name, &args[..count], rest)
}

/// The call that a line asks for. None where it asks for none, or says more.
/// AllocError: an allocation failed.
pub fn call_of(alloc: Global, line: &[u8]) -> Result<Option<FrontendCall>, AllocError>
    ensures { IfOk result (λ call. called call ≡ call_in line.now) }
{
    let Ok(text) = str::from_utf8(line) else {
        return Ok(None);
    };
    call_of_text(alloc, text)
}
