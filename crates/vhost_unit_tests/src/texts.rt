//! Whether values are shown as some texts. Where there is no memory for a text, it is another.

use std::alloc::{AllocError, Global};
use std::fmt::{Debug, Display};

/// Whether each value is shown as the text beside it.
pub(crate) fn are_shown<T: Display>(alloc: Global, cases: &[(T, &str)]) -> bool {
    for (value, text) in cases {
        if !is_shown(alloc, value, text) {
            return false;
        }
    }
    true
}

/// Whether a value is shown as this text.
pub(crate) fn is_shown<T: Display>(alloc: Global, value: &T, text: &str) -> bool {
    is_text(format!(in alloc; "{value}"), text)
}

/// Whether a value's fields are shown so.
pub(crate) fn has_fields<T: Debug>(alloc: Global, value: &T, text: &str) -> bool {
    is_text(format!(in alloc; "{value:?}"), text)
}

/// Whether a text was made, and is this one.
pub(crate) fn is_text(text: Result<String, AllocError>, want: &str) -> bool {
    match text {
        Ok(text) => text.as_str() == want,
        Err(_) => false,
    }
}
