//! Callers of one recorder in threads of their own, with what is proved of their receipts.

mod drive;
mod seen;
