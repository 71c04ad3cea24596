//! Reports each request that is refused.

use crate::seen::LastCode;
use crate::session::Watch;
use crate::shared::Sessions;
use std::sync::Wait;
use vhost_message::Error;

/// Reports the refusals of one session.
pub(crate) struct Refusals<'a, R: Wait, S: Sessions> {
    pub(crate) rt: &'a R,
    pub(crate) shared: &'a S,
    pub(crate) session: u64,
    pub(crate) last: &'a LastCode,
}

impl<'a, R: Wait, S: Sessions> Drop for Refusals<'a, R, S> {
    fn drop(self) {
        let Refusals {
            rt: _,
            shared: _,
            session: _,
            last: _,
        } = self;
    }
}

impl<'a, R: Wait, S: Sessions> Watch for Refusals<'a, R, S> {
    fn refused(&self, request: u32, error: &Error) {
        if let Error::Disconnected = error {
            return;
        }
        self.shared
            .report_refusal(self.rt, self.session, request, self.last.code(), error);
    }
}
