//! What a server of many sessions asks before and after each request.

/// Holds the requests of sessions, or ends sessions. Sessions and requests are counted from 1.
pub trait Gate: Drop {
    /// Whether a session may serve its next request. It is asked before the request is read, and may hold it.
    fn before(&self, session: u32, request: u32) -> bool;

    /// A session has answered this request.
    fn after(&self, session: u32, request: u32);
}

/// Lets every request pass.
#[derive(Clone, Copy, Debug)]
pub struct Open;

impl Gate for Open {
    fn before(&self, _session: u32, _request: u32) -> bool {
        true
    }

    fn after(&self, _session: u32, _request: u32) {}
}
