//! How far live migration by postcopy has come.

/// The state of postcopy, as both sides of a connection keep it.
#[derive(Clone, Copy, Debug, Default, PartialEq, Eq)]
pub enum PostcopyState {
    /// Not begun.
    #[default]
    Inactive,
    /// The frontend advised the backend of it.
    Advise,
    /// The backend listens for page faults.
    Listen,
    /// Ended.
    End,
}
