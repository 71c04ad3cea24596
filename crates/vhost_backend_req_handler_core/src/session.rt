//! What a handler remembers of its frontend.

use vhost_message::{PostcopyState, has_bit, protocol_bit, virtio_bit};
use vhost_protocol::Profile;

/// The features offered and accepted, how far postcopy has come, the failure that marks the session, if any, and whose
/// behaviour it has.
#[derive(Clone, Copy, Debug)]
pub struct Session {
    pub offered: u64,
    pub acked: u64,
    pub acked_protocol_features: u64,
    pub postcopy: PostcopyState,
    pub failed: Option<i32>,
    pub profile: Profile,
}

impl Session {
    ghost use Rattle.std.specs.Prelude.{◌≡◌, ◌&&◌};
    ghost use Rattle.vhost_protocol.specs.Session.{fresh, ack_on, is_inactive as postcopy_inactive, is_advise as postcopy_advised, is_listen as postcopy_listens, enabling as features_to_enable};
    ghost use Rattle.vhost_protocol.specs.Profile.{is_standard as standard};
    ghost use Rattle.vhost_backend_req_handler_core.specs.Session.{session_of};

    /// A new session.
    pub fn new() -> Session
        ensures { session_of result ≡ fresh }
    {
        Session {
            offered: 0,
            acked: 0,
            acked_protocol_features: 0,
            postcopy: PostcopyState::Inactive,
            failed: None,
            profile: Profile::Vhost,
        }
    }

    /// Whether requests that ask for it are acknowledged: the protocol features were offered, and among them
    /// acknowledgements are agreed on.
    pub fn ack_on(&self) -> bool
        ensures { result ≡ ack_on (session_of self.now) }
    {
        let (offered, acked_protocol_features) = (self.offered, self.acked_protocol_features);
        has_bit(offered, virtio_bit::PROTOCOL_FEATURES)
            && has_bit(acked_protocol_features, protocol_bit::REPLY_ACK)
    }

    /// Whether a request is acknowledged that asks for it, or does not.
    pub fn acknowledges(&self, need_reply: bool) -> bool
        ensures { result ≡ (ack_on (session_of self.now) && need_reply) }
    {
        self.ack_on() && need_reply
    }

    /// Whether it is that of the specification and of real peers.
    pub fn is_standard(&self) -> bool
        ensures { result ≡ standard (session_of self.now).profile }
    {
        self.profile.is_standard()
    }

    /// The features by which a ring may be enabled: those that were accepted, and under Standard those that were offered, too.
    pub fn enabling(&self) -> u64
        ensures { result ≡ features_to_enable (session_of self.now) }
    {
        if self.is_standard() {
            self.offered | self.acked
        } else {
            self.acked
        }
    }

    /// Whether postcopy has not begun.
    pub fn is_inactive(&self) -> bool
        ensures { result ≡ postcopy_inactive (session_of self.now).postcopy }
    {
        matches!(self.postcopy, PostcopyState::Inactive)
    }

    /// Whether the frontend advised the backend of postcopy.
    pub fn is_advised(&self) -> bool
        ensures { result ≡ postcopy_advised (session_of self.now).postcopy }
    {
        matches!(self.postcopy, PostcopyState::Advise)
    }

    /// Whether the backend listens for page faults.
    pub fn is_listening(&self) -> bool
        ensures { result ≡ postcopy_listens (session_of self.now).postcopy }
    {
        matches!(self.postcopy, PostcopyState::Listen)
    }
}
