//! How much came of the message that is awaited.

use vhost_message::{
    ByteValued, HeardReq, MAX_MSG_SIZE, MSG_HEADER_SIZE, MsgHeader, Req, VhostUserMsgHeader,
};

type Header = VhostUserMsgHeader<HeardReq>;

/// How much came of the message that is awaited: its header, as far as that came, and how many bytes in all.
#[derive(Drop, Clone, Copy)]
pub struct Incoming {
    pub head: [u8; MSG_HEADER_SIZE],
    pub count: usize,
}

impl Incoming {
    ghost use Rattle.std.specs.Prelude.{◌≡◌, ◌≤◌};
    ghost use Rattle.vhost_message.specs.Header.{header_of};
    ghost use Rattle.vhost_message.specs.declared.limits.TheConstants.{MAX_MSG_TEXT};
    ghost use Rattle.vhost_message.specs.Codes.{heard_by};
    ghost use Rattle.vhost_c_common.specs.Incoming.{missing_in, missing_by, Adds};

    /// Nothing came yet.
    pub fn new() -> Incoming
        ensures { result.count ≡ 0 }
    {
        Incoming {
            head: [0; MSG_HEADER_SIZE],
            count: 0,
        }
    }

    /// How many bytes are known to be missing of a reply: those of the header, and then those of the body that the header
    /// announces. The body of a reply that is longer than a message may be is not waited for.
    pub fn missing(&self) -> usize
        ensures missing { result ≡ missing_in self.now }
        ensures within { result ≤ MAX_MSG_TEXT }
    {
        if self.count < MSG_HEADER_SIZE {
            return MSG_HEADER_SIZE - self.count;
        }
        let size = self.size();
        if size > MAX_MSG_SIZE {
            return 0;
        }
        (MSG_HEADER_SIZE + size).saturating_sub(self.count)
    }

    /// The same of a request that is one of these codes, or has any number. The body is not waited for where the header is not
    /// that of a request.
    pub fn missing_by<R: Req>(&self, any_number: bool) -> usize
        ensures missing { result ≡ missing_by (heard_by R.code R.any any_number) self.now }
        ensures within { result ≤ MAX_MSG_TEXT }
    {
        if self.count < MSG_HEADER_SIZE {
            return MSG_HEADER_SIZE - self.count;
        }
        let header = VhostUserMsgHeader::<R>::decode(&self.head);
        if !header.is_heard(any_number) {
            return 0;
        }
        (MSG_HEADER_SIZE + header.get_size() as usize).saturating_sub(self.count)
    }

    /// The size of the body that the header announces.
    pub fn size(&self) -> usize
        ensures { result ≡ (header_of self.now.head).size }
    {
        Header::decode(&self.head).get_size() as usize
    }

    /// These bytes came.
    pub fn add(&mut self, bytes: &[u8])
        ensures { Adds bytes.now self.old self.new }
    {
        if self.count < MSG_HEADER_SIZE {
            let more = bytes.len().min(MSG_HEADER_SIZE - self.count);
            self.head[self.count..self.count + more].copy_from_slice(&bytes[..more]);
        }
        self.count = self.count.saturating_add(bytes.len());
    }
}
