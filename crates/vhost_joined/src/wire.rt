//! A copy of the last message that went over a link.

ghost use Rattle.std.specs.Prelude.{◌≡◌, ◌≤◌, length, IfOk, vec_capacity};
ghost use Rattle.vhost_message.specs.declared.limits.TheConstants.{MAX_ATTACHED_FD_ENTRIES, MAX_MSG_TEXT};
ghost use Rattle.vhost_joined.specs.Text.{text_of, no_text};

use std::alloc::{AllocError, Global};
use vhost_link::{Flow, PlainHandle};
use vhost_message::{MAX_ATTACHED_FD_ENTRIES, MAX_MSG_TEXT};

/// The bytes of a message and the descriptors on its first byte, with room for the greatest one.
#[derive(Drop)]
pub struct Wire {
    bytes: Vec<u8>,
    handles: Vec<PlainHandle>,
    ghost room: { (MAX_MSG_TEXT ≤ vec_capacity bytes) × (MAX_ATTACHED_FD_ENTRIES ≤ vec_capacity handles) },
}

impl Wire {
    ghost use Rattle.vhost_joined.specs.Wire.{text_in};

    /// A copy of no message.
    pub fn new(alloc: Global) -> Result<Wire, AllocError>
        ensures { IfOk result (λ wire. text_in wire ≡ no_text) }
    {
        Ok(Wire {
            bytes: Vec::with_capacity(alloc, MAX_MSG_TEXT)?,
            handles: Vec::with_capacity(alloc, MAX_ATTACHED_FD_ENTRIES)?,
        })
    }

    /// Copies for both ways.
    pub fn pair(alloc: Global) -> Result<(Wire, Wire), AllocError>
        ensures { IfOk result (λ wires. (text_in wires.0 ≡ no_text) × (text_in wires.1 ≡ no_text)) }
    {
        let first = Wire::new(alloc)?;
        Ok((first, Wire::new(alloc)?))
    }

    /// The bytes.
    pub fn bytes(&self) -> &[u8]
        ensures { result.now ≡ (text_in self.now).bytes }
    {
        &self.bytes
    }

    /// The descriptors on the first byte.
    pub fn handles(&self) -> &[PlainHandle]
        ensures { result.now ≡ (text_in self.now).handles }
    {
        &self.handles
    }

    /// Forgets the message.
    pub fn clear(&mut self)
        ensures { text_in self.new ≡ no_text }
    {
        self.bytes.clear();
        self.handles.clear();
    }

    /// Copies the bytes that a link accepted, and the descriptors on the first. More than the greatest message is no
    /// message: nothing is copied of it.
    pub fn copy(&mut self, sent: &Flow)
        ensures { length sent.now ≤ MAX_MSG_TEXT → text_in self.new ≡ text_of sent.now }
    {
        if sent.len() > MAX_MSG_TEXT {
            return;
        }
        self.bytes.clear();
        self.bytes.extend_from_slice(sent.bytes()).unwrap();
        self.handles.clear();
        self.handles.extend_from_slice(sent.handles(0)).unwrap();
    }
}
