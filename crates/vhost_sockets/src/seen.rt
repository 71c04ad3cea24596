//! A link that shows which request it handed out last.

ghost use Rattle.std.specs.Prelude.{◌≡◌, ◌<◌};

use std::sync::atomic::{AtomicU64, Ordering};
use vhost_link::{Link, NoHandle, UnixLink};
use vhost_message::IoCause;

/// How many bytes a header has: the code, the flags and the size of the body, four bytes each.
const HEADER: usize = 12;

/// How many bytes one receive hands out at most.
const MAX_PIECE: usize = 4096;

/// Stands for no code: one has 32 bits.
const NO_CODE: u64 = u64::MAX;

/// The code of the request that a link handed out last.
#[derive(Drop)]
pub(crate) struct LastCode(AtomicU64);

impl LastCode {
    /// Before the first request.
    pub(crate) fn new() -> LastCode {
        LastCode(AtomicU64::new(NO_CODE))
    }

    /// The code, once the whole header has come.
    pub(crate) fn code(&self) -> Option<u32> {
        match u32::try_from(self.0.load(Ordering::SeqCst)) {
            Ok(code) => Some(code),
            Err(_) => None,
        }
    }
}

/// A link over a Unix stream socket. Where it shows its requests no receive hands out bytes of two messages, so the last code is that of
/// the request that is served.
#[derive(Drop)]
pub(crate) struct SeenLink<'a> {
    link: UnixLink,
    /// Where the codes are shown, if they are.
    last: Option<&'a LastCode>,
    /// Of the message under way: its header, how many bytes of it came, and how many of its body are still to come.
    header: [u8; HEADER],
    count: usize,
    left: usize,
}

impl<'a> SeenLink<'a> {
    /// Over a link that has handed nothing out.
    pub(crate) fn new(link: UnixLink, last: Option<&'a LastCode>) -> SeenLink<'a> {
        SeenLink {
            link,
            last,
            header: [0; HEADER],
            count: 0,
            left: 0,
        }
    }

    /// How many bytes the next receive may hand out, where codes are shown.
    fn most(&mut self, last: &LastCode) -> usize
        ensures some { 0 < result }
        ensures link { self.new.link ≡ self.old.link }
    {
        if self.count >= HEADER && self.left == 0 {
            self.count = 0;
            last.0.store(NO_CODE, Ordering::SeqCst);
        }
        if self.count < HEADER {
            HEADER - self.count
        } else {
            self.left
        }
    }

    /// These bytes were handed out.
    fn note(&mut self, last: &LastCode, bytes: &[u8])
        ensures { self.new.link ≡ self.old.link }
    {
        if self.count >= HEADER {
            self.left = self.left.saturating_sub(bytes.len());
            return;
        }
        let more = bytes.len().min(HEADER - self.count);
        self.header[self.count..self.count + more].copy_from_slice(&bytes[..more]);
        self.count += more;
        if self.count >= HEADER {
            let [c0, c1, c2, c3, _, _, _, _, s0, s1, s2, s3] = self.header;
            let code = u32::from_le_bytes([c0, c1, c2, c3]);
            last.0.store(u64::from(code), Ordering::SeqCst);
            self.left = u32::from_le_bytes([s0, s1, s2, s3]) as usize;
        }
    }
}

impl<'a> Link for SeenLink<'a> {
    ghost use Rattle.std.specs.Prelude.{⊤};
    ghost use Rattle.vhost_sockets.specs.Seen.{event};

    type Handle = NoHandle;

    ghost event = { event };

    ghost duplicates = { λ _ _. ⊤ };

    ghost opens = { λ _ _ _. ⊤ };

    fn send(&mut self, bytes: &[u8], handles: &[&NoHandle]) -> Result<usize, IoCause> {
        self.link.send(bytes, handles)
    }

    fn recv(&mut self, room: &mut [u8], handles: &mut Vec<NoHandle>) -> Result<usize, IoCause> {
        let Some(last) = self.last else {
            return self.link.recv(room, handles);
        };
        let mut bytes = [0; MAX_PIECE];
        let most = room.len().min(MAX_PIECE).min(self.most(last));
        let count = self.link.recv(&mut bytes[..most], handles)?;
        room[..count].copy_from_slice(&bytes[..count]);
        self.note(last, &bytes[..count]);
        Ok(count)
    }

    fn duplicate(&self) -> Result<SeenLink<'a>, IoCause> {
        Err(IoCause::Named("link cannot be duplicated"))
    }

    fn of_handle(&self, _handle: NoHandle) -> Result<SeenLink<'a>, IoCause> {
        Err(IoCause::Named("handles cannot be carried"))
    }
}
