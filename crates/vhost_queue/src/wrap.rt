//! Places in a packed ring, which its two sides count round and round.

ghost use Rattle.std.specs.Prelude.{◌≡◌, ◌*◌, ◌<◌, ◌≤◌, ◌↔◌, IsTrue};
ghost use Rattle.vhost_queue.specs.Wrap.{advanced, distance, is_available, number_of, on_rounds, position_of, Passes};

const AVAIL: u16 = 1 << 7;

const USED: u16 = 1 << 15;

const WRAP: u16 = 1 << 15;

/// A place in a packed ring, and the wrap counter of the side that is there (virtio 1.2, 2.8.1).
#[derive(Clone, Copy, PartialEq, Eq, Debug, Drop)]
pub struct Position {
    pub index: u16,
    pub wrap: bool,
}

impl Position {
    /// So many descriptors further in a ring of this size.
    pub fn advanced(&self, size: u16, count: u16) -> Position
        requires within { self.now.index < size }
        requires few { count ≤ size }
        ensures exact { result ≡ advanced size self.now count }
        ensures within { result.index < size }
    {
        let left = size - self.index;
        if count < left {
            Position {
                index: self.index + count,
                wrap: self.wrap,
            }
        } else {
            Position {
                index: count - left,
                wrap: !self.wrap,
            }
        }
    }

    /// Whether a descriptor with these flags is available here.
    pub fn is_available(&self, flags: u16) -> bool
        ensures { result ≡ is_available self.now.wrap flags }
    {
        let avail = flags & AVAIL != 0;
        let used = flags & USED != 0;
        avail == self.wrap && used != self.wrap
    }

    /// The place that 16 bits say: the wrap counter above the index.
    pub fn of_number(number: u16) -> Position
        ensures { result ≡ position_of number }
    {
        Position {
            index: number % WRAP,
            wrap: number >= WRAP,
        }
    }

    /// The same as 16 bits.
    pub fn number(&self) -> u16
        requires { self.now.index < 32768 }
        ensures { result ≡ number_of self.now }
    {
        if self.wrap {
            self.index + WRAP
        } else {
            self.index
        }
    }

    // The place on two rounds of the ring.
    fn on_rounds(&self, size: u16) -> u32
        ensures { result ≡ on_rounds size self.now }
    {
        if self.wrap {
            u32::from(self.index)
        } else {
            u32::from(self.index) + u32::from(size)
        }
    }
}

// How far it is from one place to another on two rounds of a ring.
fn distance(size: u16, from: u32, to: u32) -> u32
    requires from_within { from < 2 * size }
    requires to_within { to < 2 * size }
    ensures { result ≡ distance size from to }
{
    if from <= to {
        to - from
    } else {
        to + 2 * u32::from(size) - from
    }
}

/// Whether the driver wants to be told, now that the device went from `old` to `new` in a ring of this size: it passed the place
/// that was asked for (virtio 1.2, 2.8.10).
pub fn passes(size: u16, event: Position, new: Position, old: Position) -> bool
    requires event_within { event.index < size }
    requires new_within { new.index < size }
    requires old_within { old.index < size }
    ensures { IsTrue result ↔ Passes size old new event }
{
    let from = old.on_rounds(size);
    distance(size, from, event.on_rounds(size)) < distance(size, from, new.on_rounds(size))
}
