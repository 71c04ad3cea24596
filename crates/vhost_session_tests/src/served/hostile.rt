//! One stream of six requests, cut at each byte, in pieces of each size, and with a descriptor at each byte.

use super::{End, Stream, end_of, session_of};
use crate::example::Example;
use std::alloc::Global;
use vhost_backend_req_handler::SessionCore;
use vhost_link::{Cut, Kind, MemLink};
use vhost_promises::Device;

/// GET_FEATURES, SET_OWNER, SET_FEATURES, GET_PROTOCOL_FEATURES, SET_PROTOCOL_FEATURES with REPLY_ACK, and SET_OWNER, which wants an
/// acknowledgement.
static SIX: [u8; 88] = [
    1, 0, 0, 0, 1, 0, 0, 0, 0, 0, 0, 0, 3, 0, 0, 0, 1, 0, 0, 0, 0, 0, 0, 0, 2, 0, 0, 0, 1, 0, 0, 0,
    8, 0, 0, 0, 1, 0, 0, 0x40, 0, 0, 0, 0, 15, 0, 0, 0, 1, 0, 0, 0, 0, 0, 0, 0, 16, 0, 0, 0, 1, 0,
    0, 0, 8, 0, 0, 0, 8, 0, 0, 0, 0, 0, 0, 0, 3, 0, 0, 0, 9, 0, 0, 0, 0, 0, 0, 0,
];

/// What goes out of them: both replies, and the acknowledgement that the second claim failed.
static OUT: [u8; 60] = [
    1, 0, 0, 0, 5, 0, 0, 0, 8, 0, 0, 0, 3, 0, 0, 0x40, 0, 0, 0, 0, 15, 0, 0, 0, 5, 0, 0, 0, 8, 0,
    0, 0, 255, 255, 0x7f, 0, 0, 0, 0, 0, 3, 0, 0, 0, 5, 0, 0, 0, 8, 0, 0, 0, 1, 0, 0, 0, 0, 0, 0,
    0,
];

/// Where each begins.
static BEGINNINGS: [usize; 6] = [0, 12, 24, 44, 56, 76];

/// How many calls ended in which way.
#[derive(Clone, Copy, Debug, Default, PartialEq, Eq)]
struct Counts {
    gone: u32,
    partial: u32,
    message: u32,
    served: u32,
    otherwise: u32,
}

impl Counts {
    /// Counts one more.
    fn count(&mut self, end: End) {
        let counted = match end {
            End::Gone => &mut self.gone,
            End::Partial => &mut self.partial,
            End::Message => &mut self.message,
            End::Done => &mut self.served,
            _ => &mut self.otherwise,
        };
        *counted = counted.saturating_add(1);
    }
}

/// How so many calls end, one after another.
fn served<D: Example>(core: &mut SessionCore<MemLink>, device: &mut D, calls: usize) -> Counts {
    let mut counts = Counts::default();
    for _ in 0..calls {
        let answer = core.handle_request(device);
        counts.count(end_of(&answer));
    }
    counts
}

/// How many requests begin and end below this place.
fn whole_below(place: usize) -> usize {
    match BEGINNINGS.iter().position(|begin| *begin > place) {
        Some(next) => next.saturating_sub(1),
        None => 5,
    }
}

/// How the call ends behind the whole requests of a stream that is cut off here.
fn cut_off<D: Example>(alloc: Global, place: usize) -> Option<End> {
    let stream = Stream {
        script: &[],
        first: &[],
        then: SIX.get(..place)?,
        count: 0,
        kind: Kind::NoSocket,
    };
    let mut core = session_of(alloc, &stream)?;
    let mut device = D::fresh(alloc);
    served(&mut core, &mut device, whole_below(place));
    let answer = core.handle_request(&mut device);
    Some(end_of(&answer))
}

/// How all streams end that are cut off.
fn all_cut_off<D: Example>(alloc: Global) -> Counts {
    let mut counts = Counts::default();
    for place in 0..88_usize {
        counts.count(cut_off::<D>(alloc, place).unwrap_or(End::Otherwise));
    }
    counts
}

/// Whether the whole stream is answered as ever where it comes in pieces of this size: five are served, and the sixth is refused.
fn in_pieces<D: Example>(alloc: Global, size: usize) -> Option<bool> {
    let script = vec![in alloc; Cut::Give(size); 88].ok()?;
    let stream = Stream {
        script: &script,
        first: &[],
        then: &SIX,
        count: 0,
        kind: Kind::NoSocket,
    };
    let mut core = session_of(alloc, &stream)?;
    let mut device = D::fresh(alloc);
    let counts = served(&mut core, &mut device, 6);
    let is_whole = core.endpoint_mut().link().taken().bytes() == OUT.as_slice();
    Some(is_whole && (counts.served, counts.otherwise) == (5, 1))
}

/// Whether that holds for pieces of every size.
fn in_all_pieces<D: Example>(alloc: Global) -> bool {
    let mut all = true;
    for size in 1..88_usize {
        if in_pieces::<D>(alloc, size) != Some(true) {
            all = false;
        }
    }
    all
}

/// How the stream is answered where a descriptor comes with the byte at this place: how many calls were refused as messages, and how
/// many bytes went out.
fn with_descriptor<D: Example>(alloc: Global, place: usize) -> Option<(u32, usize)> {
    if place > SIX.len() {
        return None;
    }
    let (first, then) = SIX.split_at(place);
    let stream = Stream {
        script: &[],
        first,
        then,
        count: 1,
        kind: Kind::NoSocket,
    };
    let mut core = session_of(alloc, &stream)?;
    let mut device = D::fresh(alloc);
    let counts = served(&mut core, &mut device, 6);
    Some((counts.message, core.endpoint_mut().link().taken().len()))
}

/// Of the 88 places: at how many no request was refused as a message; at how many one was and the others were served; at how many a
/// request's first byte brought the descriptor, so that it was refused and its body stayed unread; and at how many it was otherwise.
fn with_each_descriptor<D: Example>(alloc: Global) -> [u32; 4] {
    let mut found = [0_u32; 4];
    for place in 0..88_usize {
        let is_first = BEGINNINGS.contains(&place);
        let kind = match with_descriptor::<D>(alloc, place) {
            Some((0, 60)) => 0,
            Some((1, _)) if !is_first => 1,
            Some((1..=6, _)) if is_first => 2,
            _ => 3,
        };
        found[kind] = found[kind].saturating_add(1);
    }
    found
}

#[test]
fn a_hostile_stream_is_answered(rt: HostRuntime) {
    let counts = Counts {
        gone: 6,
        partial: 66,
        message: 16,
        served: 0,
        otherwise: 0,
    };
    assert!(rt; all_cut_off::<Device>(rt.alloc()) == counts);
    assert!(rt; in_all_pieces::<Device>(rt.alloc()));
    assert!(rt; with_each_descriptor::<Device>(rt.alloc()) == [66, 16, 6, 0]);
}
