//! Calls of both ends of a link, one after another.

use crate::rings::part::{handle, pair, receive, send};
use std::alloc::{AllocError, Global};
use vhost_link::SharedLink;

/// Forty bytes, each another.
pub(crate) static BYTES: [u8; 40] = [
    1, 2, 3, 4, 5, 6, 7, 8, 9, 10, 11, 12, 13, 14, 15, 16, 17, 18, 19, 20, 21, 22, 23, 24, 25, 26,
    27, 28, 29, 30, 31, 32, 33, 34, 35, 36, 37, 38, 39, 40,
];

/// A call of a link.
#[derive(Clone, Copy, Debug)]
pub(crate) enum Step {
    /// The near end sends the bytes from the first number to before the second.
    Send(usize, usize),
    /// It sends them with the file descriptor 7.
    SendOne(usize, usize),
    /// It sends them with the file descriptors 8 and 9.
    SendTwo(usize, usize),
    /// The far end receives up to so many bytes.
    Receive(usize),
}

/// What the calls answer over rings with room for 33 pieces, a line each; then the near end goes, and all that comes is received.
pub(crate) fn play(alloc: Global, steps: &[Step]) -> Result<String, AllocError> {
    let (near, mut far) = pair((), alloc)?;
    let mut text = String::new(alloc);
    play_all(alloc, near, &mut far, steps, &mut text)?;
    Ok(text)
}

/// Plays each step, lets go of the near end, and receives four times more.
fn play_all(
    alloc: Global,
    mut near: SharedLink<()>,
    far: &mut SharedLink<()>,
    steps: &[Step],
    text: &mut String,
) -> Result<(), AllocError> {
    for step in steps {
        play_step(alloc, &mut near, far, *step, text)?;
    }
    drop(near);
    for _i in 0..4u32 {
        show(text, alloc, far, 64)?;
    }
    Ok(())
}

fn play_step(
    alloc: Global,
    near: &mut SharedLink<()>,
    far: &mut SharedLink<()>,
    step: Step,
    text: &mut String,
) -> Result<(), AllocError> {
    let sent = match step {
        Step::Receive(most) => return show(text, alloc, far, most),
        Step::Send(from, to) => send(near, bytes(from, to), &[]),
        Step::SendOne(from, to) => send(near, bytes(from, to), &[&handle(7)]),
        Step::SendTwo(from, to) => send(near, bytes(from, to), &[&handle(8), &handle(9)]),
    };
    writeln!(text, "{sent:?}")
}

/// The bytes from one number to before another.
fn bytes<'a>(from: usize, to: usize) -> &'a [u8] {
    BYTES.get(from..to).unwrap_or(&[])
}

/// Writes what one receive hands out.
fn show(
    text: &mut String,
    alloc: Global,
    far: &mut SharedLink<()>,
    most: usize,
) -> Result<(), AllocError> {
    match receive(far, alloc, most)? {
        Some(part) => writeln!(text, "{:?} {:?}", part.bytes, part.handles),
        None => writeln!(text, "nothing"),
    }
}
