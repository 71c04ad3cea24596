//! Rings between two ends in one thread.

ghost use Rattle.std.specs.Prelude.{◌≡◌};

use crate::rings::part::{Part, handle, pair, receive, send};
use crate::rings::script::{BYTES, Step, play};
use crate::texts::is_text;
use std::alloc::{AllocError, Global};
use vhost_link::SharedLink;

#[test]
fn takes_what_there_is_room_for(rt: HostRuntime) {
    let steps = [
        Step::Send(0, 40),
        Step::Send(33, 40),
        Step::Receive(5),
        Step::Send(33, 40),
    ];
    let want = "Ok(33)
Err(11)
[1, 2, 3, 4, 5] []
Ok(5)
[6, 7, 8, 9, 10, 11, 12, 13, 14, 15, 16, 17, 18, 19, 20, 21, 22, 23, 24, 25, 26, 27, 28, 29, 30, 31, 32, 33, 34, 35, 36, 37, 38] []
[] []
[] []
[] []
";
    assert!(rt; is_text(play(rt.alloc(), &steps), want));
}

#[test]
fn takes_no_handle_without_a_byte(rt: HostRuntime) {
    let steps = [
        Step::Send(0, 32),
        Step::SendOne(32, 33),
        Step::Receive(30),
        Step::Receive(30),
        Step::Receive(30),
        Step::SendOne(32, 33),
    ];
    let want = "Ok(32)
Err(11)
[1, 2, 3, 4, 5, 6, 7, 8, 9, 10, 11, 12, 13, 14, 15, 16, 17, 18, 19, 20, 21, 22, 23, 24, 25, 26, 27, 28, 29, 30] []
[31, 32] []
nothing
Ok(1)
[33] [7]
[] []
[] []
[] []
";
    assert!(rt; is_text(play(rt.alloc(), &steps), want));
}

#[test]
fn ends_before_the_next_handles(rt: HostRuntime) {
    let steps = [Step::Send(0, 1), Step::SendTwo(1, 3), Step::SendOne(3, 4)];
    let want = "Ok(1)\nOk(2)\nOk(1)\n[1] []\n[2, 3] [8, 9]\n[4] [7]\n[] []\n";
    assert!(rt; is_text(play(rt.alloc(), &steps), want));
}

/// What four bytes are that came, and how many pieces are left behind them.
fn left_behind<R: Copy + Drop>(
    alloc: Global,
    near: SharedLink<R>,
    mut far: SharedLink<R>,
) -> Result<(Option<Part>, usize), AllocError>
    requires { near.output ≡ far.input }
{
    let part = receive(&mut far, alloc, 4)?;
    let left = match near.finish() {
        Some(token) => far.compare(token),
        None => 99,
    };
    Ok((part, left))
}

/// Sends ten bytes with one file descriptor, receives four, and shows both what came and how many pieces are left.
fn cut_short(alloc: Global) -> Result<String, AllocError> {
    let (mut near, far) = pair((), alloc)?;
    let sent = send(&mut near, &BYTES[..10], &[&handle(7)]);
    let (part, left) = left_behind(alloc, near, far)?;
    format!(in alloc; "{sent:?} {part:?} {left}")
}

#[test]
fn counts_what_is_left(rt: HostRuntime) {
    let want = "Ok(10) Some(Part { bytes: [1, 2, 3, 4], handles: [7] }) 6";
    assert!(rt; is_text(cut_short(rt.alloc()), want));
}
