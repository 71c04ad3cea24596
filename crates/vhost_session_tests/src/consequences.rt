//! The worked consequences, each run once with ample memory: none of them gives up without need. Those of the theorem's own statements
//! (`two_callers`, `carries`, `own_features`) are run by the program beside it, `vhost_headline`.

use crate::example::Example;
use crate::{channels, faults, frontend, joined, promises};
use std::alloc::Global;
use std::sync::Wait;
use vhost_promises::Device;

/// Whether those hold that are of any device.
fn over<D: Example>(alloc: Global) -> [bool; 3] {
    [
        faults::hold::<D>(alloc),
        joined::hold::<D>(alloc) == [true; 3],
        promises::hold_over::<D>(alloc) == [true; 6],
    ]
}

/// Whether the others hold.
fn others(rt: &impl Wait, alloc: Global) -> [bool; 6] {
    [
        frontend::hold(rt, alloc) == [true; 7],
        promises::hold(alloc) == [true; 6],
        channels::asks::hold(alloc) == [true; 3],
        channels::display_asks::hold(alloc) == [true; 3],
        channels::joined::hold(alloc) == [true; 5],
        channels::serves::hold(rt, alloc),
    ]
}

#[test]
fn consequences_hold(rt: HostRuntime) {
    assert!(rt; over::<Device>(rt.alloc()) == [true; 3]);
    assert!(rt; others(&rt, rt.alloc()) == [true; 6]);
}
