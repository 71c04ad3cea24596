//! The theorem, and a run of each of its statements: what they assume can be met.
#![tactic(auto)]

mod headline;
mod runs;
mod session_runs;
mod sessions;

use std::process::ExitCode;

fn main(rt: HostRuntime) -> ExitCode {
    let alloc = rt.alloc();
    let ran = [
        ("safe_and_total", runs::cut_short(alloc)),
        ("each_call", runs::features(alloc)),
        ("whole_runs", runs::three(alloc)),
        ("whole_runs over a link that is reset", runs::reset(alloc)),
        ("lockstep", runs::joined(alloc)),
        ("threads", runs::two_callers(&rt, alloc)),
        ("own_answer", runs::shared(&rt, alloc)),
        ("ring", runs::twenty(&rt, alloc)),
        ("frontend_asks", session_runs::asked(alloc)),
        ("frontend_takes", session_runs::features(alloc)),
        ("channel_serves", session_runs::served(alloc)),
        ("channel_runs", session_runs::served_twice(alloc)),
        ("channel_asks", session_runs::added(alloc)),
        ("channel_takes", session_runs::acknowledged(alloc)),
        ("display_asks", session_runs::displayed(alloc)),
        ("queue_follows", session_runs::followed(alloc)),
        ("packed_queue_follows", session_runs::followed_packed(alloc)),
    ];
    for (name, holds) in ran {
        let says = if holds == Some(true) {
            "ran"
        } else {
            "did not run"
        };
        if println!(rt; "{name}: {says}").is_err() {
            return ExitCode::FAILURE;
        }
    }
    ExitCode::SUCCESS
}
