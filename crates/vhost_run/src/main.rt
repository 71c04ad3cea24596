//! Runs the calls of a frontend, one a line, against an example device.
#![tactic(auto)]

use std::io::BufReader;
use std::process::ExitCode;
use std::{env, io};
pub use vhost_lines::run_lines;
use vhost_lines::{Fault, Profile, explain_lines_as, run_lines_as};

/// What the arguments ask for.
#[derive(Drop)]
struct Options {
    /// What both sides do where the crate `vhost` and the specification differ.
    profile: Profile,
    /// Lines that say nothing are passed over, and what fails has the status that it has of each command.
    comments: bool,
    /// A bad line says why.
    explains: bool,
}

fn main(rt: HostRuntime) -> ExitCode {
    let Some(options) = options_of(&rt) else {
        let _ = eprintln!(rt;
            "usage: vhost_run [-v|-q] [--comments] [--profile=standard|--profile=vhost]"
        );
        return ExitCode::from(2);
    };
    let ended = play(&rt, &options);
    ExitCode::from(if options.comments && ended == 2 {
        4
    } else {
        ended
    })
}

/// The arguments: the last of those that say the same thing counts. None: one of them is unknown.
fn options_of(rt: &HostRuntime) -> Option<Options> {
    let mut options = Options {
        profile: Profile::Vhost,
        comments: false,
        explains: false,
    };
    for word in env::args(rt).ok()?.skip(1) {
        match word.as_str() {
            "--profile=standard" => options.profile = Profile::Standard,
            "--profile=vhost" => options.profile = Profile::Vhost,
            "--comments" => {
                options.comments = true;
                options.explains = true;
            }
            "-v" => options.explains = true,
            "-q" => options.explains = false,
            _ => return None,
        }
    }
    Some(options)
}

/// Runs the lines of standard input: the status.
fn play(rt: &HostRuntime, options: &Options) -> u8 {
    let Ok(mut input) = BufReader::new(rt.alloc(), rt.reader()) else {
        let _ = eprintln!(rt; "{}", Fault::OutOfMemory);
        return 2;
    };
    // The output is not buffered: each line is one write, and a drop writes nothing.
    let mut output = io::writer(rt);
    let mut errors = rt.stderr();
    let (profile, comments) = (options.profile, options.comments);
    if options.explains {
        explain_lines_as(
            rt.alloc(),
            profile,
            comments,
            &mut input,
            &mut output,
            &mut errors,
        )
    } else {
        run_lines_as(
            rt.alloc(),
            profile,
            comments,
            &mut input,
            &mut output,
            &mut errors,
        )
    }
}
