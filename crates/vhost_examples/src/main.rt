//! Four small programs over the library, one after another: each is a module of its own. docs/guide/rattle.md explains them.
#![tactic(auto)]

mod asking;
mod device;
mod link;
mod loopback;
mod serving;
mod socket;

use std::thread;
use vhost_connection::Listener;

fn main(rt: HostRuntime) -> anyhow::Result<()> {
    serving::run(&rt)?;
    asking::run(&rt)?;
    let listener = Listener::new(&rt, rt.alloc(), socket::PATH, true)?;
    let (served, asked) = thread::join(
        &rt,
        || socket::serve(&rt, rt.alloc(), listener),
        || socket::ask(&rt, rt.alloc()),
    );
    let (features, rings) = asked?;
    println!(rt; "features: {features:#x}")?;
    println!(rt; "rings: {rings}")?;
    println!(rt; "requests served: {}", served?)?;
    link::run(&rt)
}
