//! Tests of queues: devices that serve a guest, which is memory of this process, and what a refusal leaves to a device.
#![tactic(auto)]

#[cfg(test)]
mod frontend;
#[cfg(test)]
mod guest;
mod reasons;
#[cfg(test)]
mod refusals;
mod refused;
#[cfg(test)]
mod serving;
#[cfg(test)]
mod walked;
mod walks;

pub use reasons::{
    adds_instead, finds_again, finds_packed_again, goes_on, moves_back, moves_packed_back,
    refuses_its_size, sets_again,
};
pub use refused::{
    gives_back, gives_back_next, gives_back_packed, stops_for_the_driver, takes_later,
    takes_nothing,
};
pub use walks::{follows_safely, forgets_what_it_gave_back, takes_what_fits, uses_what_it_adopted};
