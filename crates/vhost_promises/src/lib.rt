//! Worked consequences: from public contracts alone each derives what a promise says, and so shows that callers can.
#![tactic(auto)]

mod again;
mod asks;
mod endpoints;
mod example;
mod example_back;
mod faults;
mod faults_asking;
mod faults_calling;
mod halves;
mod joined;
mod memory;
mod opening;
mod read;
mod recorder;
mod records;
mod rings;
mod runs;
mod scripts;
mod served;
mod shared;
mod standard;
mod standard_asking;
mod streams;

pub use again::{adds_again, asks_again};
pub use asks::{adds_object, asks_features, maps_memory, moves_cursor};
pub use endpoints::sends_in_one;
pub use example::{Device, claims_device, claims_twice};
pub use example_back::{OneObject, shares_object, shares_twice};
pub use faults::{meets_fault, meets_fault_back, stays_broken, stays_broken_back};
pub use faults_asking::{adds_broken, asks_broken, displays_broken, meets_fault_asking};
pub use faults_calling::meets_fault_calling;
pub use halves::{answers_by_halves, claims_by_halves, features_by_halves, serves_by_halves};
pub use joined::{
    refuses_whatever_was, runs_back_in_lockstep, runs_in_lockstep, shows_no_reply, stays_in_step,
};
pub use memory::{asks_without_memory, steps_without_memory};
pub use opening::opens_its_own;
pub use read::{reads_features, reads_features_new};
pub use recorder::{finds_own, first_answer, records_two, two_callers};
pub use records::{
    back_and_there, names_request, same_config, same_cursor, same_gpu_header, same_name,
    same_number, same_region, same_scanout, there_and_back,
};
pub use rings::{Carried, Part, carries};
pub use runs::{
    answers_whoever_waits, serves_no_broken, serves_no_broken_back, serves_whole, serves_whole_back,
};
pub use scripts::{passes_its_script, stops_by_its_script};
pub use served::{serves_three, serves_three_new};
pub use shared::{finds_sound, own_features};
pub use standard::{goes_on_unserved, goes_on_unserved_new};
pub use standard_asking::goes_on_without_config;
pub use streams::{finds_none, finds_none_back};
