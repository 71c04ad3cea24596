//! Each law at the codes of both channels, so that its bounds are seen to be met.

use super::lockstep::{heard_as_served, sent_whole};
use super::messages::cut_in_order;
use super::replies::{read_as_written, taken_as_served};
use super::reverse::answered_as_served;
use super::rows::{
    no_silent_stop, refusals_are_heard, rows_keep_mark, silent_is_last, stays_in_step,
    stays_negotiated, whoever_waits,
};
use vhost_message::{BackendReq, HeardReq};

/// The laws of both channels, with numbers for descriptors, channels and displays.
pub fn laws_of_both_channels() {
    cut_in_order::<HeardReq, u32>();
    cut_in_order::<BackendReq, u32>();
    read_as_written::<HeardReq, u32>();
    read_as_written::<BackendReq, u32>();
    taken_as_served::<u32>();
    answered_as_served::<u32>();
    heard_as_served::<u32, u32, u32>();
    sent_whole::<u32>();
    rows_keep_mark::<u32, u32, u32>();
    silent_is_last::<u32>();
    stays_in_step::<u32, u32, u32>();
    stays_negotiated::<u32>();
    whoever_waits::<u32, u32, u32>();
    no_silent_stop::<u32, u32, u32>();
    refusals_are_heard::<u32>();
}
