//! The channels of a device.

pub(crate) mod asks;
pub(crate) mod display_asks;
pub(crate) mod joined;
pub(crate) mod serves;
