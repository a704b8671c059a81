// The device interface, and the calls of a device over any register file, proved once.
#![tactic(auto)]

pub mod calls;
pub mod interface;
