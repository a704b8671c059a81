// A list-register device of 32-bit words at the standard's byte offsets.
#![tactic(auto)]

pub mod device;
mod pending;
mod status;
