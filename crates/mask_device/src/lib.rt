// A list-register device that finds what is pending by sets of registers, one for each priority.
#![tactic(auto)]

pub mod device;
mod pending;
mod register_set;
