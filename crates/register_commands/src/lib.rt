// Commands that drive a register device by hand: reading a line, carrying it out, and answering it.
#![tactic(auto)]

pub mod command;
pub mod respond;
