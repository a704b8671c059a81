// The guest interface: the calls that a guest takes, and what each of them means.
#![tactic(auto)]

pub mod call;
pub mod interface;
pub mod perform;
