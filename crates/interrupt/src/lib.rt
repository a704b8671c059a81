// What names an interrupt, how urgent it is, and the CPU interface that says what may preempt what.
#![tactic(auto)]

pub mod cpu_interface;
pub mod id;
pub mod kind;
pub mod preemption;
pub mod priority;
pub mod priority_set;
mod word;
