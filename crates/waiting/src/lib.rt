// The waiting order: the interrupts that wait, in the order in which they came, each with the priority at which it waits.
#![tactic(auto)]

mod links;
pub mod order;
mod place;
mod queues;
mod rings;
