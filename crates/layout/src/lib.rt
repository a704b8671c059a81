// The words of a list-register device: their layouts, and where each stands.
#![tactic(auto)]

mod bits;
pub mod hypervisor_control;
pub mod list_word;
pub mod machine_control;
pub mod register;
