// A list register: the state, the entry it holds, and the stray count. What a device of them means is in specs/.
#![tactic(auto)]

pub mod entry;
pub mod state;
pub mod stray;
