// A CPU interface: what a guest sets of it, and the priorities that are active.
ghost use Rattle.std.specs.Prelude.{◌≡◌};
ghost use Rattle.std.specs.Option.{option_map};
ghost use Rattle.interrupt.specs.Cpu.{closed, running_priority, admits, first_admitted, mode_of_bit};
ghost use Rattle.interrupt.specs.Meaning.{cpu_of, level_of, members};

use crate::preemption::may_preempt;
use crate::priority::Priority;
use crate::priority_set::PrioritySet;

// the running priority where none is active: every priority is below it
const IDLE: u32 = 32;

// Whether an end also deactivates, by the number of the mode.
#[derive(Clone, Copy, PartialEq, Eq)]
pub enum EoiMode {
    // an end drops the priority and deactivates
    Joined = 0,
    // an end drops the priority, and deactivation is a call of its own
    Split = 1,
}

// The mode of the bit that says whether the two are split.
impl From<bool> for EoiMode {
    ghost from_gives = { λ split mode. mode ≡ mode_of_bit split };

    fn from(split: bool) -> EoiMode {
        if split {
            EoiMode::Split
        } else {
            EoiMode::Joined
        }
    }
}

#[derive(Clone, Copy)]
pub struct CpuInterface {
    pub open: bool,
    pub mask: Priority,
    pub mode: EoiMode,
    pub active: PrioritySet,
}

impl CpuInterface {
    // Closed, with mask 0, joined, and no active priority.
    pub fn new() -> CpuInterface
        ensures { cpu_of result ≡ closed }
    {
        CpuInterface {
            open: false,
            mask: Priority::HIGHEST,
            mode: EoiMode::Joined,
            active: PrioritySet::empty(),
        }
    }

    // The lowest active priority, or 32 if there is none: a number, as it is defined, and not an Option, so that may_preempt compares it.
    pub fn running_priority(&self) -> u32
        ensures { result ≡ running_priority (cpu_of self.now) }
    {
        let lowest = self.active.lowest();
        lowest.map_or(IDLE, |priority| u32::from(priority.level()))
    }

    // Whether a waiting interrupt of this priority is eligible.
    pub fn admits(&self, priority: Priority) -> bool
        ensures { result ≡ admits (cpu_of self.now) priority.level }
    {
        self.open
            && may_preempt(
                u32::from(priority.level()),
                u32::from(self.mask.level()),
                self.running_priority(),
            )
    }

    // The lowest of these priorities, if it is admitted. Where it is not, none of them is.
    pub fn first_admitted(&self, priorities: PrioritySet) -> Option<Priority>
        ensures { option_map level_of result ≡ first_admitted (cpu_of self.now) (members priorities) }
    {
        let lowest = priorities.lowest()?;
        self.admits(lowest).then_some(lowest)
    }
}
