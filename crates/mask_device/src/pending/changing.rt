// Registers that become pending, or no longer are, and which of them comes first.
ghost use Rattle.std.specs.Prelude.{◌≡◌, ℕ, ◌<◌, true, false, if◌then◌else◌, nat_eq};
ghost use Rattle.interrupt.specs.Meaning.{members};
ghost use Rattle.interrupt.specs.Sets.{some};
ghost use Rattle.list_register.specs.Shown.{entry_of};
ghost use Rattle.register_file.specs.Registers.{pending_entry};
ghost use Rattle.mask_device.specs.Highest.{Highest};
ghost use Rattle.mask_device.specs.Pending.{pending_in, Replaced};

use super::{LEVELS, PendingSets};
use crate::register_set::{Place, RegisterSet};
use interrupt::priority::Priority;
use interrupt::priority_set::PrioritySet;
use list_register::entry::Entry;

impl PendingSets {
    // No register is pending.
    pub(crate) fn new() -> PendingSets
        ensures { (p k : ℕ) → pending_in result p k ≡ false }
    {
        PendingSets {
            sets: [RegisterSet::empty(); LEVELS],
            levels: PrioritySet::empty(),
        }
    }

    // The priorities at which a register is pending.
    pub(crate) fn levels(&self) -> PrioritySet
        ensures { (p : ℕ) → p < 32 → members result p ≡ some 64 (pending_in self.now p) }
    {
        self.levels
    }

    // The highest register that is pending at this priority.
    pub(crate) fn highest(&self, priority: Priority) -> Option<usize>
        ensures { Highest (pending_in self.now priority.level) result }
    {
        self.sets[usize::from(priority.level())].highest()
    }

    // A register is pending at this priority.
    fn insert(&mut self, priority: Priority, register: Place)
        ensures { Replaced priority.level register.index true (pending_in self.old) (pending_in self.new) }
    {
        let p = usize::from(priority.level());
        self.sets[p] = self.sets[p].with(register);
        self.levels.insert(priority);
    }

    // A register is no longer pending at this priority.
    fn remove(&mut self, priority: Priority, register: Place)
        ensures { Replaced priority.level register.index false (pending_in self.old) (pending_in self.new) }
    {
        let p = usize::from(priority.level());
        let left = self.sets[p].without(register);
        self.sets[p] = left;
        if left.is_empty() {
            self.levels.remove(priority);
        }
    }

    // A register that held this entry is pending at no priority.
    pub(crate) fn leave(&mut self, register: Place, old: Entry)
        requires { (p : ℕ) → pending_in self.old p register.index ≡ pending_entry (entry_of old) p }
        ensures { (p k : ℕ) → pending_in self.new p k ≡ (if nat_eq k register.index then false else pending_in self.old p k) }
    {
        if old.state.is_pending() {
            self.remove(old.priority, register);
        }
    }

    // A register that was pending at no priority holds this entry.
    pub(crate) fn enter(&mut self, register: Place, new: Entry)
        requires { (p : ℕ) → pending_in self.old p register.index ≡ false }
        ensures { (p k : ℕ) → pending_in self.new p k ≡ (if nat_eq k register.index then pending_entry (entry_of new) p else pending_in self.old p k) }
    {
        if new.state.is_pending() {
            self.insert(new.priority, register);
        }
    }
}
