// The device interface. Each call promises its answer or its refusal, and all of what the device means after it.
ghost use Rattle.std.specs.Prelude.{◌≡◌};
ghost use Rattle.std.specs.Option.{option_map};
ghost use Rattle.interrupt.specs.Cpu.{with_opened, with_mode, with_active_set};
ghost use Rattle.interrupt.specs.Meaning.{id_of, members};
ghost use Rattle.list_register.specs.Calls.{reading, Writes, Masks, line_up, Acknowledges, ended, deactivated};
ghost use Rattle.list_register.specs.Meaning.{Meaning, Formed, with_live, with_cpu, with_stray};
ghost use Rattle.list_register.specs.Shown.{entry_read};

use interrupt::cpu_interface::EoiMode;
use interrupt::id::InterruptId;
use interrupt::priority::Priority;
use interrupt::priority_set::PrioritySet;
use list_register::entry::{Entry, RawEntry};
use list_register::stray::StrayCount;
use refusal::Refusal;

pub trait Device {
    // what the device means
    ghost meaning: { Self → Meaning };

    // How many list registers there are.
    fn count(&self) -> u8
        ensures { result ≡ (meaning self.now).count };

    fn is_live(&self) -> bool
        ensures { result ≡ (meaning self.now).live };

    fn is_open(&self) -> bool
        ensures { result ≡ (meaning self.now).cpu.opened };

    fn mask(&self) -> Priority
        ensures { result.level ≡ (meaning self.now).cpu.mask };

    fn mode(&self) -> EoiMode
        ensures { result ≡ (meaning self.now).cpu.mode };

    // The active priorities.
    fn active(&self) -> PrioritySet
        ensures { members result ≡ (meaning self.now).cpu.active };

    // How often a deactivation found no register.
    fn stray(&self) -> StrayCount
        ensures { result.count ≡ (meaning self.now).stray };

    // Whether the device signals an interrupt.
    fn line(&self) -> bool
        ensures { result ≡ line_up (meaning self.now) };

    // The entry of a register.
    fn read(&self, register: u32) -> Result<Entry, Refusal>
        ensures { entry_read result ≡ reading register (meaning self.now) };

    // Replaces the entry of a register.
    fn write(&mut self, register: u32, entry: RawEntry) -> Result<(), Refusal>
        ensures { Writes register entry (meaning self.old) (meaning self.new) result };

    fn set_live(&mut self, live: bool)
        ensures { meaning self.new ≡ with_live live (meaning self.old) };

    fn set_open(&mut self, open: bool)
        ensures { meaning self.new ≡ with_cpu (with_opened «open» (meaning self.old).cpu) (meaning self.old) };

    fn set_mask(&mut self, level: u32) -> Result<(), Refusal>
        ensures { Masks level (meaning self.old) (meaning self.new) result };

    fn set_mode(&mut self, mode: EoiMode)
        ensures { meaning self.new ≡ with_cpu (with_mode mode (meaning self.old).cpu) (meaning self.old) };

    fn set_active(&mut self, active: PrioritySet)
        ensures { meaning self.new ≡ with_cpu (with_active_set (members active) (meaning self.old).cpu) (meaning self.old) };

    fn clear_stray(&mut self)
        ensures { meaning self.new ≡ with_stray 0 (meaning self.old) };

    // Takes one of the most urgent interrupts that may be taken, if any.
    fn acknowledge(&mut self) -> Option<InterruptId>
        ensures { Acknowledges (meaning self.old) (option_map id_of result) (meaning self.new) };

    // Drops the lowest active priority; if joined, deactivates too.
    fn end(&mut self, word: u32)
        ensures { meaning self.new ≡ ended word (meaning self.old) };

    fn deactivate(&mut self, word: u32)
        ensures { meaning self.new ≡ deactivated word (meaning self.old) };

    ghost formed: { (d : Self) → Formed (meaning d) };
}
