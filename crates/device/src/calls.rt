// The calls of a device, over any register file.
ghost use Rattle.std.specs.Option.{option_map};
ghost use Rattle.interrupt.specs.Meaning.{id_of};
ghost use Rattle.list_register.specs.Calls.{Acknowledges};
ghost use Rattle.register_file.specs.Picking.{Prefers};

use crate::interface::Device;
use interrupt::cpu_interface::{CpuInterface, EoiMode};
use interrupt::id::InterruptId;
use interrupt::priority::Priority;
use interrupt::priority_set::PrioritySet;
use list_register::entry::{Entry, RawEntry};
use list_register::stray::StrayCount;
use refusal::Refusal;
use register_file::file::RegisterFile;
use register_file::settings::Settings;
use register_file::steps::{
    clashes, deactivate_word, end_word, line_is_up, place, set_stray, take_first,
};

impl<F: RegisterFile> Device for F {
    ghost meaning = { F.RegisterFile.meaning };

    ghost formed = { F.RegisterFile.formed };

    fn count(&self) -> u8 {
        self.size()
    }

    fn is_live(&self) -> bool {
        self.settings().live
    }

    fn is_open(&self) -> bool {
        self.settings().cpu.open
    }

    fn mask(&self) -> Priority {
        self.settings().cpu.mask
    }

    fn mode(&self) -> EoiMode {
        self.settings().cpu.mode
    }

    fn active(&self) -> PrioritySet {
        self.settings().cpu.active
    }

    fn stray(&self) -> StrayCount {
        self.settings().stray
    }

    fn line(&self) -> bool {
        line_is_up(self)
    }

    fn read(&self, register: u32) -> Result<Entry, Refusal> {
        let k = place(self, register)?;
        Ok(self.entry_at(k))
    }

    #[tactic(auto, using(register_file::proofs::Holders::stands_alone))]
    fn write(&mut self, register: u32, entry: RawEntry) -> Result<(), Refusal> {
        let k = place(self, register)?;
        let entry = Entry::try_from(entry)?;
        if clashes(self, k, entry) {
            return Err(Refusal::DuplicateNumber);
        }
        self.put(k, entry);
        Ok(())
    }

    fn set_live(&mut self, live: bool) {
        let settings = self.settings();
        self.set_settings(Settings { live, ..settings });
    }

    fn set_open(&mut self, open: bool) {
        let settings = self.settings();
        let cpu = settings.cpu;
        let cpu = CpuInterface { open, ..cpu };
        self.set_settings(Settings { cpu, ..settings });
    }

    fn set_mask(&mut self, level: u32) -> Result<(), Refusal> {
        let mask = Priority::new(level).ok_or(Refusal::PriorityRange)?;
        let settings = self.settings();
        let cpu = settings.cpu;
        let cpu = CpuInterface { mask, ..cpu };
        self.set_settings(Settings { cpu, ..settings });
        Ok(())
    }

    fn set_mode(&mut self, mode: EoiMode) {
        let settings = self.settings();
        let cpu = settings.cpu;
        let cpu = CpuInterface { mode, ..cpu };
        self.set_settings(Settings { cpu, ..settings });
    }

    fn set_active(&mut self, active: PrioritySet) {
        let settings = self.settings();
        let cpu = settings.cpu;
        let cpu = CpuInterface { active, ..cpu };
        self.set_settings(Settings { cpu, ..settings });
    }

    fn clear_stray(&mut self) {
        set_stray(self, StrayCount::ZERO);
    }

    fn acknowledge(&mut self) -> Option<InterruptId>
        ensures does { Acknowledges (F.RegisterFile.meaning self.old) (option_map id_of result) (F.RegisterFile.meaning self.new) }
        ensures prefers { Prefers F.RegisterFile.before (F.RegisterFile.meaning self.old) (option_map id_of result) }
    {
        take_first(self)
    }

    fn end(&mut self, word: u32) {
        end_word(self, word);
    }

    fn deactivate(&mut self, word: u32) {
        deactivate_word(self, word);
    }
}
