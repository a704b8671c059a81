// Reading and writing words by their offsets.
ghost use Rattle.std.specs.Prelude.{◌≡◌, ◌+◌, ◌<◌, Some};
ghost use Rattle.refusal.specs.Rows.{first_row, unless, say};
ghost use Rattle.interrupt.specs.Counts.{count as counted};
ghost use Rattle.interrupt.specs.Sets.{word_of};
ghost use Rattle.layout.specs.Layouts.{type_word};
ghost use Rattle.layout.specs.declared.register.Register.TheVariants.{Lr};
ghost use Rattle.register_device.specs.Access.{free, word_in, word_read, word_rows, with_word, word_written, word_said};
ghost use Rattle.register_device.specs.Meaning.{register_device};

use super::RegisterDevice;
use crate::status::empty_word;
use interrupt::priority_set::PrioritySet;
use layout::hypervisor_control::HypervisorControl;
use layout::list_word::ListWord;
use layout::machine_control::MachineControl;
use layout::register::Register;
use refusal::Refusal;
use register_file::file::RegisterFile;
use register_file::search::ListRegister;
use register_file::steps::clashes;

// how many registers have their bits in one status word
const HALF: usize = 32;
// GICH_VTR without the number of registers
const TYPE: u32 = 0x9000_0000;

impl RegisterDevice {
    // The word at an offset.
    pub fn read_word(&self, offset: u32) -> Result<u32, Refusal>
        ensures { result ≡ word_read offset (register_device self.now) }
    {
        let register = Register::at(self.list.count(), offset).ok_or(Refusal::UnknownRegister)?;
        Ok(self.word_of(register))
    }

    // Writes the word at an offset.
    pub fn write_word(&mut self, offset: u32, word: u32) -> Result<(), Refusal>
        ensures after { register_device self.new ≡ word_written offset word (register_device self.old) }
        ensures value { result ≡ word_said offset word (register_device self.old) }
    {
        let register = Register::at(self.list.count(), offset).ok_or(Refusal::UnknownRegister)?;
        match register {
            Register::Vtr | Register::Elrsr0 | Register::Elrsr1 => return Err(Refusal::ReadOnly),
            Register::Hcr => self.control = HypervisorControl::try_from(word)?,
            Register::Vmcr => self.machine = MachineControl::try_from(word)?,
            Register::Apr => self.active = PrioritySet::from(word),
            Register::Lr(k) => self.write_list(k, word)?,
        }
        Ok(())
    }

    // How many registers are empty: the ones of the status words.
    pub fn free_registers(&self) -> u32
        ensures { result ≡ counted 64 (free (register_device self.now)) }
    {
        self.status_ones()
    }

    fn status_ones(&self) -> u32
        ensures { result ≡ counted 64 (free (register_device self.now)) }
    {
        self.empty_low().count_ones() + self.empty_high().count_ones()
    }

    fn word_of(&self, register: Register) -> u32
        ensures { result ≡ word_in (register_device self.now) register }
    {
        match register {
            Register::Hcr => u32::from(self.control),
            Register::Vtr => self.type_word(),
            Register::Vmcr => u32::from(self.machine),
            Register::Elrsr0 => self.empty_low(),
            Register::Elrsr1 => self.empty_high(),
            Register::Apr => u32::from(self.active),
            Register::Lr(k) => self.list_word(k),
        }
    }

    fn type_word(&self) -> u32
        ensures { result ≡ type_word self.now.list.count }
    {
        TYPE + (u32::from(self.list.count()) - 1)
    }

    // The word of a list register. One that is not there reads as 0.
    fn list_word(&self, k: u8) -> u32
        ensures { result ≡ word_in (register_device self.now) (Lr k) }
    {
        if k < self.list.count() {
            u32::from(self.list.as_slice()[usize::from(k)])
        } else {
            0
        }
    }

    // Which of the registers 0 to 31 are empty.
    fn empty_low(&self) -> u32
        ensures { result ≡ word_of 32 (free (register_device self.now)) }
    {
        let list = self.list.as_slice();
        empty_word(&list[0..list.len().min(HALF)])
    }

    // Which of the registers 32 to 63 are empty.
    fn empty_high(&self) -> u32
        ensures { result ≡ word_of 32 (λ k. free (register_device self.now) (32 + k)) }
    {
        let list = self.list.as_slice();
        empty_word(&list[list.len().min(HALF)..])
    }

    // Writes a list register's word.
    fn write_list(&mut self, k: u8, word: u32) -> Result<(), Refusal>
        requires { k < self.old.list.count }
        ensures after { register_device self.new ≡ unless (first_row (word_rows (Some (Lr k)) word (register_device self.old))) (register_device self.old) (with_word (Lr k) word (register_device self.old)) }
        ensures value { result ≡ say (first_row (word_rows (Some (Lr k)) word (register_device self.old))) tt }
    {
        let entry = ListWord::try_from(word)?.entry();
        let place = usize::from(k);
        if clashes(self, place, entry) {
            return Err(Refusal::DuplicateNumber);
        }
        self.put(place, entry);
        Ok(())
    }
}
