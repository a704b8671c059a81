// Its registers and settings.
ghost use Rattle.std.specs.Prelude.{◌≡◌};
ghost use Rattle.list_register.specs.Calls.{making};
ghost use Rattle.list_register.specs.Shown.{device_made};
ghost use Rattle.register_file.specs.Picking.{Chosen};
ghost use Rattle.register_device.specs.Meaning.{Below, register_device};
ghost use Rattle.interrupt.proofs.Words.{members_past};
ghost use Rattle.register_file.proofs.Entries.{ends, in_range};
ghost use Rattle.layout.proofs.Ranges.{entry_in_range, mask_in_range, stray_in_range};

use super::RegisterDevice;
use crate::pending::{first_pending, pending_levels};
use interrupt::cpu_interface::CpuInterface;
use layout::hypervisor_control::HypervisorControl;
use layout::machine_control::MachineControl;
use list_register::entry::Entry;
use refusal::Refusal;
use register_file::file::RegisterFile;
use register_file::registers::Registers;
use register_file::settings::Settings;

impl RegisterDevice {
    // A new device with this many list registers.
    pub fn new(count: u32) -> Result<RegisterDevice, Refusal>
        ensures { device_made register_device result ≡ making count }
    {
        let list = Registers::new(count)?;
        let settings = Settings::new();
        let cpu = settings.cpu;
        Ok(RegisterDevice {
            control: HypervisorControl::new(settings.live, settings.stray),
            machine: MachineControl::new(cpu.mask, cpu.mode, cpu.open),
            active: cpu.active,
            list,
        })
    }

    // Of the registers that are pending at the lowest priority number, if that is admitted, the lowest.
    fn first_pending(&self) -> Option<usize>
        ensures { Chosen Below (register_device self.now) result }
    {
        let cpu = self.settings().cpu;
        let priority = cpu.first_admitted(pending_levels(self.list.as_slice()))?;
        first_pending(self.list.as_slice(), priority)
    }
}

impl RegisterFile for RegisterDevice {
    ghost meaning = { register_device };

    // among equals it picks the lowest register
    ghost before = { Below };

    ghost formed = { λ d.
        record {
          some = d.list.some;
          most = d.list.most;
          mask = mask_in_range d.machine.word;
          active = members_past d.active;
          stray = stray_in_range d.control.word;
          ranges = in_range d.list entry_in_range;
          ends = ends d.list;
          apart = d.list.apart;
        } };

    fn size(&self) -> u8 {
        self.list.count()
    }

    fn settings(&self) -> Settings {
        Settings {
            live: self.control.is_live(),
            cpu: CpuInterface {
                open: self.machine.is_open(),
                mask: self.machine.mask(),
                mode: self.machine.mode(),
                active: self.active,
            },
            stray: self.control.stray(),
        }
    }

    fn set_settings(&mut self, settings: Settings) {
        let cpu = settings.cpu;
        self.control = HypervisorControl::new(settings.live, settings.stray);
        self.machine = MachineControl::new(cpu.mask, cpu.mode, cpu.open);
        self.active = cpu.active;
    }

    fn entry_at(&self, k: usize) -> Entry {
        self.list.entry(k)
    }

    fn put(&mut self, k: usize, entry: Entry) {
        self.list.put(k, entry);
    }

    fn find(&self, number: u32) -> Option<usize> {
        self.list.find(number)
    }

    fn first_ready(&self) -> Option<usize> {
        self.first_pending()
    }
}
