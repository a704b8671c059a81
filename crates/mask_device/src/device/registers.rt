// Its registers and settings. The register that acknowledge picks comes from the pending sets.
ghost use Rattle.std.specs.Prelude.{◌≡◌, ◌<◌};
ghost use Rattle.list_register.specs.Calls.{making};
ghost use Rattle.list_register.specs.Meaning.{with_entry};
ghost use Rattle.list_register.specs.Shown.{device_made, entry_of};
ghost use Rattle.register_file.specs.Picking.{Chosen};
ghost use Rattle.register_file.specs.Registers.{Alone};
ghost use Rattle.mask_device.specs.Meaning.{Above, mask_device};
ghost use Rattle.interrupt.proofs.Ids.{id_below};
ghost use Rattle.interrupt.proofs.Words.{members_past};
ghost use Rattle.register_file.proofs.Entries.{ends, in_range};

use super::MaskDevice;
use crate::pending::PendingSets;
use crate::register_set::Place;
use list_register::entry::Entry;
use refusal::Refusal;
use register_file::file::RegisterFile;
use register_file::registers::Registers;
use register_file::settings::Settings;

impl MaskDevice {
    // A new device with this many registers.
    pub fn new(count: u32) -> Result<MaskDevice, Refusal>
        ensures { device_made mask_device result ≡ making count }
    {
        Ok(MaskDevice {
            registers: Registers::new(count)?,
            settings: Settings::new(),
            pending: PendingSets::new(),
        })
    }

    // Register k leaves the set that it is in, if any, and enters that of its new entry, if any.
    fn replace(&mut self, k: usize, entry: Entry)
        requires within { k < self.old.registers.count }
        requires alone { Alone k (entry_of entry) (mask_device self.old).at }
        ensures { mask_device self.new ≡ with_entry k (entry_of entry) (mask_device self.old) }
    {
        let place = Place::new(k);
        let old = self.entry_at(k);
        self.pending.leave(place, old);
        self.pending.enter(place, entry);
        self.registers.put(k, entry);
    }

    // Of the registers that are pending at the lowest priority number, if that is admitted, the highest.
    fn first_pending(&self) -> Option<usize>
        ensures { Chosen Above (mask_device self.now) result }
    {
        let priority = self.settings.cpu.first_admitted(self.pending.levels())?;
        self.pending.highest(priority)
    }
}

impl RegisterFile for MaskDevice {
    ghost meaning = { mask_device };

    // among equals it picks the highest register
    ghost before = { Above };

    ghost formed = { λ d.
        record {
          some = d.registers.some;
          most = d.registers.most;
          mask = d.settings.cpu.mask.known;
          active = members_past d.settings.cpu.active;
          stray = d.settings.stray.few;
          ranges = in_range d.registers (λ e. record { priority = e.priority.known; number = id_below e.id });
          ends = ends d.registers;
          apart = d.registers.apart;
        } };

    fn size(&self) -> u8 {
        self.registers.count()
    }

    fn settings(&self) -> Settings {
        self.settings
    }

    fn set_settings(&mut self, settings: Settings) {
        self.settings = settings;
    }

    fn entry_at(&self, k: usize) -> Entry {
        self.registers.entry(k)
    }

    fn put(&mut self, k: usize, entry: Entry) {
        self.replace(k, entry);
    }

    fn find(&self, number: u32) -> Option<usize> {
        self.registers.find(number)
    }

    fn first_ready(&self) -> Option<usize> {
        self.first_pending()
    }
}
