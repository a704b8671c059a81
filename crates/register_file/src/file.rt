// What a device is made of: registers and settings, however it keeps them. Whatever has these has the calls of a device.
ghost use Rattle.std.specs.Prelude.{◌≡◌, ℕ, ◌<◌};
ghost use Rattle.register_file.specs.Registers.{Finds, Alone};
ghost use Rattle.register_file.specs.Picking.{Chosen};
ghost use Rattle.list_register.specs.Meaning.{Meaning, Formed, with_entry};
ghost use Rattle.list_register.specs.Shown.{entry_of};
ghost use Rattle.register_file.specs.Settings.{Shows, with_settings};

use crate::settings::Settings;
use list_register::entry::Entry;

pub trait RegisterFile {
    // what the device means
    ghost meaning: { Self → Meaning };

    // which of two registers acknowledge prefers among equals
    ghost before: { ℕ → ℕ → Type 0 };

    // How many registers there are.
    fn size(&self) -> u8
        ensures { result ≡ (meaning self.now).count };

    fn settings(&self) -> Settings
        ensures { Shows result (meaning self.now) };

    fn set_settings(&mut self, settings: Settings)
        ensures { meaning self.new ≡ with_settings settings (meaning self.old) };

    // The entry of a register.
    fn entry_at(&self, k: usize) -> Entry
        requires { k < (meaning self.now).count }
        ensures { entry_of result ≡ (meaning self.now).at k };

    // Replaces the entry of a register by one whose number no other has.
    fn put(&mut self, k: usize, entry: Entry)
        requires within { k < (meaning self.old).count }
        requires alone { Alone k (entry_of entry) (meaning self.old).at }
        ensures { meaning self.new ≡ with_entry k (entry_of entry) (meaning self.old) };

    // The valid register with this number, if there is one.
    fn find(&self, number: u32) -> Option<usize>
        ensures { Finds (meaning self.now).count (meaning self.now).at number result };

    // The register that acknowledge picks, if any is ready.
    fn first_ready(&self) -> Option<usize>
        ensures { Chosen before (meaning self.now) result };

    ghost formed: { (f : Self) → Formed (meaning f) };
}
