// How often calls of a device read its register file, which may lie behind a slow bus. No contract speaks of it.
use device::interface::Device;
use interrupt::cpu_interface::EoiMode;
use interrupt::priority_set::PrioritySet;
use list_register::entry::{Entry, RawEntry};
use register_device::device::RegisterDevice;
use register_file::file::RegisterFile;
use register_file::settings::Settings;
use std::cell::Cell;
use std::test::Fail;

// A register file that counts what is read of it.
#[derive(Drop)]
struct Counted<F: RegisterFile + Drop> {
    file: F,
    settings: Cell<u32>,
    entries: Cell<u32>,
}

impl<F: RegisterFile + Drop> Counted<F> {
    // Whether at most so many settings and entries were read since this was asked last.
    fn within(&self, settings: u32, entries: u32) -> bool {
        let few = self.settings.get() <= settings && self.entries.get() <= entries;
        self.settings.set(0);
        self.entries.set(0);
        few
    }
}

fn count(cell: &Cell<u32>) {
    cell.set(cell.get().saturating_add(1));
}

impl<F: RegisterFile + Drop> RegisterFile for Counted<F> {
    ghost meaning = { λ c. F.RegisterFile.meaning c.file };

    ghost before = { F.RegisterFile.before };

    ghost formed = { λ c. F.RegisterFile.formed c.file };

    fn size(&self) -> u8 {
        self.file.size()
    }

    fn settings(&self) -> Settings {
        count(&self.settings);
        self.file.settings()
    }

    fn set_settings(&mut self, settings: Settings) {
        self.file.set_settings(settings);
    }

    fn entry_at(&self, k: usize) -> Entry {
        count(&self.entries);
        self.file.entry_at(k)
    }

    fn put(&mut self, k: usize, entry: Entry) {
        self.file.put(k, entry);
    }

    fn find(&self, number: u32) -> Option<usize> {
        self.file.find(number)
    }

    fn first_ready(&self) -> Option<usize> {
        self.file.first_ready()
    }
}

fn four_registers() -> Result<Counted<RegisterDevice>, Fail> {
    let file = RegisterDevice::new(4).map_err(|_| Fail::new("no such device"))?;
    Ok(Counted {
        file,
        settings: Cell::new(0),
        entries: Cell::new(0),
    })
}

fn entry(state: u32) -> RawEntry {
    RawEntry {
        state,
        priority: 10,
        number: 40,
    }
}

#[test]
fn settings_are_read_once(rt: HostRuntime) -> Result<(), Fail> {
    let mut device = four_registers()?;
    device.set_live(true);
    assert!(rt; device.within(1, 0));
    device.set_open(true);
    assert!(rt; device.within(1, 0));
    let _ = device.set_mask(31);
    assert!(rt; device.within(1, 0));
    device.set_mode(EoiMode::Split);
    assert!(rt; device.within(1, 0));
    device.set_active(PrioritySet::empty());
    assert!(rt; device.within(1, 0));
    device.clear_stray();
    assert!(rt; device.within(1, 0));
    Ok(())
}

#[test]
fn takes_and_ends(rt: HostRuntime) -> Result<(), Fail> {
    let mut device = four_registers()?;
    device.set_live(true);
    device.set_open(true);
    let _ = device.set_mask(31);
    let _ = device.write(1, entry(1));
    assert!(rt; device.within(3, 0) && device.line() && device.within(1, 0));
    assert!(rt; device.acknowledge().is_some() && device.within(2, 2));
    assert!(rt; device.acknowledge().is_none() && device.within(1, 0));
    device.end(40);
    assert!(rt; device.within(1, 2));
    device.set_active(PrioritySet::from(8));
    device.end(40);
    assert!(rt; device.stray().number() == 1 && device.within(4, 0));
    Ok(())
}

#[test]
fn deactivates(rt: HostRuntime) -> Result<(), Fail> {
    let mut device = four_registers()?;
    device.set_live(true);
    device.set_mode(EoiMode::Split);
    let _ = device.write(1, entry(2));
    assert!(rt; device.within(2, 0));
    device.deactivate(40);
    assert!(rt; device.within(1, 2));
    device.deactivate(40);
    assert!(rt; device.within(2, 0));
    Ok(())
}
