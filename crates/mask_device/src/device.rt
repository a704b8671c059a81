// The mask device: entries, and beside them the pending registers of each priority, always in step.
ghost use Rattle.register_file.specs.There.{entries_in};
ghost use Rattle.mask_device.specs.Pending.{pending_in};
ghost use Rattle.mask_device.specs.Step.{InStep};

use crate::pending::PendingSets;
use list_register::entry::Entry;
use register_file::registers::Registers;
use register_file::settings::Settings;

pub mod registers;

#[derive(Drop)]
pub struct MaskDevice {
    registers: Registers<Entry>,
    settings: Settings,
    pending: PendingSets,
    ghost step: { InStep (entries_in registers) (pending_in pending) },
}
