// GICH_VMCR: the priority mask, the EOI mode, and whether the device is open.
ghost use Rattle.std.specs.Prelude.{◌≡◌, true};
ghost use Rattle.layout.specs.Layouts.{machine_layout};

mod fields;

#[derive(Clone, Copy)]
pub struct MachineControl {
    word: u32,
    ghost layout: { machine_layout word ≡ true },
}
