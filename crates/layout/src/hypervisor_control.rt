// GICH_HCR: whether the device is live, and its stray count.
ghost use Rattle.std.specs.Prelude.{◌≡◌, true};
ghost use Rattle.layout.specs.Layouts.{control_layout};

mod fields;

#[derive(Clone, Copy)]
pub struct HypervisorControl {
    word: u32,
    ghost layout: { control_layout word ≡ true },
}
