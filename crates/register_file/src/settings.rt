// What of a device is no register: whether it is live, its CPU interface, and its stray count.
ghost use Rattle.list_register.specs.Meaning.{blank};
ghost use Rattle.register_file.specs.Settings.{Shows};

use interrupt::cpu_interface::CpuInterface;
use list_register::stray::StrayCount;

#[derive(Clone, Copy)]
pub struct Settings {
    pub live: bool,
    pub cpu: CpuInterface,
    pub stray: StrayCount,
}

impl Settings {
    // Those of a new device: not live, its CPU interface closed, the stray count 0.
    pub fn new() -> Settings
        ensures { Shows result (blank 0) }
    {
        Settings {
            live: false,
            cpu: CpuInterface::new(),
            stray: StrayCount::ZERO,
        }
    }
}
