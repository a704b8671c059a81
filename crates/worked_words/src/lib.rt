// Four worked words, as a device of four registers shows them.
#![tactic(auto)]

ghost use Rattle.std.specs.Prelude.{◌≡◌, Ok};
ghost use Rattle.list_register.specs.Shown.{device_made};
ghost use Rattle.register_device.specs.Meaning.{register_device};
ghost use Rattle.worked_words.specs.Worked.{worked, worked_device};

use device::interface::Device;
use list_register::entry::RawEntry;
use refusal::Refusal;
use register_device::device::RegisterDevice;

#[derive(Clone, Copy)]
pub struct WorkedWords {
    // interrupt 37 pending at priority 10
    pub pending: u32,
    // interrupt 1019 active at priority 31
    pub active: u32,
    // the type word of four registers
    pub kind: u32,
    // machine control: open, mask 30, joined
    pub machine: u32,
}

// Writes two entries and the settings to a new device, and reads the words.
pub fn worked_words() -> Result<WorkedWords, Refusal>
    ensures { result ≡ Ok worked }
{
    let device = worked_device()?;
    read_words(&device)
}

fn read_words(device: &RegisterDevice) -> Result<WorkedWords, Refusal>
    requires { register_device device.now ≡ worked_device }
    ensures { result ≡ Ok worked }
{
    Ok(WorkedWords {
        pending: device.read_word(0x100)?,
        active: device.read_word(0x104)?,
        kind: device.read_word(0x004)?,
        machine: device.read_word(0x008)?,
    })
}

fn worked_device() -> Result<RegisterDevice, Refusal>
    ensures { device_made register_device result ≡ Ok worked_device }
{
    let pending = RawEntry {
        state: 1,
        priority: 10,
        number: 37,
    };
    let active = RawEntry {
        state: 2,
        priority: 31,
        number: 1019,
    };
    let mut device = RegisterDevice::new(4)?;
    device.write(0, pending)?;
    device.write(1, active)?;
    device.set_open(true);
    device.set_mask(30)?;
    Ok(device)
}
