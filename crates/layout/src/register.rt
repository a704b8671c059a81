// The registers of a device, and the byte offset of each.
ghost use Rattle.std.specs.Prelude.{◌≡◌, ◌<◌, ℕ, MatchOption, ◌≢◌};
ghost use Rattle.layout.specs.Offsets.{offset_of, list_at, register_at, Exists};
ghost use Rattle.layout.specs.declared.register.Register.TheVariants.{Lr};

#[derive(Clone, Copy)]
pub enum Register {
    // hypervisor control, GICH_HCR
    Hcr,
    // type, GICH_VTR
    Vtr,
    // machine control, GICH_VMCR
    Vmcr,
    // which of the registers 0 to 31 are empty, GICH_ELRSR0
    Elrsr0,
    // which of the registers 32 to 63 are empty, GICH_ELRSR1
    Elrsr1,
    // active priorities, GICH_APR
    Apr,
    // a list register, GICH_LRk
    Lr(u8),
}

const HCR: u32 = 0x000;

const VTR: u32 = 0x004;

const VMCR: u32 = 0x008;

const ELRSR0: u32 = 0x030;

const ELRSR1: u32 = 0x034;

const APR: u32 = 0x0F0;
// the offset of the first list register, and how far apart they stand
const LR: u32 = 0x100;

const STEP: u32 = 4;

impl Register {
    // The register at this offset, if a device with this many list registers has one there.
    pub fn at(count: u8, offset: u32) -> Option<Register>
        ensures value { result ≡ register_at count offset }
        ensures within { Exists count result }
    {
        match offset {
            HCR => Some(Register::Hcr),
            VTR => Some(Register::Vtr),
            VMCR => Some(Register::Vmcr),
            ELRSR0 => Some(Register::Elrsr0),
            ELRSR1 => Some(Register::Elrsr1),
            APR => Some(Register::Apr),
            _ => list_register_at(count, offset),
        }
    }
}

fn list_register_at(count: u8, offset: u32) -> Option<Register>
    ensures value { result ≡ list_at count offset }
    ensures within { Exists count result }
{
    let k = list_index(offset)?;
    (k < count).then_some(Register::Lr(k))
}

// Which of the list registers 0 to 255 has this offset.
fn list_index(offset: u32) -> Option<u8>
    ensures { MatchOption result ((k : ℕ) → k < 256 → offset ≢ offset_of (Lr k)) (λ k. offset ≡ offset_of (Lr k)) }
{
    let past = offset.checked_sub(LR)?;
    if past % STEP != 0 {
        return None;
    }
    u8::try_from(past / STEP).ok()
}
