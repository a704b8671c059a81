// The register device: a word for each register.
use interrupt::priority_set::PrioritySet;
use layout::hypervisor_control::HypervisorControl;
use layout::list_word::ListWord;
use layout::machine_control::MachineControl;
use register_file::registers::Registers;

pub mod registers;
pub mod words;

#[derive(Drop)]
pub struct RegisterDevice {
    // GICH_HCR
    control: HypervisorControl,
    // GICH_VMCR
    machine: MachineControl,
    // GICH_APR
    active: PrioritySet,
    // GICH_LR0 to GICH_LR63
    list: Registers<ListWord>,
}
