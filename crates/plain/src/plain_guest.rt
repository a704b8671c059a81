// A guest with all its interrupts in a fixed table, and those that wait in their order.
ghost use Rattle.plain.specs.Kept.{Listed, Ranked, Counted};

use crate::table::Table;
use interrupt::cpu_interface::CpuInterface;
use waiting::order::WaitingOrder;

pub mod calls;

#[derive(Drop)]
pub struct PlainGuest {
    table: Table,
    running: bool,
    cpu: CpuInterface,
    waiting: WaitingOrder,
    // how many interrupts are active
    active: u16,
    ghost listed: { Listed table waiting },
    ghost ranked: { Ranked table waiting },
    ghost counted: { Counted table active },
}
