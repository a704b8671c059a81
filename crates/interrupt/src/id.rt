// The identity of an interrupt: a number from 0 to 1019.
ghost use Rattle.std.specs.Prelude.{◌<◌};

pub mod naming;

// how many interrupts there are
pub const COUNT: usize = 1020;

#[derive(Clone, Copy, PartialEq, Eq)]
pub struct InterruptId {
    number: u16,
    ghost named: { number < 1020 },
}
