// Every refusal, with the number by which it is returned.
#![tactic(auto)]

ghost use Rattle.std.specs.Prelude.{◌≡◌};
ghost use Rattle.refusal.specs.Numbers.{refusal_number};

#[derive(Clone, Copy, Debug, PartialEq, Eq)]
pub enum Refusal {
    // a guest call names no interrupt
    UnknownInterrupt = 1,
    // the guest is parked
    Parked = 2,
    // resume of a guest that runs
    Running = 3,
    // configure of an interrupt that is enabled, pending or active
    NotAtRest = 4,
    // a priority or a mask above 31
    PriorityRange = 5,
    // a call that the interrupt's kind does not take
    WrongKind = 6,
    // the word of end or deactivate names no interrupt
    UnknownWord = 7,
    // end of any but the active, undropped interrupt of the running priority
    NotRunningPriority = 8,
    // deactivate while joined, or of an interrupt that is not active and dropped
    NotDropped = 9,
    // mode while an interrupt is active
    InterruptActive = 10,
    // a list register, an offset or a number of registers that a device does not have
    UnknownRegister = 11,
    // a write to a read-only word
    ReadOnly = 12,
    // a word outside its layout, or an entry with a field out of range
    BadLayout = 13,
    // two valid list registers of one number
    DuplicateNumber = 14,
    // a trace whose size or table of contents is wrong
    BadContents = 15,
    // a trace record with an unknown letter or a field out of range
    BadField = 16,
    // a trace event that is earlier than the one before it
    TimeFalls = 17,
    // a report area that is too small
    AreaTooSmall = 18,
}

// The number by which it is returned.
impl From<Refusal> for u8 {
    ghost from_gives = { λ refusal n. n ≡ refusal_number refusal };

    fn from(refusal: Refusal) -> u8 {
        refusal as u8
    }
}
