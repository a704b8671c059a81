// Looking for an interrupt's register.
ghost use Rattle.std.specs.Prelude.{◌≡◌, position};
ghost use Rattle.list_register.specs.Entries.{Entry as Meant, holds};
ghost use Rattle.list_register.specs.declared.entry.Entry.{Entry as TypedEntry};
ghost use Rattle.list_register.specs.Shown.{entry_of};
ghost use Rattle.std.proofs.Common.{ap};

use list_register::entry::Entry;

// Whatever a register is kept as, it holds an entry.
pub trait ListRegister: Copy {
    ghost held: { Self → Meant };

    fn entry(self) -> Entry
        ensures { entry_of result ≡ held self };
}

// One that can be made of an entry, and then holds it.
pub trait MadeOfEntry: ListRegister + From<Entry> {
    ghost made: { (e : TypedEntry) (r : Self) → Self.from_gives e r → Self.held r ≡ entry_of e };
}

impl ListRegister for Entry {
    ghost held = { entry_of };

    fn entry(self) -> Entry {
        self
    }
}

impl MadeOfEntry for Entry {
    ghost made = { λ e r same. ap entry_of same };
}

// The first valid register with this number.
pub fn holder<R: ListRegister>(registers: &[R], number: u32) -> Option<usize>
    ensures { result ≡ position (λ r. holds number (R.ListRegister.held r)) registers.now }
{
    registers
        .iter()
        .position(|register| holds_number(*register, number))
}

// Whether its entry is valid and has this number.
fn holds_number<R: ListRegister>(register: R, number: u32) -> bool
    ensures { result ≡ holds number (R.ListRegister.held register) }
{
    let entry = register.entry();
    entry.state.is_valid() && u32::from(entry.id.number()) == number
}
