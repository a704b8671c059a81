// Room for 64 list registers, in whatever form they are kept. The first few are there.
ghost use Rattle.std.specs.Prelude.{◌≡◌, ◌<◌, ◌≤◌, length, take};
ghost use Rattle.list_register.specs.Meaning.{Apart};
ghost use Rattle.list_register.specs.Shown.{entry_of};
ghost use Rattle.register_file.specs.Registers.{entries_of};

use crate::search::{ListRegister, MadeOfEntry, holder};
use list_register::entry::Entry;
use refusal::Refusal;

// how many registers there is room for; an array, since memory is fixed
const ROOM: usize = 64;

#[derive(Drop)]
pub struct Registers<R: MadeOfEntry> {
    count: u8,
    room: [R; ROOM],
    // what its type says, for the functions that only write to it
    ghost sized: { length room ≡ 64 },
    ghost some: { 1 ≤ count },
    ghost most: { count ≤ 64 },
    ghost apart: { Apart (entries_of R.ListRegister.held (take count room)) },
}

impl<R: MadeOfEntry> Registers<R> {
    ghost use Rattle.std.specs.Prelude.{MatchResult, false};
    ghost use Rattle.refusal.specs.declared.Refusal.TheVariants.{UnknownRegister};
    ghost use Rattle.interrupt.specs.Sets.{put};
    ghost use Rattle.list_register.specs.Entries.{nothing};
    ghost use Rattle.list_register.specs.Calls.{fits};
    ghost use Rattle.register_file.specs.Registers.{Alone, Finds};
    ghost use Rattle.register_file.specs.There.{entries_in};

    // So many registers, which hold nothing.
    pub fn new(count: u32) -> Result<Registers<R>, Refusal>
        ensures { MatchResult result (λ r. (r.count ≡ count) × (entries_in r ≡ (λ _. nothing))) (λ e. (fits count ≡ false) × (e ≡ UnknownRegister)) }
    {
        if count < 1 || count as usize > ROOM {
            return Err(Refusal::UnknownRegister);
        }
        Ok(Registers {
            count: count as u8,
            room: [holding(Entry::nothing()); ROOM],
        })
    }

    // How many registers there are.
    pub fn count(&self) -> u8
        ensures { result ≡ self.now.count }
    {
        self.count
    }

    // The registers that there are.
    pub fn as_slice(&self) -> &[R]
        ensures value { result.now ≡ take self.now.count self.now.room }
        ensures len { length result.now ≡ self.now.count }
    {
        let room = &self.room[..];
        &room[..usize::from(self.count)]
    }

    // The entry of a register.
    pub fn entry(&self, k: usize) -> Entry
        requires { k < self.now.count }
        ensures { entry_of result ≡ entries_in self.now k }
    {
        self.room[k].entry()
    }

    // Replaces the entry of a register by one whose number no other has.
    pub fn put(&mut self, k: usize, entry: Entry)
        requires within { k < self.old.count }
        requires alone { Alone k (entry_of entry) (entries_in self.old) }
        ensures count { self.new.count ≡ self.old.count }
        ensures entries { entries_in self.new ≡ put k (entry_of entry) (entries_in self.old) }
    {
        self.room[k] = holding(entry);
    }

    // The valid register with this number.
    #[tactic(auto, using(crate::proofs::Holders::finds_among))]
    pub fn find(&self, number: u32) -> Option<usize>
        ensures { Finds self.now.count (entries_in self.now) number result }
    {
        holder(self.as_slice(), number)
    }
}

// A register that holds this entry.
fn holding<R: MadeOfEntry>(entry: Entry) -> R
    ensures { R.ListRegister.held result ≡ entry_of entry }
{
    R::from(entry)
}
