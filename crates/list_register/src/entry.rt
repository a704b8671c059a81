// What a list register holds.
ghost use Rattle.std.specs.Prelude.{◌≡◌, true, false, MatchResult};
ghost use Rattle.refusal.specs.declared.Refusal.TheVariants.{BadLayout};
ghost use Rattle.list_register.specs.Entries.{nothing, out_of_range, asked, with_state};
ghost use Rattle.list_register.specs.Shown.{entry_of};

use crate::state::State;
use interrupt::id::InterruptId;
use interrupt::priority::Priority;
use refusal::Refusal;

#[derive(Clone, Copy, PartialEq, Eq)]
pub struct Entry {
    pub state: State,
    pub priority: Priority,
    pub id: InterruptId,
}

// An entry as it is asked for: numbers that may be out of range.
#[derive(Clone, Copy, PartialEq, Eq)]
pub struct RawEntry {
    pub state: u32,
    pub priority: u32,
    pub number: u32,
}

impl Entry {
    // What a register of a new device holds.
    pub fn nothing() -> Entry
        ensures { entry_of result ≡ nothing }
    {
        Entry {
            state: State::Empty,
            priority: Priority::HIGHEST,
            id: InterruptId::FIRST,
        }
    }

    // The entry in another state.
    pub fn with_state(self, state: State) -> Entry
        ensures { entry_of result ≡ with_state state (entry_of self) }
    {
        Entry { state, ..self }
    }
}

// The entry that is asked for, if each of its numbers is in range.
impl TryFrom<RawEntry> for Entry {
    type Error = Refusal;

    ghost try_from_gives = { λ raw r. MatchResult r (λ e. (out_of_range raw ≡ false) × (entry_of e ≡ asked raw)) (λ e. (out_of_range raw ≡ true) × (e ≡ BadLayout)) };

    fn try_from(raw: RawEntry) -> Result<Entry, Refusal> {
        Ok(Entry {
            state: State::try_from(raw.state)?,
            priority: Priority::new(raw.priority).ok_or(Refusal::BadLayout)?,
            id: InterruptId::new(raw.number).ok_or(Refusal::BadLayout)?,
        })
    }
}
