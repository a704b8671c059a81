// Its fields: bits 29:28 the state, 27:23 the priority, 9:0 the number, the others zero.
ghost use Rattle.std.specs.Prelude.{◌≡◌, true, false, MatchResult};
ghost use Rattle.refusal.specs.declared.Refusal.TheVariants.{BadLayout};
ghost use Rattle.list_register.specs.Shown.{entry_of};
ghost use Rattle.layout.specs.Layouts.{entry_word, fields_in, entry_in, entry_layout, PacksEntry};

use super::ListWord;
use crate::bits::bits;
use list_register::entry::{Entry, RawEntry};
use refusal::Refusal;
use register_file::search::{ListRegister, MadeOfEntry};

fn packed(entry: Entry) -> u32
    ensures { result ≡ entry_word (entry_of entry) }
{
    u32::from(entry.state) << 28
        | (u32::from(entry.priority.level()) << 23 | u32::from(entry.id.number()))
}

fn fields_in(word: u32) -> RawEntry
    ensures { result ≡ fields_in word }
{
    RawEntry {
        state: bits(word, 29, 28),
        priority: bits(word, 27, 23),
        number: bits(word, 9, 0),
    }
}

// The word of an entry. Its fields are the entry's again.
impl From<Entry> for ListWord {
    ghost from_gives = { λ entry w. PacksEntry (entry_of entry) w.word };

    fn from(entry: Entry) -> ListWord {
        ListWord {
            word: packed(entry),
        }
    }
}

// The word, if it is in its layout.
impl TryFrom<u32> for ListWord {
    type Error = Refusal;

    ghost try_from_gives = { λ word r. MatchResult r (λ w. (entry_layout word ≡ true) × (w.word ≡ word)) (λ e. (entry_layout word ≡ false) × (e ≡ BadLayout)) };

    fn try_from(word: u32) -> Result<ListWord, Refusal> {
        let entry = Entry::try_from(fields_in(word))?;
        if packed(entry) != word {
            return Err(Refusal::BadLayout);
        }
        Ok(ListWord { word })
    }
}

// The word is that of its entry.
impl From<ListWord> for u32 {
    ghost from_gives = { λ w word. word ≡ entry_word (entry_in w.word) };

    fn from(list: ListWord) -> u32 {
        list.word
    }
}

impl ListRegister for ListWord {
    ghost held = { λ w. entry_in w.word };

    fn entry(self) -> Entry {
        Entry::try_from(fields_in(self.word)).unwrap()
    }
}

impl MadeOfEntry for ListWord {
    ghost made = { λ e w packs. packs.back };
}
