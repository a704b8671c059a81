// The pending registers, looked at one by one.
ghost use Rattle.std.specs.Prelude.{◌≡◌, ℕ, ◌<◌, length, position};
ghost use Rattle.interrupt.specs.Meaning.{members};
ghost use Rattle.interrupt.specs.Sets.{some};
ghost use Rattle.register_file.specs.Registers.{entries_of, pending_entry, pending_at};
ghost use Rattle.register_device.specs.Words.{held_in};

use interrupt::priority::Priority;
use interrupt::priority_set::PrioritySet;
use layout::list_word::ListWord;
use register_file::search::ListRegister;

// The priorities at which a register is pending.
pub(crate) fn pending_levels(list: &[ListWord]) -> PrioritySet
    ensures { (p : ℕ) → p < 32 → members result p ≡ some (length list.now) (pending_at (entries_of held_in list.now) p) }
{
    let mut levels = PrioritySet::empty();
    for word in list {
        let entry = (*word).entry();
        if entry.state.is_pending() {
            levels.insert(entry.priority);
        }
    }
    levels
}

// The lowest register that is pending at this priority.
pub(crate) fn first_pending(list: &[ListWord], priority: Priority) -> Option<usize>
    ensures { result ≡ position (λ w. pending_entry (held_in w) priority.level) list.now }
{
    list.iter().position(|word| is_pending_at(*word, priority))
}

fn is_pending_at(word: ListWord, priority: Priority) -> bool
    ensures { result ≡ pending_entry (held_in word) priority.level }
{
    let entry = word.entry();
    entry.state.is_pending() && entry.priority == priority
}
