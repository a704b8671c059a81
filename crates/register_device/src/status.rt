// Which registers are empty, as a word.
ghost use Rattle.std.specs.Prelude.{◌≡◌, ◌≤◌, not, length};
ghost use Rattle.interrupt.specs.Sets.{word_of};
ghost use Rattle.list_register.specs.Entries.{is_valid};
ghost use Rattle.register_file.specs.Registers.{entries_of};
ghost use Rattle.register_device.specs.Words.{held_in};

use layout::list_word::ListWord;
use register_file::search::ListRegister;

// Bit k is set where register k of these is empty.
pub(crate) fn empty_word(list: &[ListWord]) -> u32
    requires { length list.now ≤ 32 }
    ensures { result ≡ word_of (length list.now) (λ k. not (is_valid (entries_of held_in list.now k).state)) }
{
    let mut word = 0;
    for (k, register) in list.iter().enumerate() {
        if !(*register).entry().state.is_valid() {
            word |= 1 << k;
        }
    }
    word
}
