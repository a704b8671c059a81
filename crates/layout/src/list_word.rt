// GICH_LR: an entry as a word.
ghost use Rattle.std.specs.Prelude.{◌≡◌, true};
ghost use Rattle.layout.specs.Layouts.{entry_layout};

pub mod fields;

#[derive(Clone, Copy)]
pub struct ListWord {
    word: u32,
    ghost layout: { entry_layout word ≡ true },
}
