// A set of priorities, as a word in which bit p is set where p is in the set. Sets of other widths share its laws and not its
// code, since shifts of integers are no trait.
ghost use Rattle.std.specs.Prelude.{◌^◌, ◌<◌};

mod members;

#[derive(Clone, Copy)]
pub struct PrioritySet {
    word: u32,
    ghost narrow: { word < 2 ^ 32 },
}
