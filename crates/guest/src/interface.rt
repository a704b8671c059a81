// The guest interface. Each call promises its answer or its refusal, and all of what the guest means after it.
ghost use Rattle.std.specs.Prelude.{◌≡◌};
ghost use Rattle.guest.specs.Book.{Book};
ghost use Rattle.guest.specs.Calls.{Does};
ghost use Rattle.guest.specs.Replies.{as_done, as_changed, as_acknowledged};
ghost use Rattle.guest.specs.declared.call.Call.TheVariants.{Configure, Enable, Disable, Raise, Lower, Mask, Open, Mode, Acknowledge, End, Deactivate, Park, Resume};

use interrupt::cpu_interface::EoiMode;
use interrupt::id::InterruptId;
use interrupt::kind::Kind;
use refusal::Refusal;

pub trait Guest {
    // what the guest means
    ghost book: { Self → Book };

    // Sets an interrupt's kind and priority.
    fn configure(&mut self, number: u32, kind: Kind, priority: u32) -> Result<(), Refusal>
        ensures { Does (Configure number kind priority) (book self.old) (book self.new) (as_done result) };

    // Enables an interrupt; true if it was disabled.
    fn enable(&mut self, number: u32) -> Result<bool, Refusal>
        ensures { Does (Enable number) (book self.old) (book self.new) (as_changed result) };

    // Disables an interrupt; true if it was enabled.
    fn disable(&mut self, number: u32) -> Result<bool, Refusal>
        ensures { Does (Disable number) (book self.old) (book self.new) (as_changed result) };

    // Sets an edge source's latch or a level source's line; true if it was clear.
    fn raise(&mut self, number: u32) -> Result<bool, Refusal>
        ensures { Does (Raise number) (book self.old) (book self.new) (as_changed result) };

    // Clears a level source's line; true if it was set.
    fn lower(&mut self, number: u32) -> Result<bool, Refusal>
        ensures { Does (Lower number) (book self.old) (book self.new) (as_changed result) };

    // Sets the priority mask.
    fn mask(&mut self, level: u32) -> Result<(), Refusal>
        ensures { Does (Mask level) (book self.old) (book self.new) (as_done result) };

    // Opens the CPU interface, or closes it.
    fn open(&mut self, value: bool) -> Result<(), Refusal>
        ensures { Does (Open value) (book self.old) (book self.new) (as_done result) };

    // Sets the EOI mode.
    fn mode(&mut self, value: EoiMode) -> Result<(), Refusal>
        ensures { Does (Mode value) (book self.old) (book self.new) (as_done result) };

    // Takes the interrupt that is first in turn, if any is eligible.
    fn acknowledge(&mut self) -> Result<Option<InterruptId>, Refusal>
        ensures { Does Acknowledge (book self.old) (book self.new) (as_acknowledged result) };

    // Drops the running priority; if joined, deactivates too.
    fn end(&mut self, word: u32) -> Result<(), Refusal>
        ensures { Does (End word) (book self.old) (book self.new) (as_done result) };

    // Deactivates an interrupt whose priority was dropped.
    fn deactivate(&mut self, word: u32) -> Result<(), Refusal>
        ensures { Does (Deactivate word) (book self.old) (book self.new) (as_done result) };

    fn park(&mut self) -> Result<(), Refusal>
        ensures { Does Park (book self.old) (book self.new) (as_done result) };

    fn resume(&mut self) -> Result<(), Refusal>
        ensures { Does Resume (book self.old) (book self.new) (as_done result) };
}
