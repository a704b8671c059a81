// The calls. None of them goes through the interrupts, so none takes longer as more of them wait.
ghost use Rattle.std.specs.Prelude.{◌≡◌, ℕ, ◌+◌, ◌≤◌, true, not, ◌&&◌, if◌then◌else◌, nat_eq, Ok, Err};
ghost use Rattle.refusal.specs.declared.Refusal.TheVariants.{Parked};
ghost use Rattle.std.specs.Option.{option_map};
ghost use Rattle.interrupt.specs.Lists.{has};
ghost use Rattle.interrupt.specs.Meaning.{id_of};
ghost use Rattle.waiting.specs.Order.{waiting_list, waits_at};
ghost use Rattle.guest.specs.Book.{start, settle, touch, first_in_turn};
ghost use Rattle.guest.specs.Calls.{any_active};
ghost use Rattle.guest.specs.Interrupts.{Interrupt, waits};
ghost use Rattle.interrupt.specs.Counts.{one_if};
ghost use Rattle.plain.specs.Meaning.{book_of};
ghost use Rattle.plain.specs.Sources.{means};
ghost use Rattle.plain.specs.Steps.{MayTake, Takes, KeepsPriority};

use super::PlainGuest;
use crate::source::Source;
use crate::table::Table;
use guest::interface::Guest;
use interrupt::cpu_interface::{CpuInterface, EoiMode};
use interrupt::id::InterruptId;
use interrupt::kind::Kind;
use interrupt::priority::Priority;
use refusal::Refusal;
use waiting::order::WaitingOrder;

// the first number that may be configured as a level source
const FIRST_LEVEL: u32 = 16;

// An interrupt became `source`: it joins the waiting order or leaves it.
fn settle_order(waiting: &mut WaitingOrder, id: InterruptId, source: Source)
    ensures list { waiting_list waiting.new ≡ settle (id_of id) (waits (means source)) (waiting_list waiting.old) }
    ensures ranks { (m : ℕ) → has m (waiting_list waiting.new) ≡ true → waits_at waiting.new m ≡ (if nat_eq m (id_of id) && not (has (id_of id) (waiting_list waiting.old)) then (means source).priority else waits_at waiting.old m) }
{
    if source.waits() {
        waiting.join(id, source.priority);
    } else {
        waiting.leave(id);
    }
}

// How many interrupts are active once one of them was and is active or not.
fn recount(active: u16, was: bool, is: bool) -> u16
    requires counted { was ≡ true → 1 ≤ active }
    requires room { active ≤ 1020 }
    ensures { result + one_if was ≡ active + one_if is }
{
    match (was, is) {
        (false, true) => active + 1,
        (true, false) => active - 1,
        _ => active,
    }
}

impl PlainGuest {
    // A new guest: it runs, closed, with every interrupt blank and none waiting.
    pub fn new() -> PlainGuest
        ensures { book_of result ≡ start }
    {
        PlainGuest {
            table: Table::new(),
            running: true,
            cpu: CpuInterface::new(),
            waiting: WaitingOrder::new(),
            active: 0,
        }
    }

    // The only place where an interrupt changes: the waiting order and the count of active ones follow.
    // The step leaves the priority of an interrupt that waits.
    fn change<R, F: FnOnce(&mut Source) -> R>(&mut self, id: InterruptId, step: F) -> R
        requires callable { MayTake F.FnOnce step ((book_of self.old).at (id_of id)) }
        requires priority { KeepsPriority F.FnOnce step ((book_of self.old).at (id_of id)) }
        ensures { (i : Interrupt) × Takes F.FnOnce step ((book_of self.old).at (id_of id)) result i × (book_of self.new ≡ touch (id_of id) i (book_of self.old)) }
    {
        let was_active = self.table.get(id).is_active();
        let result = self.table.change(id, step);
        let source = self.table.get(id);
        settle_order(&mut self.waiting, id, source);
        self.active = recount(self.active, was_active, source.is_active());
        result
    }

    // Refuses a call that only a running guest takes.
    fn while_running(&self) -> Result<(), Refusal>
        ensures { result ≡ (if (book_of self.now).running then Ok tt else Err Parked) }
    {
        if !self.running {
            return Err(Refusal::Parked);
        }
        Ok(())
    }

    fn any_active(&self) -> bool
        ensures { result ≡ any_active (book_of self.now) }
    {
        self.active != 0
    }

    // The eligible interrupt of the most urgent priority, and of equals the earliest.
    fn first_in_turn(&self) -> Option<InterruptId>
        ensures { option_map id_of result ≡ first_in_turn (book_of self.now) }
    {
        let most_urgent = self.cpu.first_admitted(self.waiting.fronts())?;
        self.waiting.front(most_urgent)
    }
}

impl Guest for PlainGuest {
    ghost book = { book_of };

    fn configure(&mut self, number: u32, kind: Kind, priority: u32) -> Result<(), Refusal> {
        let id = InterruptId::new(number).ok_or(Refusal::UnknownInterrupt)?;
        let priority = Priority::new(priority).ok_or(Refusal::PriorityRange)?;
        if kind == Kind::Level && number < FIRST_LEVEL {
            return Err(Refusal::WrongKind);
        }
        if !self.table.get(id).at_rest() {
            return Err(Refusal::NotAtRest);
        }
        self.change(id, |source| source.configure(kind, priority));
        Ok(())
    }

    fn enable(&mut self, number: u32) -> Result<bool, Refusal> {
        let id = InterruptId::new(number).ok_or(Refusal::UnknownInterrupt)?;
        Ok(self.change(id, Source::enable))
    }

    fn disable(&mut self, number: u32) -> Result<bool, Refusal> {
        let id = InterruptId::new(number).ok_or(Refusal::UnknownInterrupt)?;
        Ok(self.change(id, Source::disable))
    }

    fn raise(&mut self, number: u32) -> Result<bool, Refusal> {
        let id = InterruptId::new(number).ok_or(Refusal::UnknownInterrupt)?;
        Ok(self.change(id, Source::raise))
    }

    fn lower(&mut self, number: u32) -> Result<bool, Refusal> {
        let id = InterruptId::new(number).ok_or(Refusal::UnknownInterrupt)?;
        if self.table.get(id).kind == Kind::Edge {
            return Err(Refusal::WrongKind);
        }
        Ok(self.change(id, Source::lower))
    }

    fn mask(&mut self, level: u32) -> Result<(), Refusal> {
        self.while_running()?;
        let mask = Priority::new(level).ok_or(Refusal::PriorityRange)?;
        self.cpu.mask = mask;
        Ok(())
    }

    fn open(&mut self, value: bool) -> Result<(), Refusal> {
        self.while_running()?;
        self.cpu.open = value;
        Ok(())
    }

    fn mode(&mut self, value: EoiMode) -> Result<(), Refusal> {
        self.while_running()?;
        if self.any_active() {
            return Err(Refusal::InterruptActive);
        }
        self.cpu.mode = value;
        Ok(())
    }

    fn acknowledge(&mut self) -> Result<Option<InterruptId>, Refusal> {
        self.while_running()?;
        // that no one is in turn is an answer, and no failure
        let Some(id) = self.first_in_turn() else {
            return Ok(None);
        };
        let priority = self.table.get(id).priority;
        self.change(id, Source::acknowledge);
        self.cpu.active.insert(priority);
        Ok(Some(id))
    }

    fn end(&mut self, word: u32) -> Result<(), Refusal> {
        self.while_running()?;
        let id = InterruptId::new(word).ok_or(Refusal::UnknownWord)?;
        let source = self.table.get(id);
        let priority = source.priority;
        if !source.is_active() || source.dropped || self.cpu.active.lowest() != Some(priority) {
            return Err(Refusal::NotRunningPriority);
        }
        let mode = self.cpu.mode;
        self.cpu.active.remove(priority);
        self.change(id, |source| source.end(mode));
        Ok(())
    }

    fn deactivate(&mut self, word: u32) -> Result<(), Refusal> {
        self.while_running()?;
        let id = InterruptId::new(word).ok_or(Refusal::UnknownWord)?;
        let source = self.table.get(id);
        if self.cpu.mode == EoiMode::Joined || !source.is_active() || !source.dropped {
            return Err(Refusal::NotDropped);
        }
        self.change(id, Source::deactivate);
        Ok(())
    }

    fn park(&mut self) -> Result<(), Refusal> {
        self.while_running()?;
        self.running = false;
        Ok(())
    }

    fn resume(&mut self) -> Result<(), Refusal> {
        if self.running {
            return Err(Refusal::Running);
        }
        self.running = true;
        Ok(())
    }
}
