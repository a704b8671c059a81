// Joining the waiting order, leaving it, and who comes first, each in constant time.
ghost use Rattle.std.specs.Prelude.{◌≡◌, ℕ, ◌<◌, true, false, [], ◌∷◌, ◌++◌, is_some, if◌then◌else◌, Some, ◌==◌, nat_eq};
ghost use Rattle.std.specs.Option.{option_map};
ghost use Rattle.interrupt.specs.Lists.{has, without, first, filled};
ghost use Rattle.interrupt.specs.Meaning.{id_of, members};
ghost use Rattle.waiting.specs.Order.{waiting_list, waits_at, joined, of_priority};

use super::WaitingOrder;
use crate::queues::Queues;
use crate::rings::Rings;
use interrupt::id::{COUNT, InterruptId};
use interrupt::priority::Priority;
use interrupt::priority_set::PrioritySet;

#[tactic(auto, using(crate::proofs::Waiting::order_laws), unfolding(crate::specs::Order::waiting_list, crate::specs::Order::waits_at))]
impl WaitingOrder {
    // No one waits.
    pub fn new() -> WaitingOrder
        ensures { waiting_list result ≡ [] }
    {
        WaitingOrder {
            arrivals: Rings::new(),
            queues: Queues::new(),
            priorities: [None; COUNT],
        }
    }

    // An interrupt begins to wait at this priority, after all others. One that waits already stays where it is.
    pub fn join(&mut self, id: InterruptId, priority: Priority)
        ensures list { waiting_list self.new ≡ joined (id_of id) (waiting_list self.old) }
        ensures ranks { (m : ℕ) → waits_at self.new m ≡ (if nat_eq m (id_of id) then (if has (id_of id) (waiting_list self.old) then waits_at self.old m else priority.level) else waits_at self.old m) }
    {
        if !self.waits(id) {
            self.append(id, priority);
        }
    }

    // An interrupt waits no more, if it did.
    pub fn leave(&mut self, id: InterruptId)
        ensures list { waiting_list self.new ≡ without (id_of id) (waiting_list self.old) }
        ensures ranks { (m : ℕ) → (m == id_of id) ≡ false → waits_at self.new m ≡ waits_at self.old m }
    {
        if let Some(priority) = self.priority_of(id) {
            self.take_out(id, priority);
        }
    }

    // Whether an interrupt waits.
    pub fn waits(&self, id: InterruptId) -> bool
        ensures { result ≡ has (id_of id) (waiting_list self.now) }
    {
        self.priority_of(id).is_some()
    }

    // The earliest of those at this priority.
    pub fn front(&self, priority: Priority) -> Option<InterruptId>
        ensures { option_map id_of result ≡ first (of_priority (waits_at self.now) priority.level (waiting_list self.now)) }
    {
        self.queues.front(priority)
    }

    // The priorities at which anyone waits.
    pub fn fronts(&self) -> PrioritySet
        ensures shown { (p : ℕ) → p < 32 → members result p ≡ filled (of_priority (waits_at self.now) p (waiting_list self.now)) }
        ensures within { (m : ℕ) → has m (waiting_list self.now) ≡ true → waits_at self.now m < 32 }
    {
        self.queues.fronts()
    }

    // The priority at which an interrupt waits, if it does.
    fn priority_of(&self, id: InterruptId) -> Option<Priority>
        ensures found { is_some result ≡ has (id_of id) (waiting_list self.now) }
        ensures level { (p : Priority) → result ≡ Some p → waits_at self.now (id_of id) ≡ p.level }
    {
        self.priorities[id.place()]
    }

    // An interrupt that does not wait begins to.
    fn append(&mut self, id: InterruptId, priority: Priority)
        requires { has (id_of id) (waiting_list self.old) ≡ false }
        ensures list { waiting_list self.new ≡ waiting_list self.old ++ id_of id ∷ [] }
        ensures ranks { (m : ℕ) → waits_at self.new m ≡ (if nat_eq m (id_of id) then priority.level else waits_at self.old m) }
    {
        self.arrivals.join(id, Priority::HIGHEST);
        self.queues.join(id, priority);
        self.priorities[id.place()] = Some(priority);
    }

    // An interrupt that waits at this priority does so no more.
    fn take_out(&mut self, id: InterruptId, priority: Priority)
        requires waits { has (id_of id) (waiting_list self.old) ≡ true }
        requires level { waits_at self.old (id_of id) ≡ priority.level }
        ensures list { waiting_list self.new ≡ without (id_of id) (waiting_list self.old) }
        ensures ranks { (m : ℕ) → (m == id_of id) ≡ false → waits_at self.new m ≡ waits_at self.old m }
    {
        self.arrivals.leave(id);
        self.queues.leave(id, priority);
        self.priorities[id.place()] = None;
    }
}
