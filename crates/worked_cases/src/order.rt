// The turn of equals in the waiting order.
use interrupt::id::InterruptId;
use interrupt::priority::Priority;
use std::test::Fail;
use waiting::order::WaitingOrder;

// Of two at one priority the earlier comes first; once it has left and joined again, it comes last.
#[test]
fn equals_keep_their_order(rt: HostRuntime) -> Result<(), Fail> {
    let early = named(40)?;
    let late = named(7)?;
    let mut order = WaitingOrder::new();
    order.join(early, Priority::HIGHEST);
    order.join(late, Priority::HIGHEST);
    assert!(rt; starts_with(&order, 40));
    order.leave(early);
    order.join(early, Priority::HIGHEST);
    assert!(rt; starts_with(&order, 7));
    Ok(())
}

fn named(number: u32) -> Result<InterruptId, Fail> {
    InterruptId::new(number).ok_or_else(|| Fail::new("no such interrupt"))
}

// Whether this number is the first at the highest priority.
fn starts_with(order: &WaitingOrder, number: u16) -> bool {
    order
        .front(Priority::HIGHEST)
        .is_some_and(|id| id.number() == number)
}
