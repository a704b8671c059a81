// What may preempt what.
ghost use Rattle.std.specs.Prelude.{◌≡◌};
ghost use Rattle.interrupt.specs.Preemption.{below_both, may_preempt};

// Whether an interrupt of this priority may be taken under this mask, while the running priority is handled (32 for none).
pub fn may_preempt(priority: u32, mask: u32, running: u32) -> bool
    ensures { result ≡ may_preempt priority mask running }
{
    is_below_both(priority, mask, running)
}

fn is_below_both(priority: u32, mask: u32, running: u32) -> bool
    ensures { result ≡ below_both priority mask running }
{
    priority < mask && priority < running
}
