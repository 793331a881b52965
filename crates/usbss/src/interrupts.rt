// An interrupt, reading by reading.
ghost use Rattle.std.specs.Prelude.{◌≡◌, length};
ghost use Rattle.usbss.specs.Call.{Interrupt, Answer};
ghost use Rattle.usbss.specs.Says.{Interrupts};
ghost use Rattle.usbss.specs.Step.{world, step};

use interrupt_asks::InterruptResult;
use state::{Events, Reading, State};

// Begins an interrupt: says what is to be read first, or none while the device is off.
#[inline(always)]
#[tactic(auto, unfolding(crate::specs::Step::step))]
pub fn interrupt(ops: &mut [u32], state: State, events: Events) -> InterruptResult
    ensures { Interrupts (step (world state events) (Interrupt (length ops.old))) ops.old result ops.new }
{
    interrupt_begin::interrupt(ops, state, events)
}

// Hands in what was read: says what is to be read next, or that the interrupt is handled.
#[inline(always)]
#[tactic(auto, unfolding(crate::specs::Step::step))]
pub fn answer(ops: &mut [u32], state: State, events: Events, reading: Reading) -> InterruptResult
    ensures { Interrupts (step (world state events) (Answer (length ops.old) reading)) ops.old result ops.new }
{
    interrupt::answer(ops, state, events, reading)
}
