// A transfer begun, taken, and given up.
ghost use Rattle.std.specs.Prelude.{◌≡◌, length};
ghost use Rattle.usbss.specs.Call.{Begin, Take, Abandon};
ghost use Rattle.usbss.specs.Says.{Leaves, Writes};
ghost use Rattle.usbss.specs.Step.{world, step};

use state::{EndpointAddress, Events, State};
use state_call::{Answered, Listed};
use transfer_piece::{Faults, Piece};

// Begins a transfer of a piece of memory on a data endpoint.
#[inline(always)]
#[tactic(auto, unfolding(crate::specs::Step::step))]
pub fn begin(
    ops: &mut [u32],
    state: State,
    events: Events,
    endpoint: EndpointAddress,
    piece: Piece,
) -> Listed<()>
    ensures { Writes (step (world state events) (Begin (length ops.old) endpoint piece)) ops.old result ops.new }
{
    transfer_begin::begin(ops, state, events, endpoint, piece, Faults::default())
}

// What became of it: none while it is busy, else its bytes, and the endpoint is free again.
#[inline(always)]
#[tactic(auto, unfolding(crate::specs::Step::step))]
pub fn take(state: State, events: Events, endpoint: EndpointAddress) -> Answered<Option<u32>>
    ensures { Leaves (step (world state events) (Take endpoint)) result }
{
    transfer_take::take(state, events, endpoint, false, u32::MAX)
}

// Cuts it; says for how many microseconds its memory isn't to be touched yet.
#[inline(always)]
#[tactic(auto, unfolding(crate::specs::Step::step))]
pub fn abandon(
    ops: &mut [u32],
    state: State,
    events: Events,
    endpoint: EndpointAddress,
) -> Listed<u32>
    ensures { Writes (step (world state events) (Abandon (length ops.old) endpoint)) ops.old result ops.new }
{
    transfer_abandon::abandon(ops, state, events, endpoint)
}
