// Endpoint 0: a SETUP fetched, the stages of its transfer begun and taken, and the answer to a request.
ghost use Rattle.std.specs.Prelude.{◌≡◌, length};
ghost use Rattle.state_call.specs.Outcome.{front};
ghost use Rattle.usbss.specs.Call.{Setup, DataOut, DataIn, Accept, AcceptAddress, Reject, TakeOut, TakeIn};
ghost use Rattle.usbss.specs.Says.{Leaves, Writes};
ghost use Rattle.usbss.specs.Step.{world, step};

use control_setup::Fetched;
use control_stage::Stage;
use state::{Events, State};
use state_call::{Answered, Listed};

// The SETUP packet that waits, and the generation that the stages of its transfer are to name.
#[inline(always)]
#[tactic(auto, unfolding(crate::specs::Step::step))]
pub fn setup(state: State, events: Events) -> Answered<Option<Fetched>>
    ensures { Leaves (step (world state events) Setup) result }
{
    control_setup::setup(state, events)
}

// Asks for a packet of the data stage from the host.
#[inline(always)]
#[tactic(auto, unfolding(crate::specs::Step::step))]
pub fn data_out(ops: &mut [u32], state: State, events: Events, generation: u32) -> Listed<Stage>
    ensures { Writes (step (world state events) (DataOut (length ops.old) generation)) ops.old result ops.new }
{
    control_out::data_out(ops, state, events, generation)
}

// Sends a packet of the data stage, copied into endpoint 0's buffer.
#[inline(always)]
#[tactic(auto, unfolding(crate::specs::Step::step))]
pub fn data_in(
    ops: &mut [u32],
    state: State,
    events: Events,
    generation: u32,
    bytes: &[u8],
    ep0: &mut [u8],
    address: u32,
    first: bool,
    last: bool,
) -> Listed<Stage>
    ensures call { Writes (step (world state events) (DataIn (length ops.old) generation bytes.now address (length ep0.old) first last)) ops.old result ops.new }
    ensures lent { ep0.new ≡ front (step (world state events) (DataIn (length ops.old) generation bytes.now address (length ep0.old) first last)).copied ep0.old }
{
    control_in::data_in(
        ops, state, events, generation, bytes, ep0, address, first, last,
    )
}

// Accepts the request: its status stage is due.
#[inline(always)]
#[tactic(auto, unfolding(crate::specs::Step::step))]
pub fn accept(ops: &mut [u32], state: State, events: Events, generation: u32) -> Listed<Stage>
    ensures { Writes (step (world state events) (Accept (length ops.old) generation)) ops.old result ops.new }
{
    control_accept::accept(ops, state, events, generation)
}

// The same of SET_ADDRESS: the address takes hold once the status stage has ended.
#[inline(always)]
#[tactic(auto, unfolding(crate::specs::Step::step))]
pub fn accept_address(
    ops: &mut [u32],
    state: State,
    events: Events,
    generation: u32,
    address: u8,
) -> Listed<Stage>
    ensures { Writes (step (world state events) (AcceptAddress (length ops.old) generation address)) ops.old result ops.new }
{
    control_accept::accept_address(ops, state, events, generation, address)
}

// Rejects the request: endpoint 0 answers STALL until the next SETUP.
#[inline(always)]
#[tactic(auto, unfolding(crate::specs::Step::step))]
pub fn reject(ops: &mut [u32], state: State, events: Events, generation: u32) -> Listed<Stage>
    ensures { Writes (step (world state events) (Reject (length ops.old) generation)) ops.old result ops.new }
{
    control_reject::reject(ops, state, events, generation)
}

// The packet that has come, copied out; none while it is awaited.
#[inline(always)]
#[tactic(auto, unfolding(crate::specs::Step::step))]
pub fn take_out(
    state: State,
    events: Events,
    generation: u32,
    out: &mut [u8],
    ep0: &[u8],
    address: u32,
) -> Answered<Option<u32>>
    ensures call { Leaves (step (world state events) (TakeOut generation (length out.old) ep0.now address)) result }
    ensures lent { out.new ≡ front (step (world state events) (TakeOut generation (length out.old) ep0.now address)).copied out.old }
{
    control_take_out::take_out(state, events, generation, out, ep0, address)
}

// Whether the packet or the status stage is done; none while it is awaited.
#[inline(always)]
#[tactic(auto, unfolding(crate::specs::Step::step))]
pub fn take_in(state: State, events: Events, generation: u32) -> Answered<Option<u32>>
    ensures { Leaves (step (world state events) (TakeIn generation)) result }
{
    control_take::take_in(state, events, generation)
}
