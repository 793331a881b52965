// Sends and receives, piece by piece.
ghost use Rattle.std.specs.Prelude.{◌≡◌, length};
ghost use Rattle.state_call.specs.Outcome.{front};
ghost use Rattle.endpoint_parts.specs.Parts.{put};
ghost use Rattle.endpoint_choice.specs.Choice.{asked_of, place};
ghost use Rattle.usbss.specs.Call.{Send, Sent, Receive, Received};
ghost use Rattle.usbss.specs.Says.{Leaves, Writes};
ghost use Rattle.usbss.specs.Step.{world, step};

use endpoint_answer::Move;
use endpoint_choice::MoveRequest;
use state::{Events, State};
use state_call::{Answered, Listed};

// Sends the next piece of the caller's bytes, out of their memory or by a copy in the endpoint's own buffer.
#[inline(always)]
#[tactic(auto, unfolding(crate::specs::Step::step))]
pub fn send(
    ops: &mut [u32],
    state: State,
    events: Events,
    index: u8,
    request: MoveRequest,
    bytes: &[u8],
    own: &mut [u8],
) -> Listed<Move>
    ensures call { Writes (step (world state events) (Send (length ops.old) index request bytes.now (length own.old))) ops.old result ops.new }
    ensures lent { own.new ≡ front (step (world state events) (Send (length ops.old) index request bytes.now (length own.old))).copied own.old }
{
    endpoint_send::send(ops, state, events, index, request, bytes, own)
}

// Whether the piece is sent, and how far the send is then.
#[inline(always)]
#[tactic(auto, unfolding(crate::specs::Step::step))]
pub fn sent(
    state: State,
    events: Events,
    index: u8,
    request: MoveRequest,
    bytes: &[u8],
    own: &[u8],
) -> Answered<Move>
    ensures { Leaves (step (world state events) (Sent index request (length bytes.now) (length own.now))) result }
{
    endpoint_sent::sent(state, events, index, request, bytes, own)
}

// Has the next piece received, into the caller's memory or the endpoint's own buffer.
#[inline(always)]
#[tactic(auto, unfolding(crate::specs::Step::step))]
pub fn receive(
    ops: &mut [u32],
    state: State,
    events: Events,
    index: u8,
    request: MoveRequest,
    bytes: &[u8],
    own: &[u8],
) -> Listed<Move>
    ensures { Writes (step (world state events) (Receive (length ops.old) index request (length bytes.now) (length own.now))) ops.old result ops.new }
{
    endpoint_receive::receive(ops, state, events, index, request, bytes, own)
}

// Whether the piece is received, and how far the receive is then; what came into the own buffer is copied out.
#[inline(always)]
#[tactic(auto, unfolding(crate::specs::Step::step))]
pub fn received(
    state: State,
    events: Events,
    index: u8,
    request: MoveRequest,
    bytes: &mut [u8],
    own: &[u8],
) -> Answered<Move>
    ensures call { Leaves (step (world state events) (Received index request (length bytes.old) own.now)) result }
    ensures lent { bytes.new ≡ put bytes.old (place (asked_of request (length bytes.old))) (step (world state events) (Received index request (length bytes.old) own.now)).copied }
{
    endpoint_received::received(state, events, index, request, bytes, own)
}
