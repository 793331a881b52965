// Transfers on the data endpoints 1 to 7, begun (reference: `run` of endpoint.rs).
#![tactic(auto)]

ghost use Rattle.std.specs.Prelude.{◌≡◌, length as list_length};
ghost use Rattle.ops.specs.Lists.{Room, Adds};
ghost use Rattle.ops.specs.Wrote.{Wrote};
ghost use Rattle.state.specs.Refusals.{first_refusal};
ghost use Rattle.state.specs.Numbers.{check_number};
ghost use Rattle.transfer_window.specs.Window.{windows_ops};
ghost use Rattle.transfer_begin.specs.Begin.{begin_conditions, begin_call};

use ops::OpList;
use state::{EndpointAddress, Events, Refusal, State};
use state_call::{ListEntry, Listed};
use state_slots::{slot_number, slot_place};
use transfer_chain::{CHAIN_PACKETS, queue};
use transfer_piece::{Faults, Piece, begun_slot, slot_check};
use transfer_window::{in_hand_count, window_at, window_of};

// Whether a transfer may begin.
pub fn begin_check(
    room: usize,
    state: &State,
    events: Events,
    endpoint: EndpointAddress,
    piece: Piece,
    faults: Faults,
) -> Result<(), Refusal>
    ensures { result ≡ first_refusal (begin_conditions room state.now events endpoint.index endpoint.incoming piece faults.long faults.unfit) }
{
    let i = slot_place(endpoint);
    ListEntry::new(room, state, events).admit()?;
    slot_check(state.powered, endpoint, state.endpoints[i], piece, faults)
}

// The window of every busy OUT endpoint.
fn windows(list: &mut OpList<'_>, state: &State)
    requires { Room 7 list.old }
    ensures { Adds list.old (windows_ops state.now) list.new }
{
    let window = window_of(in_hand_count(state, 14));
    for index in 1..8 {
        let i = slot_number(EndpointAddress {
            index,
            incoming: false,
        });
        window_at(list, state.endpoints[i], window, index);
    }
}

// Begins a transfer.
#[tactic(auto, unfolding(crate::specs::Begin::begin_call, state_call::specs::Outcome::or_else))]
pub fn begin(
    ops: &mut [u32],
    mut state: State,
    events: Events,
    endpoint: EndpointAddress,
    piece: Piece,
    faults: Faults,
) -> Listed<()>
    ensures answer { result.answer ≡ (begin_call (list_length ops.old) state events endpoint.index endpoint.incoming piece faults.long faults.unfit).answer }
    ensures state { result.state ≡ (begin_call (list_length ops.old) state events endpoint.index endpoint.incoming piece faults.long faults.unfit).state }
    ensures list { Wrote ops.old 0 (begin_call (list_length ops.old) state events endpoint.index endpoint.incoming piece faults.long faults.unfit).ops result.end ops.new }
    ensures wakes { result.wakes ≡ (begin_call (list_length ops.old) state events endpoint.index endpoint.incoming piece faults.long faults.unfit).wakes }
    ensures number { check_number result.answer ≡ check_number (first_refusal (begin_conditions (list_length ops.old) state events endpoint.index endpoint.incoming piece faults.long faults.unfit)) }
{
    let check = begin_check(ops.len(), &state, events, endpoint, piece, faults);
    if let Err(refusal) = check {
        return Listed::quiet(state, Err(refusal));
    }
    let i = slot_place(endpoint);
    // this transfer is in hand when the windows are decided
    state.endpoints[i] = begun_slot(state.endpoints[i], piece);
    let mut list = OpList::new(ops);
    windows(&mut list, &state);
    queue(&mut list, CHAIN_PACKETS, endpoint, &mut state.endpoints[i]);
    Listed::wrote(state, Ok(()), list.end)
}
