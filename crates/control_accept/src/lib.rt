// A request accepted (reference: `accept` and `accept_set_address` of control.rs).
#![tactic(auto)]

ghost use Rattle.std.specs.Prelude.{◌≡◌, [], ◌∷◌, length, ◌≤◌, true, cond, leb, Ok};
ghost use Rattle.state.specs.Refusals.{first_refusal};
ghost use Rattle.ops.specs.Lists.{Room, Adds};
ghost use Rattle.ops.specs.Wrote.{Wrote};
ghost use Rattle.ops.specs.Ops.{list_numbers};
ghost use Rattle.state_slots.specs.Waking.{no_wakes};
ghost use Rattle.control_stage.specs.declared.Stage.TheVariants.{Accepted};
ghost use Rattle.control_stage.specs.Stage.{in_stage, stage_numbers, stage_says};
ghost use Rattle.control_accept.specs.Accept.{accept_ops, accept_conditions, accept_call, address_conditions, accept_address_call};

use control_stage::{Stage, admit_stage, answered, is_served, staged};
use ops::OpList;
use regs_control::{ep0_rx_ready, ep0_tx_ready};
use state::{Events, State};
use state_call::{ListEntry, Listed};
use state_sound::sound;

// The registers of a status stage: an empty packet, and the next one taken.
fn acknowledge(list: &mut OpList<'_>)
    requires { Room 128 list.old }
    ensures { Adds list.old accept_ops list.new }
{
    ep0_tx_ready(list, 0, 0);
    ep0_rx_ready(list);
}

// An accepted status stage, and the address that takes hold at its end.
fn status_stage(ops: &mut [u32], mut state: State, address: Option<u8>) -> Listed<Stage>
    requires { list_numbers ≤ length ops.old }
    ensures answer { result.answer ≡ Ok Accepted }
    ensures state { result.state ≡ in_stage state true address }
    ensures list { Wrote ops.old 0 accept_ops result.end ops.new }
    ensures wakes { result.wakes ≡ no_wakes }
{
    let mut list = OpList::new(ops);
    acknowledge(&mut list);
    state.endpoints[1] = staged(state.endpoints[1]);
    state.in_last = true;
    state.address = address;
    Listed::wrote(state, Ok(Stage::Accepted), list.end)
}

// The status stage that acknowledges a request.
pub fn accept(ops: &mut [u32], state: State, events: Events, generation: u32) -> Listed<Stage>
    ensures answer { result.answer ≡ (accept_call (length ops.old) state events generation).answer }
    ensures state { result.state ≡ (accept_call (length ops.old) state events generation).state }
    ensures list { Wrote ops.old 0 (accept_call (length ops.old) state events generation).ops result.end ops.new }
    ensures wakes { result.wakes ≡ (accept_call (length ops.old) state events generation).wakes }
    ensures numbers { stage_numbers result.answer ≡ stage_says (first_refusal (accept_conditions (length ops.old) state events generation)) (0 ∷ []) }
{
    let lent = ListEntry::of(ops.len(), sound(state, events), state.awaited);
    let check = admit_stage(
        lent,
        !is_served(state.powered, state.control_generation, generation),
    );
    if let Err(refusal) = check {
        return answered(state, Err(refusal));
    }
    status_stage(ops, state, None)
}

// The same for a device address, which takes hold at the end of the status stage.
pub fn accept_address(
    ops: &mut [u32],
    state: State,
    events: Events,
    generation: u32,
    address: u8,
) -> Listed<Stage>
    ensures answer { result.answer ≡ (accept_address_call (length ops.old) state events generation address).answer }
    ensures state { result.state ≡ (accept_address_call (length ops.old) state events generation address).state }
    ensures list { Wrote ops.old 0 (accept_address_call (length ops.old) state events generation address).ops result.end ops.new }
    ensures wakes { result.wakes ≡ (accept_address_call (length ops.old) state events generation address).wakes }
    ensures numbers { stage_numbers result.answer ≡ stage_says (first_refusal (address_conditions (length ops.old) state events generation address)) (cond (leb address 127) (0 ∷ []) []) }
{
    let known = address <= 127;
    let lent = ListEntry::of(ops.len(), sound(state, events), state.awaited);
    let check = admit_stage(
        lent,
        known & !is_served(state.powered, state.control_generation, generation),
    );
    if let Err(refusal) = check {
        return answered(state, Err(refusal));
    }
    if !known {
        return answered(state, Ok(Stage::Unanswered));
    }
    status_stage(ops, state, Some(address))
}
