// An IN data stage begun (reference: `data_in` of control.rs).
#![tactic(auto)]

ghost use Rattle.std.specs.Prelude.{◌≡◌, [], ◌∷◌, not, ltb, length};
ghost use Rattle.state.specs.Refusals.{◌if◌, first_refusal};
ghost use Rattle.ops.specs.Wrote.{Wrote};
ghost use Rattle.state.specs.declared.Refusal.TheVariants.{TooLong, Disabled, UnfitBuffer};
ghost use Rattle.state_call.specs.Turn.{admitted_at};
ghost use Rattle.state_call.specs.Outcome.{front};
ghost use Rattle.control_stage.specs.Stage.{ep0_unfit, stage_numbers, stage_says};
ghost use Rattle.control_in.specs.DataIn.{next_sequence, data_in_conditions, data_in_call};

use base::copies::copy;
use control_stage::{Stage, answered, is_served, is_unfit, staged};
use ops::OpList;
use regs_control::ep0_tx_ready;
use state::refusals::refuse_if;
use state::{EP0_SIZE, Events, Refusal, State};
use state_call::{ListEntry, Listed};

// The sequence number of a data packet: 0 of the first, then one more than the last report gave, modulo 32.
fn next_sequence(first: bool, previous: u8) -> u32
    ensures { result ≡ next_sequence first previous }
{
    if first {
        return 0;
    }
    (previous as u32 + 1) % 32
}

// What a packet is refused by: its length, its generation, and EP0's buffer.
fn packet_check(lent: ListEntry, size: usize, served: bool, unfit: bool) -> Result<(), Refusal>
    ensures { result ≡ first_refusal (admitted_at lent (TooLong if ltb 512 size ∷ Disabled if not served ∷ UnfitBuffer if unfit ∷ [])) }
{
    lent.admit()?;
    refuse_if(size > EP0_SIZE as usize, Refusal::TooLong)?;
    refuse_if(!served, Refusal::Disabled)?;
    refuse_if(unfit, Refusal::UnfitBuffer)
}

// Sends a packet of a data stage to the host. Its bytes are copied to EP0's buffer, which is lent with its address.
pub fn data_in(
    ops: &mut [u32],
    mut state: State,
    events: Events,
    generation: u32,
    bytes: &[u8],
    ep0: &mut [u8],
    address: u32,
    first: bool,
    last: bool,
) -> Listed<Stage>
    ensures answer { result.answer ≡ (data_in_call (length ops.old) state events generation bytes.now address (length ep0.old) first last).answer }
    ensures state { result.state ≡ (data_in_call (length ops.old) state events generation bytes.now address (length ep0.old) first last).state }
    ensures list { Wrote ops.old 0 (data_in_call (length ops.old) state events generation bytes.now address (length ep0.old) first last).ops result.end ops.new }
    ensures wakes { result.wakes ≡ (data_in_call (length ops.old) state events generation bytes.now address (length ep0.old) first last).wakes }
    ensures numbers { stage_numbers result.answer ≡ stage_says (first_refusal (data_in_conditions (length ops.old) state events generation (length bytes.now) (ep0_unfit state address (length ep0.old)))) (0 ∷ []) }
    ensures lent { ep0.new ≡ front (data_in_call (length ops.old) state events generation bytes.now address (length ep0.old) first last).copied ep0.old }
{
    let lent = ListEntry::new(ops.len(), &state, events);
    let served = is_served(state.powered, state.control_generation, generation);
    let unfit = is_unfit(&state, address, ep0.len());
    let check = packet_check(lent, bytes.len(), served, unfit);
    if let Err(refusal) = check {
        return answered(state, Err(refusal));
    }
    let length = copy(bytes, ep0);
    let sequence = next_sequence(first, state.tx_seq);
    let mut list = OpList::new(ops);
    ep0_tx_ready(&mut list, sequence, length as u32);
    state.endpoints[1] = staged(state.endpoints[1]);
    state.in_last = last;
    Listed::wrote(state, Ok(Stage::Accepted), list.end)
}
