// An OUT data stage begun (reference: `data_out` of control.rs).
#![tactic(auto)]

ghost use Rattle.std.specs.Prelude.{◌≡◌, [], ◌∷◌, length};
ghost use Rattle.state.specs.Refusals.{first_refusal};
ghost use Rattle.ops.specs.Wrote.{Wrote};
ghost use Rattle.control_stage.specs.Stage.{stage_numbers, stage_says};
ghost use Rattle.control_out.specs.DataOut.{data_out_conditions, data_out_call};

use control_stage::{Stage, admit_stage, answered, is_served, staged};
use ops::OpList;
use regs_control::ep0_rx_ready;
use state::{Events, State};
use state_call::{ListEntry, Listed};

// Takes the next packet of a data stage from the host.
pub fn data_out(ops: &mut [u32], mut state: State, events: Events, generation: u32) -> Listed<Stage>
    ensures answer { result.answer ≡ (data_out_call (length ops.old) state events generation).answer }
    ensures state { result.state ≡ (data_out_call (length ops.old) state events generation).state }
    ensures list { Wrote ops.old 0 (data_out_call (length ops.old) state events generation).ops result.end ops.new }
    ensures wakes { result.wakes ≡ (data_out_call (length ops.old) state events generation).wakes }
    ensures numbers { stage_numbers result.answer ≡ stage_says (first_refusal (data_out_conditions (length ops.old) state events generation)) (0 ∷ []) }
{
    let lent = ListEntry::new(ops.len(), &state, events);
    let check = admit_stage(
        lent,
        !is_served(state.powered, state.control_generation, generation),
    );
    if let Err(refusal) = check {
        return answered(state, Err(refusal));
    }
    let mut list = OpList::new(ops);
    ep0_rx_ready(&mut list);
    state.endpoints[0] = staged(state.endpoints[0]);
    Listed::wrote(state, Ok(Stage::Accepted), list.end)
}
