// A request rejected (reference: `reject` of control.rs).
#![tactic(auto)]

ghost use Rattle.std.specs.Prelude.{◌≡◌, [], ◌∷◌, length, cond};
ghost use Rattle.state.specs.Refusals.{first_refusal};
ghost use Rattle.ops.specs.Wrote.{Wrote};
ghost use Rattle.control_stage.specs.Stage.{servedb, stage_numbers, stage_says};
ghost use Rattle.control_reject.specs.Reject.{reject_conditions, reject_call};

use control_stage::{Stage, answered, is_served};
use ops::OpList;
use regs_control::ep0_stall;
use state::{Events, State};
use state_call::{ListEntry, Listed};
use state_sound::sound;

// Both directions answer STALL until the next SETUP.
pub fn reject(ops: &mut [u32], state: State, events: Events, generation: u32) -> Listed<Stage>
    ensures answer { result.answer ≡ (reject_call (length ops.old) state events generation).answer }
    ensures state { result.state ≡ (reject_call (length ops.old) state events generation).state }
    ensures list { Wrote ops.old 0 (reject_call (length ops.old) state events generation).ops result.end ops.new }
    ensures wakes { result.wakes ≡ (reject_call (length ops.old) state events generation).wakes }
    ensures numbers { stage_numbers result.answer ≡ stage_says (first_refusal (reject_conditions (length ops.old) state events)) (cond (servedb state generation) (0 ∷ []) []) }
{
    let lent = ListEntry::of(ops.len(), sound(state, events), state.awaited);
    let check = lent.admit();
    if let Err(refusal) = check {
        return answered(state, Err(refusal));
    }
    if !is_served(state.powered, state.control_generation, generation) {
        return answered(state, Ok(Stage::Unanswered));
    }
    let mut list = OpList::new(ops);
    ep0_stall(&mut list);
    Listed::wrote(state, Ok(Stage::Accepted), list.end)
}
