// What the takes of stages share, and an IN stage taken (reference: `stage` of control.rs).
#![tactic(auto)]

ghost use Rattle.std.specs.Prelude.{◌≡◌, not, [], ◌∷◌};
ghost use Rattle.state.specs.Refusals.{◌if◌, first_refusal};
ghost use Rattle.state.specs.declared.Refusal.TheVariants.{Disabled, UnfitBuffer};
ghost use Rattle.state_call.specs.Turn.{turn_at};
ghost use Rattle.state_slots.specs.Waking.{no_wakes};
ghost use Rattle.transfer_take.specs.Take.{take_numbers};
ghost use Rattle.control_take.specs.Take.{doneb, idle_slot, take_in_call, take_in_says};

use control_stage::is_served;
use state::refusals::refuse_if;
use state::{Events, Phase, Refusal, Slot, State};
use state_call::{Answered, Entry};

pub fn is_done(phase: Phase) -> bool
    ensures { result ≡ doneb phase }
{
    phase == Phase::Done
}

pub fn idle(slot: Slot) -> Slot
    ensures { result ≡ idle_slot slot }
{
    Slot {
        phase: Phase::Idle,
        ..slot
    }
}

// No list and no wakes.
pub fn answered(state: State, answer: Result<Option<u32>, Refusal>) -> Answered<Option<u32>>
    ensures answer { result.answer ≡ answer }
    ensures state { result.state ≡ state }
    ensures wakes { result.wakes ≡ no_wakes }
{
    Answered::quiet(state, answer)
}

// What a stage of endpoint 0 is refused by: its generation, and EP0's buffer where it is lent.
pub fn stage_check(entry: Entry, served: bool, unfit: bool) -> Result<(), Refusal>
    ensures { result ≡ first_refusal (turn_at entry (Disabled if not served ∷ UnfitBuffer if unfit ∷ [])) }
{
    entry.admit()?;
    refuse_if(!served, Refusal::Disabled)?;
    refuse_if(unfit, Refusal::UnfitBuffer)
}

// Says that an IN stage is busy, or takes that it is done.
pub fn take_in(mut state: State, events: Events, generation: u32) -> Answered<Option<u32>>
    ensures answer { result.answer ≡ (take_in_call state events generation).answer }
    ensures state { result.state ≡ (take_in_call state events generation).state }
    ensures wakes { result.wakes ≡ (take_in_call state events generation).wakes }
    ensures numbers { take_numbers result.answer ≡ take_in_says state events generation }
{
    let served = is_served(state.powered, state.control_generation, generation);
    let check = stage_check(Entry::new(&state, events), served, false);
    if let Err(refusal) = check {
        return answered(state, Err(refusal));
    }
    let slot = state.endpoints[1];
    if !is_done(slot.phase) {
        return answered(state, Ok(None));
    }
    state.endpoints[1] = idle(slot);
    answered(state, Ok(Some(0)))
}
