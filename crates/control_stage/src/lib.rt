// What the stages of a control transfer share, and the answer to a request (reference: control.rs).
#![tactic(auto)]

ghost use Rattle.std.specs.Prelude.{◌≡◌, ◌&&◌, [], ◌∷◌, eqb};
ghost use Rattle.state.specs.declared.Refusal.TheVariants.{Disabled};
ghost use Rattle.state.specs.Refusals.{◌if◌, first_refusal};
ghost use Rattle.state_slots.specs.Waking.{no_wakes};
ghost use Rattle.state_call.specs.Turn.{admitted_at};
ghost use Rattle.control_stage.specs.Stage.{ep0_unfit, staged_slot};

use state::refusals::refuse_if;
use state::{EP0_SIZE, Phase, Refusal, Slot, State};
use state_call::{ListEntry, Listed};

// What a stage that isn't refused comes to. `Unanswered`: document 01 has no number for it.
#[derive(Clone, Copy, PartialEq, Eq)]
pub enum Stage {
    Accepted,
    Unanswered,
}

// Whether a stage's generation is that of the last SETUP or bus reset, while there is power. The state lent in place of its
// two parts was tried, and takes 155 instructions more in `accept` and `reject`.
pub fn is_served(powered: bool, current: u32, generation: u32) -> bool
    ensures { result ≡ (powered && eqb current generation) }
{
    powered && current == generation
}

// Whether EP0's lent buffer is another than the state's.
pub fn is_unfit(state: &State, address: u32, size: usize) -> bool
    ensures { result ≡ ep0_unfit state.now address size }
{
    address != state.ep0_address || size != EP0_SIZE as usize
}

// A slot of endpoint 0 under way.
pub fn staged(slot: Slot) -> Slot
    ensures { result ≡ staged_slot slot }
{
    Slot {
        phase: Phase::Busy,
        ..slot
    }
}

// What every call with a list is refused by, and then 22: `due` where the stage isn't served.
pub fn admit_stage(lent: ListEntry, due: bool) -> Result<(), Refusal>
    ensures { result ≡ first_refusal (admitted_at lent (Disabled if due ∷ [])) }
{
    lent.admit()?;
    refuse_if(due, Refusal::Disabled)
}

// Nothing is done: the call is refused, or passed over.
pub fn answered(state: State, answer: Result<Stage, Refusal>) -> Listed<Stage>
    ensures answer { result.answer ≡ answer }
    ensures state { result.state ≡ state }
    ensures end { result.end ≡ 0 }
    ensures wakes { result.wakes ≡ no_wakes }
{
    Listed::quiet(state, answer)
}
