// The result of a transfer on the data endpoints 1 to 7, taken (reference: `run` of endpoint.rs).
#![tactic(auto)]

ghost use Rattle.std.specs.Prelude.{◌≡◌, nat_lt, if◌then◌else◌, Some, Ok, Err};
ghost use Rattle.state.specs.declared.Refusal.TheVariants.{TooLong};
ghost use Rattle.state.specs.Refusals.{first_refusal};
ghost use Rattle.state_call.specs.Turn.{turn_at};
ghost use Rattle.transfer_take.specs.Take.{take_own, taken_slot, took_at, take_call, take_numbers, take_says};

use state::refusals::refuse_if;
use state::{EndpointAddress, Events, Phase, Refusal, Slot, State, Tally};
use state_call::{Answered, Entry};
use state_slots::{is_busy, is_data_endpoint, is_idle, slot_place};

// The slot with its transfer finished.
fn taken_slot(slot: Slot) -> Slot
    ensures { result ≡ taken_slot slot }
{
    Slot {
        phase: Phase::Idle,
        tally: Tally {
            finished: slot.tally.finished.wrapping_add(1),
            bytes: slot.tally.bytes.wrapping_add(slot.transfer.progress),
            ..slot.tally
        },
        ..slot
    }
}

fn take_check(entry: Entry, index: u8, unfit: bool, slot: Slot) -> Result<(), Refusal>
    ensures { result ≡ first_refusal (turn_at entry (take_own index unfit slot)) }
{
    entry.admit()?;
    refuse_if(!is_data_endpoint(index), Refusal::NoDataEndpoint)?;
    refuse_if(is_idle(slot.phase), Refusal::Disabled)?;
    refuse_if(unfit, Refusal::UnfitBuffer)
}

// The bytes of a transfer that is done, where there is room for them.
fn taken_bytes(bytes: u32, most: u32) -> Result<Option<u32>, Refusal>
    ensures { result ≡ (if nat_lt most bytes then Err TooLong else Ok (Some bytes)) }
{
    refuse_if(most < bytes, Refusal::TooLong)?;
    Ok(Some(bytes))
}

// What a take says of a slot, and leaves of it.
#[tactic(auto, unfolding(state_call::specs::Outcome::or_else))]
fn take_slot(check: Result<(), Refusal>, most: u32, slot: &mut Slot) -> Result<Option<u32>, Refusal>
    ensures answer { result ≡ (took_at check most slot.old).answer }
    ensures slot { slot.new ≡ (took_at check most slot.old).slot }
{
    check?;
    if is_busy(slot.phase) {
        return Ok(None);
    }
    let bytes = slot.transfer.progress;
    *slot = taken_slot(*slot);
    taken_bytes(bytes, most)
}

// Says that a transfer is busy, or takes the bytes that it moved and leaves the slot idle. `unfit` is the caller's: what
// it lent for the bytes is unfit. So is `most`, how many it has room for: where more came, they are taken with 9.
pub fn take(
    mut state: State,
    events: Events,
    endpoint: EndpointAddress,
    unfit: bool,
    most: u32,
) -> Answered<Option<u32>>
    ensures answer { result.answer ≡ (take_call state events endpoint.index endpoint.incoming unfit most).answer }
    ensures state { result.state ≡ (take_call state events endpoint.index endpoint.incoming unfit most).state }
    ensures wakes { result.wakes ≡ (take_call state events endpoint.index endpoint.incoming unfit most).wakes }
    ensures numbers { take_numbers result.answer ≡ take_says state events endpoint.index endpoint.incoming unfit most }
{
    let entry = Entry::new(&state, events);
    let i = slot_place(endpoint);
    let slot = &mut state.endpoints[i];
    let check = take_check(entry, endpoint.index, unfit, *slot);
    let answer = take_slot(check, most, slot);
    Answered::quiet(state, answer)
}
