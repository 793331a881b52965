// An OUT stage taken (reference: `stage` of control.rs).
#![tactic(auto)]

ghost use Rattle.std.specs.Prelude.{◌≡◌, ◌≤◌, length};
ghost use Rattle.state_call.specs.Outcome.{front};
ghost use Rattle.transfer_take.specs.Take.{take_numbers};
ghost use Rattle.control_take_out.specs.TakeOut.{overflows, out_says, out_copies, take_out_call, take_out_says};

use base::copies::copy;
use control_stage::{is_served, is_unfit};
use control_take::{answered, idle, is_done, stage_check};
use state::refusals::refuse_if;
use state::{EP0_SIZE, Events, Refusal, State};
use state_call::{Answered, Entry};

// More has come than there is room for, or than EP0's 512 bytes hold.
fn is_too_long(received: u32, room: usize) -> bool
    ensures { result ≡ overflows received room }
{
    room < received as usize || EP0_SIZE < received
}

// The bytes that have come are copied where there is room for them.
fn copy_out(out: &mut [u8], ep0: &[u8], received: u32) -> Result<Option<u32>, Refusal>
    requires { 512 ≤ length ep0.now }
    ensures answer { result ≡ out_says received (length out.old) }
    ensures lent { out.new ≡ front (out_copies received (length out.old) ep0.now) out.old }
{
    refuse_if(is_too_long(received, out.len()), Refusal::TooLong)?;
    copy(&ep0[..received as usize], out);
    Ok(Some(received))
}

// Says that an OUT stage is busy, or takes its bytes out of EP0's buffer, which is lent with its address. Where there is
// no room for them the stage is closed with 9, and nothing is copied.
pub fn take_out(
    mut state: State,
    events: Events,
    generation: u32,
    out: &mut [u8],
    ep0: &[u8],
    address: u32,
) -> Answered<Option<u32>>
    ensures answer { result.answer ≡ (take_out_call state events generation (length out.old) ep0.now address).answer }
    ensures state { result.state ≡ (take_out_call state events generation (length out.old) ep0.now address).state }
    ensures wakes { result.wakes ≡ (take_out_call state events generation (length out.old) ep0.now address).wakes }
    ensures numbers { take_numbers result.answer ≡ take_out_says state events generation (length out.old) ep0.now address }
    ensures lent { out.new ≡ front (take_out_call state events generation (length out.old) ep0.now address).copied out.old }
{
    let served = is_served(state.powered, state.control_generation, generation);
    let unfit = is_unfit(&state, address, ep0.len());
    let check = stage_check(Entry::new(&state, events), served, unfit);
    if let Err(refusal) = check {
        return answered(state, Err(refusal));
    }
    let slot = state.endpoints[0];
    if !is_done(slot.phase) {
        return answered(state, Ok(None));
    }
    state.endpoints[0] = idle(slot);
    let answer = copy_out(out, ep0, slot.transfer.progress);
    answered(state, answer)
}
