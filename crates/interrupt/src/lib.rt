// A reading of an interrupt handed in: the answer says which reading is awaited next, or that handling has ended (reference:
// `on_interrupt` of device.rs).
#![tactic(auto)]

ghost use Rattle.std.specs.Prelude.{◌≡◌, length};
ghost use Rattle.ops.specs.Wrote.{Wrote};
ghost use Rattle.interrupt_asks.specs.Settled.{interrupt_numbers};
ghost use Rattle.interrupt.specs.Interrupt.{answer_call, answer_says};

use control_report::reset_by;
use interrupt_asks::{InterruptResult, Sight, settle};
use interrupt_begin::{is_open, refused};
use interrupt_hear::{Effects, hear};
use interrupt_link::LinkEffect;
use interrupt_slots::{slot_heard, slots_heard};
use interrupt_transfer::TransferEffect;
use ops::OpList;
use state::{Events, Reading, State};
use state_sound::sound;
use transfer_chain::CHAIN_PACKETS;
use transfer_window::{in_hand_count, window_of};

// Hands a reading in. Its slot and what else it looks at are taken out of the state, and stored back where they lie.
pub fn answer(
    ops: &mut [u32],
    mut state: State,
    events: Events,
    reading: Reading,
) -> InterruptResult
    ensures answer { result.answer ≡ (answer_call (length ops.old) state events reading).answer }
    ensures state { result.state ≡ (answer_call (length ops.old) state events reading).state }
    ensures events { result.events ≡ (answer_call (length ops.old) state events reading).events }
    ensures list { Wrote ops.old 0 (answer_call (length ops.old) state events reading).ops result.end ops.new }
    ensures wakes { result.wakes ≡ (answer_call (length ops.old) state events reading).wakes }
    ensures numbers { interrupt_numbers result.answer ≡ answer_says (length ops.old) state events reading }
{
    let good = sound(state, events);
    if let Err(refusal) = is_open(ops.len(), good) {
        return refused(refusal, state, events);
    }
    let most = slots_heard(state.awaited);
    let window = window_of(in_hand_count(&state, most));
    let place = slot_heard(state.awaited, reading);
    let sight = Sight {
        ep0: state.ep0_address,
        revision: state.revision,
        limit: CHAIN_PACKETS,
        window,
        in_last: state.in_last,
        awaited: state.awaited,
        place,
    };
    let effects = Effects {
        link: LinkEffect {
            resets: false,
            suspended: state.suspended,
            reset_seen: state.reset_seen,
            low_power: state.low_power,
            events,
        },
        transfer: TransferEffect {
            slot: state.endpoints[place],
            wake: state.wake,
            setup: None,
            address: state.address,
            tx_seq: state.tx_seq,
        },
    };
    let mut list = OpList::new(ops);
    let turn = match hear(&mut list, sight, effects, reading) {
        Ok(turn) => turn,
        Err(refusal) => return refused(refusal, state, events),
    };
    let Effects { link, transfer } = turn.effect;
    state.endpoints[place] = transfer.slot;
    state.wake = transfer.wake;
    state.address = transfer.address;
    state.tx_seq = transfer.tx_seq;
    // the state is handed on only where something resets
    if link.resets | transfer.setup.is_some() {
        state = reset_by(link.resets, state, transfer.setup);
    }
    let ending = settle(turn.awaited, link.events, state.wake);
    state.suspended = link.suspended;
    state.reset_seen = link.reset_seen;
    state.low_power = link.low_power;
    state.wake = ending.wake;
    state.awaited = ending.awaited;
    InterruptResult {
        state,
        events: link.events,
        answer: Ok(ending.awaited.next),
        end: list.end,
        wakes: ending.wakes,
    }
}
