// Endpoint 0's part of an interrupt: its registers, and what becomes of its slots (reference: `transfer_irq` and `ep0_irq` of
// device.rs).
#![tactic(auto)]

ghost use Rattle.std.specs.Prelude.{◌≡◌};
ghost use Rattle.ops.specs.Lists.{Room, Adds};
ghost use Rattle.control_report.specs.Ep0.{setup_ops, setup_received, reset_by, address_due, status_ops, received_slot, sequence_ops};

use bus_reset::{control_reset, reset_state};
use ops::{Field, OpList, Value};
use regs_control::{
    ep0_rx_clear, ep0_rx_ready, ep0_tx_answer, ep0_tx_clear, set_address, status_ack,
};
use state::{Setup, Slot, State, Transfer};
use state_slots::completing::moved;

// A SETUP has come: both directions are cleared and its flag acknowledged, before its bytes are read.
pub fn setup_flag(list: &mut OpList<'_>)
    requires { Room 3 list.old }
    ensures { Adds list.old setup_ops list.new }
{
    ep0_tx_clear(list);
    ep0_rx_clear(list);
    status_ack(list, Field::UdifSetup);
}

// Its bytes end the control transfer in hand, and wait to be fetched.
pub fn setup_received(state: State, setup: Setup) -> State
    ensures { result ≡ setup_received state setup }
{
    let mut state = control_reset(state);
    state.setup = Some(setup);
    state
}

// A bus reset, or the bytes of a SETUP that has come, which reset the control transfer.
pub fn reset_by(bus: bool, state: State, setup: Option<Setup>) -> State
    ensures { result ≡ reset_by bus state setup }
{
    if bus {
        return reset_state(state);
    }
    match setup {
        Some(setup) => setup_received(state, setup),
        None => state,
    }
}

// The address that waits for the status stage.
fn address_due(list: &mut OpList<'_>, address: Option<u8>)
    requires { Room 1 list.old }
    ensures { Adds list.old (address_due address) list.new }
{
    if let Some(address) = address {
        set_address(list, address as u32);
    }
}

// The registers of a status stage: an address that waits takes hold.
pub fn status_stage(list: &mut OpList<'_>, address: Option<u8>)
    requires { Room 5 list.old }
    ensures { Adds list.old (status_ops address) list.new }
{
    status_ack(list, Field::UdifStatus);
    address_due(list, address);
    ep0_tx_clear(list);
    ep0_rx_ready(list);
}

// A packet of so many bytes has come in.
pub fn received_slot(slot: Slot, length: u32) -> Slot
    ensures { result ≡ received_slot length slot }
{
    let received = Transfer {
        progress: length,
        ..slot.transfer
    };
    moved(slot, slot.phase, received)
}

// A packet has gone out: the status stage follows, or NRDY until the next packet is ready.
pub fn answer_packet(list: &mut OpList<'_>, follows: bool)
    requires { Room 3 list.old }
    ensures { Adds list.old (sequence_ops follows) list.new }
{
    if follows {
        ep0_tx_answer(list, Value::Dph);
        ep0_rx_ready(list);
        return;
    }
    ep0_tx_answer(list, Value::Nrdy);
}
