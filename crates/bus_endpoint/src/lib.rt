// What an order does on one endpoint (reference: `set_endpoint_stalled` and `endpoint_set_enabled` of device.rs).
#![tactic(auto)]

ghost use Rattle.std.specs.Prelude.{[], ◌≡◌, ◌≤◌, Ok, length};
ghost use Rattle.ops.specs.Ops.{flat, list_numbers};
ghost use Rattle.ops.specs.Lists.{Room, Adds};
ghost use Rattle.ops.specs.Wrote.{Wrote};
ghost use Rattle.state.specs.Refusals.{first_refusal};
ghost use Rattle.state_call.specs.Turn.{admitted_at};
ghost use Rattle.bus_endpoint.specs.Endpoint.{isochronous_of, wanted, fits, ordered_slot, ordered_ops, order_wakes, made_slot, made_ops, obeyed_ops, obeyed_at};
ghost use Rattle.bus_endpoint.specs.declared.Order.TheVariants.{Stall, Enable};

use ops::OpList;
use state::{EndpointAddress, EndpointConfig, EndpointType, Refusal, Slot, Wakes};
use state_call::{Entry, ListEntry};
use state_slots::waking::{no_wakes, wake_slot};
use state_slots::{forget, is_busy, is_data_endpoint, reset, slot_number};

// What can be asked of an endpoint: to answer STALL or no longer, to be on or off.
#[derive(Clone, Copy)]
pub enum Order {
    Stall(bool),
    Enable(bool),
}

// What an order says of a slot, and leaves of it.
#[derive(Clone, Copy)]
pub struct Obeyed {
    pub answer: Result<(), Refusal>,
    pub slot: Slot,
    pub end: usize,
    pub wakes: Wakes,
}

fn is_isochronous(config: Option<EndpointConfig>) -> bool
    ensures { result ≡ isochronous_of config }
{
    config.is_some_and(|config| config.ep_type == EndpointType::Isochronous)
}

fn wakes_of(endpoint: EndpointAddress) -> Wakes
    ensures { result ≡ order_wakes endpoint.index endpoint.incoming }
{
    if is_data_endpoint(endpoint.index) {
        return wake_slot(slot_number(endpoint));
    }
    no_wakes()
}

// Ends the chain of a busy transfer, then has the endpoint answer STALL or no longer.
fn stall_ops(list: &mut OpList<'_>, endpoint: EndpointAddress, slot: Slot, stalled: bool)
    requires { Room 7 list.old }
    ensures { Adds list.old (ordered_ops (Stall stalled) endpoint.index endpoint.incoming slot) list.new }
{
    let index = endpoint.index as u32;
    regs_endpoint::abort_busy(list, index, endpoint.incoming, is_busy(slot.phase));
    if stalled {
        regs_endpoint::halt(list, index, endpoint.incoming);
    } else {
        regs_endpoint::clear(list, index, endpoint.incoming);
    }
}

// Off, then set up anew and on, or cleared.
fn switch_ops(list: &mut OpList<'_>, endpoint: EndpointAddress, slot: Slot, enabled: bool)
    requires { Room 10 list.old }
    ensures { Adds list.old (ordered_ops (Enable enabled) endpoint.index endpoint.incoming slot) list.new }
{
    let index = endpoint.index as u32;
    regs_endpoint::set_enabled(list, index, endpoint.incoming, false);
    if enabled {
        regs_endpoint::configure(list, index, endpoint.incoming, is_isochronous(slot.config));
        regs_endpoint::set_enabled(list, index, endpoint.incoming, true);
    } else {
        regs_endpoint::clear(list, index, endpoint.incoming);
    }
}

fn ordered_ops(list: &mut OpList<'_>, endpoint: EndpointAddress, slot: Slot, order: Order)
    requires { Room 128 list.old }
    ensures { Adds list.old (ordered_ops order endpoint.index endpoint.incoming slot) list.new }
{
    match order {
        Order::Stall(stalled) => stall_ops(list, endpoint, slot, stalled),
        Order::Enable(enabled) => switch_ops(list, endpoint, slot, enabled),
    }
}

fn ordered_slot(order: Order, slot: Slot) -> Slot
    ensures { result ≡ ordered_slot order slot }
{
    match order {
        Order::Stall(stalled) => forget(slot, true, slot.enabled, stalled),
        Order::Enable(enabled) => reset(slot, true, enabled),
    }
}

// A stall order wants an enabled endpoint.
fn is_wanted(order: Order, enabled: bool) -> bool
    ensures { result ≡ wanted order enabled }
{
    enabled || matches!(order, Order::Enable(_))
}

// Whether an order reaches the endpoint.
fn fits(powered: bool, index: u8, order: Order, slot: Slot) -> bool
    ensures { result ≡ fits powered index order slot }
{
    let there = is_data_endpoint(index);
    let wanted = is_wanted(order, slot.enabled);
    there & (powered & slot.config.is_some()) & wanted
}

// An order that isn't refused.
fn make(
    ops: &mut [u32],
    powered: bool,
    endpoint: EndpointAddress,
    order: Order,
    slot: Slot,
) -> Obeyed
    requires { list_numbers ≤ length ops.old }
    ensures result { result ≡ record { answer = Ok tt; slot = made_slot powered endpoint.index order slot; end = length (flat (made_ops powered endpoint.index endpoint.incoming order slot)); wakes = order_wakes endpoint.index endpoint.incoming } }
    ensures list { Wrote ops.old 0 (made_ops powered endpoint.index endpoint.incoming order slot) result.end ops.new }
{
    let wakes = wakes_of(endpoint);
    if fits(powered, endpoint.index, order, slot) {
        let mut list = OpList::new(ops);
        ordered_ops(&mut list, endpoint, slot, order);
        return Obeyed {
            answer: Ok(()),
            slot: ordered_slot(order, slot),
            end: list.end,
            wakes,
        };
    }
    Obeyed {
        answer: Ok(()),
        slot,
        end: 0,
        wakes, // also where nothing is done
    }
}

// What an order, refused or made, says of a slot, leaves of it and writes.
pub fn obey(
    ops: &mut [u32],
    entry: Entry,
    powered: bool,
    endpoint: EndpointAddress,
    order: Order,
    slot: Slot,
) -> Obeyed
    ensures result { result ≡ obeyed_at (first_refusal (admitted_at (record { room = length ops.old; entry = entry }) [])) powered endpoint.index endpoint.incoming order slot }
    ensures list { Wrote ops.old 0 (obeyed_ops (first_refusal (admitted_at (record { room = length ops.old; entry = entry }) [])) powered endpoint.index endpoint.incoming order slot) result.end ops.new }
{
    let room = ops.len();
    match (ListEntry { room, entry }).admit() {
        Ok(()) => make(ops, powered, endpoint, order, slot),
        Err(refusal) => Obeyed {
            answer: Err(refusal),
            slot,
            end: 0,
            wakes: no_wakes(),
        },
    }
}
