// The report of a chain by an interrupt of its own, in which the link has nothing to say.
#![tactic(auto)]

ghost use Rattle.std.specs.Prelude.{◌≡◌, cond};
ghost use Rattle.tool_calls_report.specs.Report.{report_fits, report_due, world_begun, list_begun, world_heard, list_heard, world_quiet, list_quiet, transfer_status, world_reported, list_reported};

use interrupt_asks::InterruptResult;
use state::fresh::nothing_awaited;
use state::{EndpointAddress, LinkState, LinkStatus, Reading, Refusal, TransferStatus};
use tool_arguments::{byte, endpoint};
use tool_scripts::number;
use world::World;

// Such an interrupt is asked for with power, of a data endpoint, and with numbers that registers can hold.
pub fn report(rt: &impl Print, list: &mut [u32; 640], world: World, line: &[u8]) -> World
    ensures world { result ≡ cond (report_due world line.now) (world_reported world line.now) world }
    ensures list { list.new ≡ cond (report_due world line.now) (list_reported world line.now list.old) list.old }
{
    if world.state.awaited.next.is_some() {
        tool_answers::refused(rt, Refusal::OutOfTurn);
        return world;
    }
    if world.state.powered && fits(line) {
        return reported(rt, list, world, line);
    }
    tool_answers::unfit(rt);
    world
}

fn fits(line: &[u8]) -> bool
    ensures { result ≡ report_fits line.now }
{
    let data = state_slots::is_data_endpoint(byte(line, 1));
    data && number(line, 2) < 256 && number(line, 3) < 65536
}

fn reported(rt: &impl Print, list: &mut [u32; 640], world: World, line: &[u8]) -> World
    ensures world { result ≡ world_reported world line.now }
    ensures list { list.new ≡ list_reported world line.now list.old }
{
    let at = endpoint(line);
    let begun = begin(list, world);
    let quiet = link(rt, list, begun);
    let status = next(rt, list, quiet, Reading::TransferStatus(transfer(at)));
    if at.incoming {
        return status;
    }
    let counted = next(rt, list, status, Reading::ChainPackets(number(line, 2)));
    next(rt, list, counted, Reading::LastLength(number(line, 3)))
}

#[tactic(auto, unfolding(crate::specs::Report::world_begun, crate::specs::Report::list_begun, usbss::specs::Step::step))]
fn begin(list: &mut [u32; 640], world: World) -> World
    ensures world { result ≡ world_begun world }
    ensures list { list.new ≡ list_begun world list.old }
{
    left(world, usbss::interrupt(list, world.state, world.events))
}

// No flag of the link is set.
fn link(rt: &impl Print, list: &mut [u32; 640], world: World) -> World
    ensures world { result ≡ world_quiet world }
    ensures list { list.new ≡ list_quiet world list.old }
{
    let flags = nothing_awaited().flags;
    let status = LinkStatus {
        link_state: LinkState::U0,
        link_rx_term_pres: true,
        link_rx_warm_rst: false,
    };
    let flagged = next(rt, list, world, Reading::LinkFlags(flags));
    next(rt, list, flagged, Reading::LinkStatus(status))
}

fn transfer(at: EndpointAddress) -> TransferStatus
    ensures { result ≡ transfer_status at.index at.incoming }
{
    TransferStatus {
        uif_transfer: true,
        ep_id: at.index as u32,
        ep_dir: at.incoming,
        ..TransferStatus::default()
    }
}

// A reading, and what is written behind it. Only the end of handling is told.
#[tactic(auto, unfolding(crate::specs::Report::world_heard, crate::specs::Report::list_heard, usbss::specs::Step::step))]
fn next(rt: &impl Print, list: &mut [u32; 640], world: World, reading: Reading) -> World
    ensures world { result ≡ world_heard reading world }
    ensures list { list.new ≡ list_heard reading world list.old }
{
    let result = usbss::answer(list, world.state, world.events, reading);
    tool_print::operations(rt, list, result.end);
    if let Ok(None) = result.answer {
        tool_answers::answer(rt, Ok(0), result.wakes);
    }
    left(world, result)
}

fn left(world: World, called: InterruptResult) -> World
    ensures { result ≡ record world { state = called.state; events = called.events } }
{
    world.with_state(called.state).with_events(called.events)
}
