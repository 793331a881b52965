// A chain's report for the programs that run transfers by themselves, made as a device makes it: by an interrupt of its own,
// in which the link has nothing to say.
#![tactic(auto)]

ghost use Rattle.std.specs.Prelude.{◌≡◌};
ghost use Rattle.state.specs.Fresh.{nothing_awaited};
ghost use Rattle.tool_reports.specs.Reported.{begun, list_begun, heard, list_heard, quiet, list_quiet, transfer_status, chained, list_chained, reported, list_reported};
ghost use Rattle.tool_reports.specs.Plain.{Reportable, Plain};

use usbss::{
    EndpointAddress, Events, InterruptResult, LinkFlags, LinkState, LinkStatus, Reading, State,
    TransferStatus,
};

// What the last reading comes to.
pub fn report(
    list: &mut [u32; 640],
    state: State,
    events: Events,
    endpoint: EndpointAddress,
    packets: u32,
    last: u32,
) -> InterruptResult
    ensures result { result ≡ reported state events endpoint.index endpoint.incoming packets last }
    ensures list { list.new ≡ list_reported state events endpoint.index endpoint.incoming packets last list.old }
    ensures plain { Reportable state events endpoint.index packets last → Plain state events endpoint.index endpoint.incoming packets last list.old result list.new }
{
    let begun = begin(list, state, events);
    let quiet = link(list, begun);
    chain(list, quiet, endpoint, packets, last)
}

#[tactic(auto, unfolding(crate::specs::Reported::begun, crate::specs::Reported::list_begun))]
fn begin(list: &mut [u32; 640], state: State, events: Events) -> InterruptResult
    ensures result { result ≡ begun state events }
    ensures list { list.new ≡ list_begun state events list.old }
{
    usbss::interrupt(list, state, events)
}

// No flag is set.
fn flags() -> LinkFlags
    ensures { result ≡ nothing_awaited.flags }
{
    LinkFlags::default()
}

// The link's own readings.
fn link(list: &mut [u32; 640], begun: InterruptResult) -> InterruptResult
    ensures result { result ≡ quiet begun }
    ensures list { list.new ≡ list_quiet begun list.old }
{
    let status = LinkStatus {
        link_state: LinkState::U0,
        link_rx_term_pres: true,
        link_rx_warm_rst: false,
    };
    let flagged = next(list, begun, Reading::LinkFlags(flags()));
    next(list, flagged, Reading::LinkStatus(status))
}

fn transfer(endpoint: EndpointAddress) -> TransferStatus
    ensures { result ≡ transfer_status endpoint.index endpoint.incoming }
{
    TransferStatus {
        uif_transfer: true,
        ep_id: endpoint.index as u32,
        ep_dir: endpoint.incoming,
        ..TransferStatus::default()
    }
}

// Of IN neither the packets nor the last length are read.
#[tactic(auto, unfolding(crate::specs::Reported::chained, crate::specs::Reported::list_chained))]
fn chain(
    list: &mut [u32; 640],
    quiet: InterruptResult,
    endpoint: EndpointAddress,
    packets: u32,
    last: u32,
) -> InterruptResult
    ensures result { result ≡ chained endpoint.index endpoint.incoming packets last quiet }
    ensures list { list.new ≡ list_chained endpoint.index endpoint.incoming packets last quiet list.old }
{
    let status = next(list, quiet, Reading::TransferStatus(transfer(endpoint)));
    if endpoint.incoming {
        return status;
    }
    let counted = next(list, status, Reading::ChainPackets(packets));
    next(list, counted, Reading::LastLength(last))
}

// A reading, handed in behind another call.
#[tactic(auto, unfolding(crate::specs::Reported::heard, crate::specs::Reported::list_heard))]
fn next(list: &mut [u32; 640], before: InterruptResult, reading: Reading) -> InterruptResult
    ensures result { result ≡ heard reading before }
    ensures list { list.new ≡ list_heard reading before list.old }
{
    usbss::answer(list, before.state, before.events, reading)
}
