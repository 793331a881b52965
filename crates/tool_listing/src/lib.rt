// One line of the listing: its transfer begun in a state of its own, and each of its chains reported.
#![tactic(auto)]

use state_slots::{is_busy, slot_at, slot_number};
use tool_lines::Request;
use usbss::{EndpointAddress, Events, Listed, Piece, State};

// No event is pending.
const NO_EVENTS: Events = Events { events: 0 };

pub fn line(rt: &impl Print, list: &mut [u32; 640], text: &[u8]) {
    match tool_lines::read_line(text) {
        Some(request) => transfer(rt, list, request),
        None => tool_listing_answers::refused(rt, None),
    }
}

// The whole of a transfer.
fn transfer(rt: &impl Print, list: &mut [u32; 640], request: Request) {
    let endpoint = tool_listing_state::endpoint(request);
    let begun = begun(rt, list, request, endpoint);
    match begun.answer {
        Ok(()) => reports(rt, list, begun.state, endpoint, request),
        Err(refusal) => tool_listing_answers::refused(rt, Some(refusal)),
    }
}

// One that is refused has no records.
fn begun(
    rt: &impl Print,
    list: &mut [u32; 640],
    request: Request,
    endpoint: EndpointAddress,
) -> Listed<()> {
    let state = tool_listing_state::enabled(request, endpoint);
    let piece = Piece {
        address: request.address,
        length: request.length,
        zlp: request.incoming && request.zlp,
    };
    let begun = usbss::begin(list, state, NO_EVENTS, endpoint, piece);
    tool_print::operations(rt, list, begun.end);
    begun
}

// Reports chain after chain until the transfer is done; of OUT, that all of the chain came. Each moves a byte or is the
// one empty packet, so the turns suffice.
fn reports(
    rt: &impl Print,
    list: &mut [u32; 640],
    begun: State,
    endpoint: EndpointAddress,
    request: Request,
) {
    let mut state = begun;
    for _ in 0..request.length as u64 + 2 {
        let slot = slot_at(state, slot_number(endpoint));
        if !is_busy(slot.phase) {
            tool_listing_answers::done(rt, endpoint.index as u32, slot.transfer.progress);
            return;
        }
        let size = request.max_packet_size;
        let told = tool_reports::report(list, state, NO_EVENTS, endpoint, 255, size);
        state = told.state;
        tool_print::operations(rt, list, told.end);
    }
}
