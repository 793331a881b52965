// The state in which a line's transfer is begun. A number too large for its type becomes the largest, which is refused
// as it would be.
#![tactic(auto)]

use state::fresh::{fresh, fresh_slot};
use state::{Buffer, EndpointAddress, EndpointConfig, EndpointType, Slot, State};
use state_slots::{slot_number, with_slot};
use tool_lines::Request;

pub fn endpoint(request: Request) -> EndpointAddress {
    EndpointAddress {
        index: request.endpoint.min(255) as u8,
        incoming: request.incoming,
    }
}

// A fresh state, powered, with the request's endpoint enabled where there is such an endpoint.
pub fn enabled(request: Request, endpoint: EndpointAddress) -> State {
    let powered = State {
        powered: true,
        ..fresh()
    };
    if endpoint.index == 0 {
        return powered;
    }
    with_slot(
        powered,
        slot_number(endpoint),
        enabled_slot(request, endpoint),
    )
}

fn enabled_slot(request: Request, endpoint: EndpointAddress) -> Slot {
    let size = request.max_packet_size.min(65535);
    Slot {
        enabled: true,
        config: Some(EndpointConfig {
            endpoint,
            ep_type: EndpointType::Interrupt,
            max_packet_size: size as u16,
            interval_ms: 1,
            max_burst: 0,
            buffer: Buffer {
                address: request.own,
                size,
            },
        }),
        ..fresh_slot()
    }
}
