// What a script of calls runs on, and its orders and transfers, a call each.
#![tactic(auto)]

ghost use Rattle.std.specs.Prelude.{◌≡◌, true, false};
ghost use Rattle.bus_endpoint.specs.declared.Order.TheVariants.{Enable, Stall};
ghost use Rattle.tool_tally_steps.specs.Steps.{power_pending, bench_ordered, bench_begun, bench_taken, bench_abandoned, bench_reported, bench_sent, bench_received};

use state::{EndpointAddress, Events, State};
use transfer_piece::Piece;

// Where the buffers of the transfers lie.
const BUFFER: u32 = 0x200B_0000;

// An endpoint for what it sends, and for what it receives.
pub fn sending(index: u8) -> EndpointAddress
    ensures { result ≡ record { index = index; incoming = true } }
{
    EndpointAddress {
        index,
        incoming: true,
    }
}

pub fn receiving(index: u8) -> EndpointAddress
    ensures { result ≡ record { index = index; incoming = false } }
{
    EndpointAddress {
        index,
        incoming: false,
    }
}

// What is pending throughout.
pub fn pending() -> Events
    ensures { result ≡ power_pending }
{
    Events {
        events: state::POWER,
    }
}

// The list that the calls write, and the state that they leave.
#[derive(Drop)]
pub struct Bench {
    pub list: [u32; 640],
    pub state: State,
}

impl Bench {
    #[tactic(auto, unfolding(crate::specs::Steps::bench_ordered, usbss::specs::Step::step))]
    pub fn set_enabled(&mut self, endpoint: EndpointAddress, enabled: bool)
        ensures { self.new ≡ bench_ordered endpoint.index endpoint.incoming (Enable enabled) self.old }
    {
        let list = &mut self.list;
        let order = usbss::endpoint_set_enabled(list, self.state, pending(), endpoint, enabled);
        self.state = order.state;
    }

    #[tactic(auto, unfolding(crate::specs::Steps::bench_ordered, usbss::specs::Step::step))]
    pub fn set_stalled(&mut self, endpoint: EndpointAddress, stalled: bool)
        ensures { self.new ≡ bench_ordered endpoint.index endpoint.incoming (Stall stalled) self.old }
    {
        let list = &mut self.list;
        let order = usbss::endpoint_set_stalled(list, self.state, pending(), endpoint, stalled);
        self.state = order.state;
    }

    #[tactic(auto, unfolding(crate::specs::Steps::bench_begun, usbss::specs::Step::step))]
    pub fn begin(&mut self, endpoint: EndpointAddress, length: u32)
        ensures { self.new ≡ bench_begun endpoint.index endpoint.incoming length self.old }
    {
        let piece = Piece {
            address: BUFFER,
            length,
            zlp: false,
        };
        let list = &mut self.list;
        let begun = usbss::begin(list, self.state, pending(), endpoint, piece);
        self.state = begun.state;
    }

    #[tactic(auto, unfolding(crate::specs::Steps::bench_taken, usbss::specs::Step::step))]
    pub fn take(&mut self, endpoint: EndpointAddress)
        ensures { self.new ≡ bench_taken endpoint.index endpoint.incoming self.old }
    {
        self.state = usbss::take(self.state, pending(), endpoint).state;
    }

    #[tactic(auto, unfolding(crate::specs::Steps::bench_abandoned, usbss::specs::Step::step))]
    pub fn abandon(&mut self, endpoint: EndpointAddress)
        ensures { self.new ≡ bench_abandoned endpoint.index endpoint.incoming self.old }
    {
        let list = &mut self.list;
        self.state = usbss::abandon(list, self.state, pending(), endpoint).state;
    }

    #[tactic(auto, unfolding(crate::specs::Steps::bench_reported))]
    pub fn report(&mut self, endpoint: EndpointAddress, packets: u32, last: u32)
        ensures { self.new ≡ bench_reported endpoint.index endpoint.incoming packets last self.old }
    {
        let list = &mut self.list;
        let told = tool_reports::report(list, self.state, pending(), endpoint, packets, last);
        self.state = told.state;
    }

    // Begun, and its first chain reported.
    pub fn send(&mut self, index: u8, length: u32)
        ensures { self.new ≡ bench_sent index length self.old }
    {
        self.begin(sending(index), length);
        self.report(sending(index), 0, 0);
    }

    pub fn receive(&mut self, index: u8, length: u32, packets: u32, last: u32)
        ensures { self.new ≡ bench_received index length packets last self.old }
    {
        self.begin(receiving(index), length);
        self.report(receiving(index), packets, last);
    }
}
