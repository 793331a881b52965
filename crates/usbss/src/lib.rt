// Every call of the driver, and nothing else (reference: ch32-hal's `usbss`, the device's side). Each does what `step` has
// for it; what makes a driver, `new` and `allocate`, has no state yet.
#![tactic(auto)]

mod bus;
mod control;
mod driver;
mod endpoint;
mod interrupts;
mod transfer;

pub use bus::{
    endpoint_set_enabled, endpoint_set_stalled, is_enabled, is_stalled, poll, power_off, power_on,
    raise, wakeup,
};
pub use control::{accept, accept_address, data_in, data_out, reject, setup, take_in, take_out};
pub use driver::{allocate, new, start};
pub use endpoint::{receive, received, send, sent};
pub use interrupts::{answer, interrupt};
pub use transfer::{abandon, begin, take};

// What the calls are given and hand back, so that an application names this crate alone.
pub use bus_endpoint::Order;
pub use control_setup::Fetched;
pub use control_stage::Stage;
pub use driver_start::StartResult;
pub use endpoint_answer::Move;
pub use endpoint_choice::MoveRequest;
pub use interrupt_asks::InterruptResult;
pub use state::fresh::fresh;
pub use state::{
    Awaiting, Buffer, Driver, EndpointAddress, EndpointConfig, EndpointRequest, EndpointType,
    Events, LinkFlags, LinkState, LinkStatus, POWER, Phase, RESET, RESUME, Reading, Refusal,
    SUSPEND, Slot, State, Tally, Transfer, TransferStatus, Wakes,
};
pub use state_call::{Answered, Listed, Said};
pub use state_events::Event;
pub use transfer_piece::Piece;
