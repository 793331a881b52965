// A driver made, its endpoints, and its start.
ghost use Rattle.std.specs.Prelude.{◌≡◌};
ghost use Rattle.driver_new.specs.New.{new_result};
ghost use Rattle.driver_allocate.specs.Allocate.{allocate_result};
ghost use Rattle.usbss.specs.Call.{Start};
ghost use Rattle.usbss.specs.Says.{Starts};
ghost use Rattle.usbss.specs.Step.{world, step};

use driver_start::StartResult;
use state::{Driver, EndpointConfig, EndpointRequest, Events, Refusal, State};

// A driver over some memory.
#[inline(always)]
pub fn new(address: u32, length: u32) -> Result<Driver, Refusal>
    ensures { result ≡ new_result address length }
{
    driver_new::new(address, length)
}

// An endpoint of a driver, with a buffer of its own.
#[inline(always)]
pub fn allocate(
    driver: &mut Driver,
    incoming: bool,
    request: EndpointRequest,
) -> Result<EndpointConfig, Refusal>
    ensures answer { result ≡ (allocate_result driver.old incoming request).answer }
    ensures driver { driver.new ≡ (allocate_result driver.old incoming request).driver }
{
    driver_allocate::allocate(driver, incoming, request)
}

// A state over a driver.
#[inline(always)]
#[tactic(auto, unfolding(crate::specs::Step::step))]
pub fn start(
    state: State,
    events: Events,
    driver: Driver,
    control_max_packet_size: u16,
) -> StartResult
    ensures { Starts (step (world state events) (Start driver control_max_packet_size)) result }
{
    driver_start::start(state, events, driver, control_max_packet_size)
}
