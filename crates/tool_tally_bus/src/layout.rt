// The driver that is started.
ghost use Rattle.std.specs.Prelude.{◌≡◌};
ghost use Rattle.tool_tally_bus.specs.Layout.{driver_also, script_driver};

use state::{Driver, EndpointAddress, EndpointRequest, EndpointType};
use tool_tally_steps::{receiving, sending};

// Endpoint 1 in both directions, 2 for IN, 3 for OUT, and 4 for IN, which isn't used.
#[tactic(auto, unfolding(crate::specs::Layout::script_driver, driver_new::specs::New::new_result, driver_new::specs::New::new_check, state_call::specs::Outcome::or_else))]
pub fn driver() -> Driver
    ensures { result ≡ script_driver }
{
    let mut driver = usbss::new(0x200A_0000, 8192).unwrap_or(driver_new::no_driver());
    allocate_endpoint(&mut driver, sending(1), EndpointType::Bulk, 1024);
    allocate_endpoint(&mut driver, receiving(1), EndpointType::Bulk, 1024);
    allocate_endpoint(&mut driver, sending(2), EndpointType::Interrupt, 64);
    allocate_endpoint(&mut driver, receiving(3), EndpointType::Interrupt, 16);
    allocate_endpoint(&mut driver, sending(4), EndpointType::Isochronous, 512);
    driver
}

#[tactic(auto, unfolding(crate::specs::Layout::driver_also))]
fn allocate_endpoint(driver: &mut Driver, endpoint: EndpointAddress, kind: EndpointType, size: u16)
    ensures { driver.new ≡ driver_also endpoint.index endpoint.incoming kind size driver.old }
{
    let request = EndpointRequest {
        endpoint: Some(endpoint),
        ep_type: kind,
        max_packet_size: size,
        interval_ms: 1,
        max_burst: 0,
        max_streams: 0,
        mult: 0,
    };
    let _ = usbss::allocate(driver, endpoint.incoming, request);
}
