// Allocating the endpoints of a driver (reference: `Driver::allocate` of device.rs).
#![tactic(auto)]

ghost use Rattle.std.specs.Prelude.{◌≡◌, ◌≤◌, Ok, Err};
ghost use Rattle.state_call.specs.Outcome.{or_else};
ghost use Rattle.driver_allocate.specs.Rules.{present, size_fits, burst_fits, direction_fits, index_fits, available, lowest, found, endpoint_for, size_for, end_for};
ghost use Rattle.driver_allocate.specs.Allocate.{allocate_check, address_for, config_for, driver_with, Placeable, allocate_result, allocate_numbers, numbers_for};

use driver_new::up4_of;
use driver_sound::driver_sound;
use state::refusals::refuse_if;
use state::{
    Buffer, Driver, EndpointAddress, EndpointConfig, EndpointRequest, EndpointType, Refusal,
};
use state_slots::slot_number;

fn packet_size_valid(request: EndpointRequest) -> bool
    ensures { result ≡ size_fits present request.ep_type request.max_packet_size request.interval_ms }
{
    match request.ep_type {
        EndpointType::Control => false,
        EndpointType::Bulk => request.max_packet_size == 1024,
        EndpointType::Isochronous | EndpointType::Interrupt => {
            (1..=1024).contains(&request.max_packet_size) && request.interval_ms != 0
        }
    }
}

fn burst_valid(request: EndpointRequest) -> bool
    ensures { result ≡ burst_fits present request.max_burst request.max_streams request.mult }
{
    request.max_burst <= 15 && request.max_streams == 0 && request.mult == 0
}

fn direction_valid(requested: Option<EndpointAddress>, incoming: bool) -> bool
    ensures { result ≡ direction_fits requested incoming }
{
    requested.is_none_or(|address| address.incoming == incoming)
}

// Whether an endpoint is the one requested, if one is.
fn index_valid(requested: Option<EndpointAddress>, index: u8) -> bool
    ensures { result ≡ index_fits requested index }
{
    requested.is_none_or(|address| address.index == index)
}

// Whether an endpoint isn't allocated yet, and is the one requested if one is.
fn is_available(
    driver: &Driver,
    endpoint: EndpointAddress,
    requested: Option<EndpointAddress>,
) -> bool
    requires { endpoint.index ≤ 7 }
    ensures { result ≡ available driver.now endpoint.incoming requested endpoint.index }
{
    driver.endpoints[slot_number(endpoint)].is_none() && index_valid(requested, endpoint.index)
}

// The lowest available endpoint.
fn free_endpoint(driver: &Driver, incoming: bool, requested: Option<EndpointAddress>) -> Option<u8>
    ensures { result ≡ found (lowest (available driver.now incoming requested) 7) }
{
    (1..8).find(|&index| is_available(driver, EndpointAddress { index, incoming }, requested))
}

// Length of an endpoint's own buffer: a burst of packets.
fn size_for(request: EndpointRequest) -> u32
    ensures { result ≡ size_for request }
{
    (request.max_packet_size as u32) * (request.max_burst as u32 + 1)
}

// Where the buffer would end in the memory.
fn end_for(driver: &Driver, request: EndpointRequest) -> u64
    ensures { result ≡ end_for driver.now request }
{
    up4_of(driver.used) + size_for(request) as u64
}

// The endpoint that a request gets, unless it is refused.
#[tactic(auto, using(crate::specs::RulesLaws::found_none, crate::specs::RulesLaws::found_some), unfolding(crate::specs::Allocate::allocate_check, state_call::specs::Outcome::or_else))]
fn endpoint_of(
    driver: &Driver,
    incoming: bool,
    request: EndpointRequest,
) -> Result<EndpointAddress, Refusal>
    ensures { result ≡ or_else (allocate_check driver.now incoming request) Err (Ok (address_for driver.now incoming request)) }
{
    refuse_if(!driver_sound(*driver), Refusal::Unsound)?;
    refuse_if(!packet_size_valid(request), Refusal::UnfitPacketSize)?;
    refuse_if(!burst_valid(request), Refusal::UnfitBurst)?;
    let directed = direction_valid(request.endpoint, incoming);
    refuse_if(!directed, Refusal::WrongDirection)?;
    let index = free_endpoint(driver, incoming, request.endpoint).ok_or(Refusal::NoFreeEndpoint)?;
    let capacity = driver.capacity as u64;
    refuse_if(capacity < end_for(driver, request), Refusal::NoRoom)?;
    Ok(EndpointAddress { index, incoming })
}

// The endpoint of an accepted request, which the driver then has.
#[tactic(auto, using(crate::specs::RulesLaws::lowest_most))]
fn place(driver: &mut Driver, endpoint: EndpointAddress, request: EndpointRequest) -> EndpointConfig
    requires placeable { Placeable driver.old endpoint.incoming request }
    requires index { endpoint.index ≡ endpoint_for driver.old endpoint.incoming request }
    ensures config { result ≡ config_for driver.old endpoint.incoming request }
    ensures driver { driver.new ≡ driver_with driver.old endpoint.incoming request }
{
    let start = up4_of(driver.used) as u32;
    let size = size_for(request);
    let config = EndpointConfig {
        endpoint,
        ep_type: request.ep_type,
        max_packet_size: request.max_packet_size,
        interval_ms: request.interval_ms,
        max_burst: request.max_burst,
        buffer: Buffer {
            address: driver.memory + start,
            size,
        },
    };
    driver.endpoints[slot_number(endpoint)] = Some(config);
    driver.used = start + size;
    config
}

// An endpoint of the given direction.
#[tactic(auto, using(crate::specs::AllocateLaws::placeable), unfolding(crate::specs::Allocate::allocate_result, crate::specs::Allocate::placed, state_call::specs::Outcome::or_else))]
pub fn allocate(
    driver: &mut Driver,
    incoming: bool,
    request: EndpointRequest,
) -> Result<EndpointConfig, Refusal>
    ensures answer { result ≡ (allocate_result driver.old incoming request).answer }
    ensures driver { driver.new ≡ (allocate_result driver.old incoming request).driver }
    ensures numbers { allocate_numbers result ≡ numbers_for (allocate_check driver.old incoming request) driver.old incoming request }
{
    let endpoint = endpoint_of(driver, incoming, request)?;
    Ok(place(driver, endpoint, request))
}
