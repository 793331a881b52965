// What an allocation is asked with.
ghost use Rattle.std.specs.Prelude.{◌≡◌, cond, leb, Some, None};
ghost use Rattle.tool_scripts.specs.Script.{number_at};
ghost use Rattle.tool_calls_driver.specs.Request.{kind_of, address_asked, request_of};

use state::{EndpointAddress, EndpointRequest, EndpointType};
use tool_arguments::byte;
use tool_scripts::{flag, number};

// The request of a line, if its numbers fit.
pub fn read(line: &[u8]) -> Option<EndpointRequest>
    ensures { result ≡ request_of line.now }
{
    Some(EndpointRequest {
        endpoint: asked(line)?,
        ep_type: kind(number(line, 4))?,
        max_packet_size: u16::try_from(number(line, 5)).ok()?,
        interval_ms: u8::try_from(number(line, 6)).ok()?,
        max_burst: u8::try_from(number(line, 7)).ok()?,
        max_streams: u16::try_from(number(line, 8)).ok()?,
        mult: u8::try_from(number(line, 9)).ok()?,
    })
}

// The address that is asked for, if one is; its number fits in either case.
fn asked(line: &[u8]) -> Option<Option<EndpointAddress>>
    ensures { result ≡ cond (leb (number_at line.now 3) 15) (Some (address_asked line.now)) None }
{
    if number(line, 3) > 15 {
        return None;
    }
    let address = EndpointAddress {
        index: byte(line, 3),
        incoming: flag(line, 2),
    };
    Some(flag(line, 1).then_some(address))
}

fn kind(number: u32) -> Option<EndpointType>
    ensures { result ≡ kind_of number }
{
    match number {
        0 => Some(EndpointType::Control),
        1 => Some(EndpointType::Isochronous),
        2 => Some(EndpointType::Bulk),
        3 => Some(EndpointType::Interrupt),
        _ => None,
    }
}
