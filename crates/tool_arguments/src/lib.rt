// A line's numbers, in the types that the calls take. One too large for its type is the largest, which is refused or
// ignored as it would be.
#![tactic(auto)]

ghost use Rattle.std.specs.Prelude.{◌≡◌};
ghost use Rattle.tool_arguments.specs.Arguments.{byte_at, half_at, flag_at};

use state::EndpointAddress;

pub fn byte(line: &[u8], k: usize) -> u8
    ensures { result ≡ byte_at line.now k }
{
    tool_scripts::number_up_to(line, k, u8::MAX as u32) as u8
}

pub fn half(line: &[u8], k: usize) -> u16
    ensures { result ≡ half_at line.now k }
{
    tool_scripts::number_up_to(line, k, u16::MAX as u32) as u16
}

// What a line's first two numbers say: IN or OUT, and the endpoint.
pub fn endpoint(line: &[u8]) -> EndpointAddress
    ensures index_value { result.index ≡ byte_at line.now 1 }
    ensures incoming_value { result.incoming ≡ flag_at line.now 0 }
{
    EndpointAddress {
        index: byte(line, 1),
        incoming: tool_scripts::flag(line, 0),
    }
}
