// Stages of endpoint 0 begun, and the answers to a request.
#![tactic(auto)]

ghost use Rattle.std.specs.Prelude.{◌≡◌};
ghost use Rattle.std.proofs.lemmas.List.Edits.{sets};
ghost use Rattle.ops.specs.Ops.{flat};
ghost use Rattle.tool_scripts.specs.Script.{number_at};
ghost use Rattle.tool_arguments.specs.Arguments.{byte_at, flag_at};
ghost use Rattle.control_out.specs.DataOut.{data_out_call};
ghost use Rattle.control_in.specs.DataIn.{data_in_call};
ghost use Rattle.control_accept.specs.Accept.{accept_call, accept_address_call};
ghost use Rattle.control_reject.specs.Reject.{reject_call};
ghost use Rattle.tool_calls_stage.specs.Lent.{bytes_lent};

use tool_called::numberless;
use tool_scripts::{flag, number};
use world::World;

// Where the bytes are to go is said when they are taken.
#[tactic(auto, unfolding(usbss::specs::Step::step))]
pub fn data_out(rt: &impl Print, list: &mut [u32; 640], world: World, line: &[u8]) -> World
    ensures world { result ≡ record world { state = (data_out_call 640 world.state world.events (number_at line.now 0)).state } }
    ensures list { list.new ≡ sets list.old 0 (flat (data_out_call 640 world.state world.events (number_at line.now 0)).ops) }
{
    let result = usbss::data_out(list, world.state, world.events, number(line, 0));
    numberless(rt, list, world, result)
}

// 513 bytes are as much too long as any more.
#[tactic(auto, unfolding(usbss::specs::Step::step))]
pub fn data_in(rt: &impl Print, list: &mut [u32; 640], world: World, line: &[u8]) -> World
    ensures world { result ≡ record world { state = (data_in_call 640 world.state world.events (number_at line.now 0) (bytes_lent line.now) world.state.ep0_address 512 (flag_at line.now 3) (flag_at line.now 4)).state } }
    ensures list { list.new ≡ sets list.old 0 (flat (data_in_call 640 world.state world.events (number_at line.now 0) (bytes_lent line.now) world.state.ep0_address 512 (flag_at line.now 3) (flag_at line.now 4)).ops) }
{
    let length = number(line, 2);
    let count = length.min(513) as usize;
    let mut bytes = [0u8; 513];
    tool_patterns::fill(&mut bytes, number(line, 5));
    let mut ep0 = [0u8; 512];
    let at = world.state.ep0_address;
    let result = usbss::data_in(
        list,
        world.state,
        world.events,
        number(line, 0),
        &bytes[..count],
        &mut ep0,
        at,
        flag(line, 3),
        flag(line, 4),
    );
    if result.answer.is_ok() {
        tool_copies::copied(rt, number(line, 1), at, &ep0, length);
    }
    numberless(rt, list, world, result)
}

#[tactic(auto, unfolding(usbss::specs::Step::step))]
pub fn accept(rt: &impl Print, list: &mut [u32; 640], world: World, line: &[u8]) -> World
    ensures world { result ≡ record world { state = (accept_call 640 world.state world.events (number_at line.now 0)).state } }
    ensures list { list.new ≡ sets list.old 0 (flat (accept_call 640 world.state world.events (number_at line.now 0)).ops) }
{
    let result = usbss::accept(list, world.state, world.events, number(line, 0));
    numberless(rt, list, world, result)
}

#[tactic(auto, unfolding(usbss::specs::Step::step))]
pub fn accept_address(rt: &impl Print, list: &mut [u32; 640], world: World, line: &[u8]) -> World
    ensures world { result ≡ record world { state = (accept_address_call 640 world.state world.events (number_at line.now 0) (byte_at line.now 1)).state } }
    ensures list { list.new ≡ sets list.old 0 (flat (accept_address_call 640 world.state world.events (number_at line.now 0) (byte_at line.now 1)).ops) }
{
    let generation = number(line, 0);
    let address = tool_arguments::byte(line, 1);
    let (state, events) = (world.state, world.events);
    let result = usbss::accept_address(list, state, events, generation, address);
    numberless(rt, list, world, result)
}

#[tactic(auto, unfolding(usbss::specs::Step::step))]
pub fn reject(rt: &impl Print, list: &mut [u32; 640], world: World, line: &[u8]) -> World
    ensures world { result ≡ record world { state = (reject_call 640 world.state world.events (number_at line.now 0)).state } }
    ensures list { list.new ≡ sets list.old 0 (flat (reject_call 640 world.state world.events (number_at line.now 0)).ops) }
{
    let result = usbss::reject(list, world.state, world.events, number(line, 0));
    numberless(rt, list, world, result)
}
