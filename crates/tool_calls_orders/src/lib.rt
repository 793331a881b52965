// The orders of an endpoint.
#![tactic(auto)]

ghost use Rattle.std.specs.Prelude.{◌≡◌};
ghost use Rattle.std.proofs.lemmas.List.Edits.{sets};
ghost use Rattle.ops.specs.Ops.{flat};
ghost use Rattle.tool_arguments.specs.Arguments.{byte_at, flag_at};
ghost use Rattle.bus_endpoint.specs.declared.Order.TheVariants.{Enable, Stall};
ghost use Rattle.bus_order.specs.Order.{order_call};

use tool_arguments::endpoint;
use tool_called::numberless;
use tool_scripts::flag;
use usbss::{endpoint_set_enabled, endpoint_set_stalled};
use world::World;

#[tactic(auto, unfolding(usbss::specs::Step::step))]
pub fn enable(rt: &impl Print, list: &mut [u32; 640], world: World, line: &[u8]) -> World
    ensures world { result ≡ record world { state = (order_call 640 world.state world.events (byte_at line.now 1) (flag_at line.now 0) (Enable (flag_at line.now 2))).state } }
    ensures list { list.new ≡ sets list.old 0 (flat (order_call 640 world.state world.events (byte_at line.now 1) (flag_at line.now 0) (Enable (flag_at line.now 2))).ops) }
{
    let (state, events) = (world.state, world.events);
    let result = endpoint_set_enabled(list, state, events, endpoint(line), flag(line, 2));
    numberless(rt, list, world, result)
}

#[tactic(auto, unfolding(usbss::specs::Step::step))]
pub fn stall(rt: &impl Print, list: &mut [u32; 640], world: World, line: &[u8]) -> World
    ensures world { result ≡ record world { state = (order_call 640 world.state world.events (byte_at line.now 1) (flag_at line.now 0) (Stall (flag_at line.now 2))).state } }
    ensures list { list.new ≡ sets list.old 0 (flat (order_call 640 world.state world.events (byte_at line.now 1) (flag_at line.now 0) (Stall (flag_at line.now 2))).ops) }
{
    let (state, events) = (world.state, world.events);
    let result = endpoint_set_stalled(list, state, events, endpoint(line), flag(line, 2));
    numberless(rt, list, world, result)
}
