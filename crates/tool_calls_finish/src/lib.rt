// A transfer taken, or given up.
#![tactic(auto)]

ghost use Rattle.std.specs.Prelude.{◌≡◌, false};
ghost use Rattle.std.proofs.lemmas.List.Edits.{sets};
ghost use Rattle.ops.specs.Ops.{flat};
ghost use Rattle.tool_arguments.specs.Arguments.{byte_at, flag_at};
ghost use Rattle.transfer_take.specs.Take.{take_call};
ghost use Rattle.transfer_abandon.specs.Abandon.{abandon_call};

use tool_arguments::endpoint;
use world::World;

#[tactic(auto, unfolding(usbss::specs::Step::step))]
pub fn take(rt: &impl Print, world: World, line: &[u8]) -> World
    ensures { result ≡ record world { state = (take_call world.state world.events (byte_at line.now 1) (flag_at line.now 0) false 0xFFFF_FFFF).state } }
{
    let taken = usbss::take(world.state, world.events, endpoint(line));
    tool_called::taken(rt, world, taken)
}

#[tactic(auto, unfolding(usbss::specs::Step::step))]
pub fn abandon(rt: &impl Print, list: &mut [u32; 640], world: World, line: &[u8]) -> World
    ensures world { result ≡ record world { state = (abandon_call 640 world.state world.events (byte_at line.now 1) (flag_at line.now 0)).state } }
    ensures list { list.new ≡ sets list.old 0 (flat (abandon_call 640 world.state world.events (byte_at line.now 1) (flag_at line.now 0)).ops) }
{
    let abandoned = usbss::abandon(list, world.state, world.events, endpoint(line));
    tool_called::listed(rt, list, world, abandoned, abandoned.answer)
}
