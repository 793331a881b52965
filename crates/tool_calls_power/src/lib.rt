// The power, on and off, and the host woken.
#![tactic(auto)]

ghost use Rattle.std.specs.Prelude.{◌≡◌};
ghost use Rattle.std.proofs.lemmas.List.Edits.{sets};
ghost use Rattle.ops.specs.Ops.{flat};
ghost use Rattle.tool_scripts.specs.Script.{number_at};
ghost use Rattle.bus_power_on.specs.PowerOn.{power_on_call};
ghost use Rattle.bus_power_off.specs.PowerOff.{power_off_call};
ghost use Rattle.bus_wakeup.specs.Wakeup.{wakeup_call};

use tool_called::numberless;
use tool_scripts::number;
use world::World;

#[tactic(auto, unfolding(usbss::specs::Step::step))]
pub fn on(rt: &impl Print, list: &mut [u32; 640], world: World, line: &[u8]) -> World
    ensures world { result ≡ record world { state = (power_on_call 640 world.state world.events (number_at line.now 0)).state } }
    ensures list { list.new ≡ sets list.old 0 (flat (power_on_call 640 world.state world.events (number_at line.now 0)).ops) }
{
    let result = usbss::power_on(list, world.state, world.events, number(line, 0));
    numberless(rt, list, world, result)
}

#[tactic(auto, unfolding(usbss::specs::Step::step))]
pub fn off(rt: &impl Print, list: &mut [u32; 640], world: World) -> World
    ensures world { result ≡ record world { state = (power_off_call 640 world.state world.events).state } }
    ensures list { list.new ≡ sets list.old 0 (flat (power_off_call 640 world.state world.events).ops) }
{
    let result = usbss::power_off(list, world.state, world.events);
    numberless(rt, list, world, result)
}

#[tactic(auto, unfolding(usbss::specs::Step::step))]
pub fn wakeup(rt: &impl Print, list: &mut [u32; 640], world: World) -> World
    ensures world { result ≡ record world { state = (wakeup_call 640 world.state world.events).state } }
    ensures list { list.new ≡ sets list.old 0 (flat (wakeup_call 640 world.state world.events).ops) }
{
    let result = usbss::wakeup(list, world.state, world.events);
    numberless(rt, list, world, result)
}
