// A SETUP fetched, stages of endpoint 0 taken, and the generation set.
#![tactic(auto)]

ghost use Rattle.std.specs.Prelude.{◌≡◌, cond, min as least, replicate};
ghost use Rattle.tool_scripts.specs.Script.{number_at};
ghost use Rattle.tool_patterns.specs.Patterns.{filled};
ghost use Rattle.control_setup.specs.Setup.{setup_call};
ghost use Rattle.control_take.specs.Take.{take_in_call};
ghost use Rattle.control_take_out.specs.TakeOut.{take_out_call};

use control_setup::Fetched;
use state::State;
use tool_called::taken;
use tool_scripts::number;
use world::World;

#[tactic(auto, unfolding(usbss::specs::Step::step))]
pub fn setup(rt: &impl Print, world: World) -> World
    ensures { result ≡ record world { state = (setup_call world.state world.events).state } }
{
    let called = usbss::setup(world.state, world.events);
    if let Ok(Some(fetched)) = called.answer {
        found(rt, fetched);
    }
    let said = called.answer.map(|fetched| fetched.is_some() as u32);
    tool_answers::answer(rt, said, called.wakes);
    world.with_state(called.state)
}

fn found(rt: &impl Print, fetched: Fetched) {
    let [a, b, c, d, e, f, g, h] = fetched.setup;
    let _ = println!(rt;
        "setup\t{a}\t{b}\t{c}\t{d}\t{e}\t{f}\t{g}\t{h}\t{}",
        fetched.generation
    );
}

// A stage has 512 bytes at most, so that more room changes nothing.
#[tactic(auto, unfolding(usbss::specs::Step::step))]
pub fn take_out(rt: &impl Print, world: World, line: &[u8]) -> World
    ensures { result ≡ record world { state = (take_out_call world.state world.events (number_at line.now 0) (least (number_at line.now 2) 512) (filled (number_at line.now 3) (replicate 512 0)) world.state.ep0_address).state } }
{
    let room = number(line, 2).min(512) as usize;
    let mut out = [0u8; 512];
    let mut ep0 = [0u8; 512];
    tool_patterns::fill(&mut ep0, number(line, 3));
    let at = world.state.ep0_address;
    let result = usbss::take_out(
        world.state,
        world.events,
        number(line, 0),
        &mut out[..room],
        &ep0,
        at,
    );
    if let Ok(Some(received)) = result.answer {
        tool_copies::copied(rt, at, number(line, 1), &out, received);
    }
    taken(rt, world, result)
}

#[tactic(auto, unfolding(usbss::specs::Step::step))]
pub fn take_in(rt: &impl Print, world: World, line: &[u8]) -> World
    ensures { result ≡ record world { state = (take_in_call world.state world.events (number_at line.now 0)).state } }
{
    let result = usbss::take_in(world.state, world.events, number(line, 0));
    taken(rt, world, result)
}

// No call of the driver. Only without power can the Rust be asked.
pub fn generation(rt: &impl Print, world: World, line: &[u8]) -> World
    ensures { result ≡ cond world.state.powered world (record world { state = record world.state { control_generation = number_at line.now 0 } }) }
{
    if world.state.powered {
        tool_answers::unfit(rt);
        return world;
    }
    tool_answers::done(rt, 0);
    world.with_state(State {
        control_generation: number(line, 0),
        ..world.state
    })
}
