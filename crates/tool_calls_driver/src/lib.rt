// The driver in the making, and the allocation of its endpoints.
#![tactic(auto)]

ghost use Rattle.std.specs.Prelude.{◌≡◌};
ghost use Rattle.tool_scripts.specs.Script.{number_at};
ghost use Rattle.tool_arguments.specs.Arguments.{flag_at};
ghost use Rattle.driver_new.specs.New.{new_result};
ghost use Rattle.tool_calls_driver.specs.Request.{request_of};
ghost use Rattle.tool_calls_driver.specs.Driver.{made_or_kept, allocated_by};

mod request;

use tool_scripts::{flag, number};
use world::World;

// Where creation is refused, the driver in the making stays.
pub fn driver(rt: &impl Print, world: World, line: &[u8]) -> World
    ensures { result ≡ record world { driver = made_or_kept world.driver (new_result (number_at line.now 0) (number_at line.now 1)) } }
{
    match usbss::new(number(line, 0), number(line, 1)) {
        Ok(driver) => {
            tool_answers::done(rt, 0);
            world.with_driver(driver)
        }
        Err(refusal) => {
            tool_answers::refused(rt, refusal);
            world
        }
    }
}

pub fn allocate(rt: &impl Print, world: World, line: &[u8]) -> World
    ensures { result ≡ record world { driver = allocated_by world.driver (flag_at line.now 0) (request_of line.now) } }
{
    let Some(request) = request::read(line) else {
        tool_answers::unfit(rt);
        return world;
    };
    let mut driver = world.driver;
    match usbss::allocate(&mut driver, flag(line, 0), request) {
        Ok(config) => tool_answers::done(rt, config.buffer.address),
        Err(_) => tool_answers::not_allocated(rt),
    }
    world.with_driver(driver)
}
