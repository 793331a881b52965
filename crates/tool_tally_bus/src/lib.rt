// The endpoints, the driver's start, power and reset.
#![tactic(auto)]

ghost use Rattle.std.specs.Prelude.{◌≡◌};
ghost use Rattle.tool_tally_bus.specs.Bus.{bench_started, bench_on, bench_off, bench_reset};

mod layout;

use ops::OpList;
use tool_tally_steps::{Bench, pending};

#[tactic(auto, unfolding(crate::specs::Bus::bench_started, usbss::specs::Step::step))]
pub fn started() -> Bench
    ensures { result ≡ bench_started }
{
    let fresh = state::fresh::fresh();
    Bench {
        list: [0; 640],
        state: usbss::start(fresh, pending(), layout::driver(), 512).state,
    }
}

#[tactic(auto, unfolding(crate::specs::Bus::bench_on, usbss::specs::Step::step))]
pub fn on(bench: &mut Bench)
    ensures { bench.new ≡ bench_on bench.old }
{
    bench.state = usbss::power_on(&mut bench.list, bench.state, pending(), 3).state;
}

#[tactic(auto, unfolding(crate::specs::Bus::bench_off, usbss::specs::Step::step))]
pub fn off(bench: &mut Bench)
    ensures { bench.new ≡ bench_off bench.old }
{
    bench.state = usbss::power_off(&mut bench.list, bench.state, pending()).state;
}

#[tactic(auto, unfolding(crate::specs::Bus::bench_reset))]
pub fn reset(bench: &mut Bench)
    ensures { bench.new ≡ bench_reset bench.old }
{
    bench.state = bus_reset::bus_reset(&mut OpList::new(&mut bench.list), bench.state);
}
