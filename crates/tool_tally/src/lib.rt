// A script of calls: transfers, then a bus reset, then the power off.
#![tactic(auto)]

ghost use Rattle.std.specs.Prelude.{◌≡◌};
ghost use Rattle.tool_tally.specs.Script.{bench_anew, script_state};
ghost use Rattle.tool_tally.specs.Tallies.{tallies_of, script_tallies};

use state::State;
use tool_tally_steps::{Bench, sending};

#[tactic(auto, using(crate::specs::TalliesLaws::tallied), unfolding(crate::specs::Script::script_state))]
pub fn run() -> State
    ensures state { result ≡ script_state }
    ensures tallies { tallies_of result ≡ script_tallies }
{
    let mut bench = tool_tally_bus::started();
    tool_tally_bus::on(&mut bench);
    tool_tally_parts::in_use(&mut bench);
    tool_tally_small::transfers(&mut bench);
    reset(&mut bench);
    // What slot 5 has in hand is cut.
    tool_tally_bus::off(&mut bench);
    bench.state
}

// A bus reset cuts what slots 2 and 3 have in hand; slot 5 begins anew.
#[tactic(auto, unfolding(crate::specs::Script::bench_anew))]
fn reset(bench: &mut Bench)
    ensures { bench.new ≡ bench_anew bench.old }
{
    tool_tally_bus::reset(bench);
    bench.set_enabled(sending(2), true);
    bench.begin(sending(2), 100);
}
