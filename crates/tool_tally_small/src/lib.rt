// The transfers of all endpoints; here those of 2 and 3: some are taken, one is stalled, one disabled.
#![tactic(auto)]

ghost use Rattle.std.specs.Prelude.{◌≡◌};
ghost use Rattle.tool_tally_small.specs.Small.{bench_small_in, bench_small_out, bench_transfers};

use tool_tally_parts::{answers, images};
use tool_tally_steps::{Bench, receiving, sending};

#[tactic(auto, unfolding(crate::specs::Small::bench_transfers))]
pub fn transfers(bench: &mut Bench)
    ensures { bench.new ≡ bench_transfers bench.old }
{
    images(bench);
    answers(bench);
    small_in(bench);
    small_out(bench);
}

// Slot 5: one is stalled, one taken.
#[tactic(auto, unfolding(crate::specs::Small::bench_small_in))]
fn small_in(bench: &mut Bench)
    ensures { bench.new ≡ bench_small_in bench.old }
{
    bench.begin(sending(2), 640);
    bench.set_stalled(sending(2), true);
    bench.set_stalled(sending(2), false);
    bench.send(2, 64);
    bench.take(sending(2));
}

// Slot 6: one taken, one disabled while it is done.
#[tactic(auto, unfolding(crate::specs::Small::bench_small_out))]
fn small_out(bench: &mut Bench)
    ensures { bench.new ≡ bench_small_out bench.old }
{
    bench.receive(3, 160, 10, 16);
    bench.take(receiving(3));
    bench.receive(3, 32, 1, 3);
    bench.set_enabled(receiving(3), false);
}
