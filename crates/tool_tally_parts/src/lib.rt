// The endpoints in use, and the transfers of endpoint 1: some are taken, one is abandoned, some stay in hand.
#![tactic(auto)]

ghost use Rattle.std.specs.Prelude.{◌≡◌};
ghost use Rattle.tool_tally_parts.specs.Parts.{bench_in_use, bench_images, bench_answers};

use tool_tally_steps::{Bench, receiving, sending};

#[tactic(auto, unfolding(crate::specs::Parts::bench_in_use))]
pub fn in_use(bench: &mut Bench)
    ensures { bench.new ≡ bench_in_use bench.old }
{
    bench.set_enabled(sending(1), true);
    bench.set_enabled(receiving(1), true);
    bench.set_enabled(sending(2), true);
    bench.set_enabled(receiving(3), true);
}

// Slot 3: one taken, one abandoned after its first chain, one left done.
#[tactic(auto, unfolding(crate::specs::Parts::bench_images))]
pub fn images(bench: &mut Bench)
    ensures { bench.new ≡ bench_images bench.old }
{
    bench.send(1, 1025);
    bench.take(sending(1));
    bench.begin(sending(1), 300000);
    bench.abandon(sending(1));
    bench.send(1, 2048);
}

// Slot 2: one that a short packet ends is taken, one is left busy.
#[tactic(auto, unfolding(crate::specs::Parts::bench_answers))]
pub fn answers(bench: &mut Bench)
    ensures { bench.new ≡ bench_answers bench.old }
{
    bench.receive(1, 4096, 2, 1024);
    bench.report(receiving(1), 9, 100);
    bench.take(receiving(1));
    bench.receive(1, 2048, 1, 1024);
}
