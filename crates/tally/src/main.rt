// Runs a script of calls, and prints the tally of each configured slot.
#![tactic(auto)]

fn main(rt: HostRuntime) {
    tool_tally_print::tallies(&rt, tool_tally::run());
}
