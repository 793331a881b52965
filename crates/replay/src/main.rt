// Runs a script of calls from standard input and prints what each of them does (docs/REPLAY.md).
#![tactic(auto)]

fn main(rt: HostRuntime) {
    let mut source = rt.reader();
    tool_run::script(&rt, &mut source);
}
