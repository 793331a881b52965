// No code: the theorem about every list of calls.
#![tactic(auto)]
