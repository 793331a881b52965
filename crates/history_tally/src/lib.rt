// No code: the tally of a data slot, over every list of calls.
#![tactic(auto)]
