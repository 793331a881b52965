// No code: when a device address takes hold, over every list of calls.
#![tactic(auto)]
